//! What is counted of a plan while its lines come.
ghost use Rattle.std.specs.Prelude.{◌≡◌, ◌==◌, ◌+◌, ◌-◌, ◌^◌, ◌<◌, ◌≤◌, ◌++◌, ◌∷◌, [], if◌then◌else◌, length, replicate, slice_get, false, IfNone, IfOk, IfSome, IsSome, None, OnErr, OnOk, Some};
ghost use Rattle.sg_plan.specs.Limits.{most_candidates, most_races};
ghost use Rattle.sg_plan.specs.Ballots.{ballot_has, ballots_of, candidates_of, entries_of, style_of_ballot};
ghost use Rattle.sg_forms.specs.Said.{said};
ghost use Rattle.sg_forms.specs.Said.Said.{Ballots};
ghost use Rattle.sg_grammar.specs.Head.{head_line, made, no_plan, with_run};
ghost use Rattle.sg_grammar.specs.Made.{IsMade};
ghost use Rattle.sg_grammar.specs.Slots.{IsCounted, RunFits, TellsEntries, is_run};

use crate::head::add_to_plan;
use crate::state::Head;
use sg_forms::Line;
use sg_plan::limits::MOST_RACES;
use sg_plan::{Items, NoMemory, Plan, Run, RunNumbers, Word};
use std::alloc::Global;
use std::marker::Model;

/// How many candidates the race has.
fn candidates_in(plan: &Plan, race: u32) -> u32
    requires race { race < length plan.now.races }
    requires few { candidates_of plan.now race ≤ most_candidates }
    ensures { result ≡ candidates_of plan.now race }
{
    plan.races.get(race as usize).candidates.len() as u32
}

/// The entries of a race with one more run of ballots, which had so many without it.
fn more_entries(plan: &Plan, before: u32, race: u32, run: Run) -> u32
    requires race { race < length plan.now.races }
    requires before { before ≡ entries_of plan.now race }
    requires few { candidates_of plan.now race ≤ most_candidates }
    requires fits { entries_of (with_run plan.now run.style run.count) race < 2 ^ 32 }
    ensures { result ≡ entries_of (with_run plan.now run.style run.count) race }
{
    let candidates = candidates_in(plan, race);
    if plan.style_carries(run.style, race) {
        before + run.count * candidates
    } else {
        before
    }
}

/// The entries of all races with one more run of ballots.
fn entries_with_run(plan: &Plan, before: [u32; MOST_RACES], run: Run) -> [u32; MOST_RACES]
    requires few_races { length plan.now.races ≤ most_races }
    requires tells { TellsEntries plan.now before }
    requires fits { RunFits plan.now run.style run.count }
    ensures { TellsEntries (with_run plan.now run.style run.count) result }
{
    let mut entries = before;
    for race in 0..plan.races.len() {
        entries[race] = more_entries(plan, entries[race], race as u32, run);
    }
    entries
}

/// Puts a run behind the others, and its number behind the others for each of its ballots.
///
/// Only this takes time of the ballots, and only of the run's own.
fn push_run(runs: &mut Items<Run>, numbers: &mut RunNumbers, run: Run) -> Result<(), NoMemory>
    requires { length runs.old < 2 ^ 16 }
    ensures runs { OnOk result (runs.new ≡ runs.old ++ run ∷ []) }
    ensures numbers { OnOk result (numbers.new ≡ numbers.old ++ replicate run.count (length runs.old)) }
    ensures same_runs { OnErr result (runs.new ≡ runs.old) }
    ensures same_numbers { OnErr result (numbers.new ≡ numbers.old) }
{
    let number = runs.len();
    runs.push(run)?;
    match numbers.push_run(number, run.count) {
        Ok(()) => Ok(()),
        Err(error) => {
            runs.remove(number);
            Err(error)
        }
    }
}

/// The run of ballots that the line is.
fn run_of(line: &Line) -> Option<Run>
    ensures some { IfSome result (λ run. said line.now ≡ Ballots run.style run.count) }
    ensures none { IfNone result (is_run (said line.now) ≡ false) }
{
    match line {
        Line::Ballots { style, count } => Some(Run {
            style: *style,
            count: *count,
        }),
        _ => None,
    }
}

/// A plan in the making, with what is counted of it as its lines come: each race's entries, and the run of each ballot.
#[derive(Debug, Drop)]
pub(crate) struct CountedPlan {
    plan: Plan,
    entries: [u32; MOST_RACES],
    numbers: RunNumbers,
}

impl Model for CountedPlan {
    ghost use Rattle.sg_plan.specs.declared.plan.Plan.{Plan};

    ghost Value = { Plan };

    ghost use Rattle.sg_grammar.specs.Slots.{IsCounted};

    ghost view = { λ counted. counted.plan };

    ghost invariant = { λ counted. IsCounted counted.plan counted.entries counted.numbers };
}

impl CountedPlan {
    /// The plan of no lines. It takes no memory.
    pub(crate) fn new(alloc: Global) -> CountedPlan
        ensures { result ≡ no_plan }
    {
        let plan = Plan {
            version: 0,
            name: Word::new(alloc),
            instances: 0,
            races: Items::new(alloc),
            styles: Items::new(alloc),
            runs: Items::new(alloc),
        };
        CountedPlan {
            plan,
            entries: [0; MOST_RACES],
            numbers: RunNumbers::new(alloc),
        }
    }

    /// The plan itself.
    pub(crate) fn plan(&self) -> &Plan
        ensures { result.now ≡ self.now }
    {
        &self.plan
    }

    /// The plan itself, without what is counted of it.
    pub(crate) fn into_plan(self) -> Plan
        ensures { result ≡ self }
    {
        self.plan
    }

    /// Takes a line of the plan that may stand, and answers which of them stand then.
    pub(crate) fn add(&mut self, alloc: Global, head: Head, line: &Line) -> Result<Head, NoMemory>
        requires made { IsMade self.old head }
        requires may { IsSome (head_line self.old head (said line.now)) }
        ensures ok { IfOk result (λ next. head_line self.old head (said line.now) ≡ Some (made self.new next)) }
        ensures err { OnErr result (self.new ≡ self.old) }
    {
        match run_of(line) {
            Some(run) => {
                self.add_run(run)?;
                Ok(Head::Runs)
            }
            None => add_to_plan(alloc, &mut self.plan, head, line),
        }
    }

    /// Takes a run of ballots.
    fn add_run(&mut self, run: Run) -> Result<(), NoMemory>
        requires { RunFits self.old run.style run.count }
        ensures ok { OnOk result (self.new ≡ with_run self.old run.style run.count) }
        ensures err { OnErr result (self.new ≡ self.old) }
    {
        let entries = entries_with_run(&self.plan, self.entries, run);
        push_run(&mut self.plan.runs, &mut self.numbers, run)?;
        self.entries = entries;
        Ok(())
    }

    /// How many races the plan has.
    pub(crate) fn races(&self) -> u32
        ensures { result ≡ length self.now.races }
    {
        self.plan.races.len() as u32
    }

    /// How many instances of table R each race has.
    pub(crate) fn instances(&self) -> u32
        ensures { result ≡ self.now.instances }
    {
        self.plan.instances
    }

    /// How many candidates the race has.
    pub(crate) fn candidates(&self, race: u32) -> u32
        requires race { race < length self.now.races }
        requires few { candidates_of self.now race ≤ most_candidates }
        ensures { result ≡ candidates_of self.now race }
    {
        candidates_in(&self.plan, race)
    }

    /// How many entries the race has.
    pub(crate) fn entries(&self, race: u32) -> u32
        requires { race < length self.now.races }
        ensures { result ≡ entries_of self.now race }
    {
        self.entries[race as usize]
    }

    /// How many entries the race has with one more run of ballots.
    pub(crate) fn entries_with(&self, race: u32, run: Run) -> u32
        requires race { race < length self.now.races }
        requires few { candidates_of self.now race ≤ most_candidates }
        requires fits { entries_of (with_run self.now run.style run.count) race < 2 ^ 32 }
        ensures { result ≡ entries_of (with_run self.now run.style run.count) race }
    {
        more_entries(&self.plan, self.entries[race as usize], race, run)
    }

    /// How many ballots the plan has: at most 20,000.
    pub(crate) fn ballots(&self) -> u32
        ensures { result ≡ ballots_of self.now }
    {
        self.numbers.ballots(&self.plan.runs)
    }

    /// The style of the ballot. Ballots are numbered from 1.
    pub(crate) fn style_of(&self, ballot: u32) -> Option<u32>
        ensures { result ≡ style_of_ballot self.now ballot }
    {
        self.numbers.style_at(&self.plan.runs, ballot)
    }

    /// The ballot is in the plan, and its style has the race.
    pub(crate) fn has(&self, ballot: u32, race: u32) -> bool
        ensures { result ≡ ballot_has self.now ballot race }
    {
        match self.style_of(ballot) {
            Some(style) => self.plan.style_carries(style, race),
            None => false,
        }
    }
}
