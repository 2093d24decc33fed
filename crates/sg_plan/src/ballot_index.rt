//! An index of a plan's ballots, in which each is found in constant time.
ghost use Rattle.std.specs.Prelude.{◌≡◌, ◌+◌, ◌<◌, ◌≤◌, None, Some, true, IfOk, length};
ghost use Rattle.sg_plan.specs.Ballots.{ballot_has, ballot_row, ballots_of, races_of_ballot, rows_of, style_of_ballot};
ghost use Rattle.sg_plan.specs.Fates.{fate_fits};
ghost use Rattle.sg_plan.specs.Limits.{fault_of};

use crate::fates::detail_fits;
use crate::index_reads::{ballot_in, row_of};
use crate::index_tables::{count_races, count_starts, list_ballots, list_firsts, number_runs};
use crate::items::Items;
use crate::memory::NoMemory;
use crate::plan::{Fate, Plan};
use crate::run_numbers::RunNumbers;
use std::alloc::Global;
use std::marker::Model;

/// A plan without a fault, and an index of its ballots. Contracts see the plan alone.
///
/// Beside its copy of the plan it takes two bytes for each ballot, for each ballot with a race that it has, and for
/// each run with each race.
#[derive(Debug, Drop)]
pub struct BallotIndex {
    plan: Plan,
    /// Of each ballot, the number of its run.
    numbers: RunNumbers,
    /// Of each run, how many ballots come before it.
    starts: Items<u16>,
    /// Of each race and in it of each run, how many of the ballots before it have the race.
    counts: Items<u16>,
    /// Of each race, where its ballots begin.
    firsts: Items<u32>,
    /// Of each race, the ballots that have it.
    ballots: Items<u16>,
}

impl Model for BallotIndex {
    ghost use Rattle.sg_plan.specs.declared.plan.Plan.{Plan};
    ghost use Rattle.sg_plan.specs.inside.Index.{IsIndex};

    ghost Value = { Plan };

    ghost view = { λ index. index.plan };

    ghost invariant = { λ index. IsIndex index.plan index.numbers index.starts index.counts index.firsts index.ballots };
}

impl BallotIndex {
    /// The index of the plan, made in the time of its ballots in their races. Only this takes memory.
    pub fn make(alloc: Global, plan: &Plan) -> Result<BallotIndex, NoMemory>
        requires { fault_of plan.now ≡ None }
        ensures { IfOk result (λ index. index ≡ plan.now) }
    {
        let numbers = number_runs(alloc, &plan.runs)?;
        let starts = count_starts(alloc, &plan.runs)?;
        let counts = count_races(alloc, plan)?;
        let firsts = list_firsts(alloc, plan)?;
        let ballots = list_ballots(alloc, plan)?;
        Ok(BallotIndex {
            plan: plan.copy(alloc)?,
            numbers,
            starts,
            counts,
            firsts,
            ballots,
        })
    }

    /// The plan itself. It has no fault.
    pub fn plan(&self) -> &Plan
        ensures plan { result.now ≡ self.now }
        ensures good { fault_of self.now ≡ None }
    {
        &self.plan
    }

    /// How many ballots the plan has.
    pub fn ballots(&self) -> u32
        ensures { result ≡ ballots_of self.now }
    {
        self.numbers.ballots(&self.plan.runs)
    }

    /// The number of the style of a ballot of the plan. Ballots are numbered from 1.
    pub fn style(&self, ballot: u32) -> u32
        requires first { 1 ≤ ballot }
        requires last { ballot ≤ ballots_of self.now }
        ensures { style_of_ballot self.now ballot ≡ Some result }
    {
        self.numbers.style_of(&self.plan.runs, ballot)
    }

    /// The races of a ballot of the plan, in rising order.
    pub fn races(&self, ballot: u32) -> &[u32]
        requires first { 1 ≤ ballot }
        requires last { ballot ≤ ballots_of self.now }
        ensures { result.now ≡ races_of_ballot self.now ballot }
    {
        let style = self.style(ballot) as usize;
        if style >= self.plan.styles.len() {
            return &[];
        }
        self.plan.styles.get(style).races.as_slice()
    }

    /// The ballot is in the plan, and its style has the race.
    pub fn has(&self, ballot: u32, race: u32) -> bool
        ensures { result ≡ ballot_has self.now ballot race }
    {
        if ballot == 0 {
            return false;
        }
        if ballot > self.ballots() {
            return false;
        }
        self.plan.style_carries(self.style(ballot), race)
    }

    /// The ballot row of a ballot of the plan in a race: how many earlier ballots have the race.
    pub fn row(&self, race: u32, ballot: u32) -> u32
        requires race { race < length self.now.races }
        requires first { 1 ≤ ballot }
        requires last { ballot ≤ ballots_of self.now }
        ensures { result ≡ ballot_row self.now race ballot }
    {
        row_of(
            &self.numbers,
            &self.starts,
            &self.counts,
            &self.plan,
            race,
            ballot,
        )
    }

    /// The ballot in a ballot row of a race. An entry's ballot is that of the row `entry / K`, where the race has K
    /// candidates.
    pub fn ballot(&self, race: u32, row: u32) -> u32
        requires race { race < length self.now.races }
        requires row { row < rows_of self.now race }
        ensures has { ballot_has self.now result race ≡ true }
        ensures row { ballot_row self.now race result ≡ row }
        ensures first { 1 ≤ result }
        ensures last { result ≤ ballots_of self.now }
    {
        ballot_in(&self.firsts, &self.ballots, &self.plan, race, row)
    }

    /// The fate fits the plan: the ballot is in the plan, each mark names a race of the ballot and a candidate of it and
    /// no mark stands twice, and a paper has a list for each race of the ballot, with a code of the version for each
    /// candidate.
    pub fn fits(&self, ballot: u32, fate: &Fate) -> bool
        ensures { result ≡ fate_fits self.now ballot fate.now }
    {
        if ballot == 0 {
            return false;
        }
        if ballot > self.ballots() {
            return false;
        }
        detail_fits(&self.plan, self.races(ballot), fate)
    }
}
