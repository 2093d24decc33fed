//! The lines of the plan: where each may stand, and how it is taken.
ghost use Rattle.std.specs.Prelude.{◌≡◌, ◌+◌, ◌<◌, ◌≤◌, ◌++◌, ◌∷◌, [], if◌then◌else◌, false, is_some, length, nat_lt, nat_le, ◌&&◌, take, IfOk, IsSome, OnErr, OnOk, Some};
ghost use Rattle.sg_plan.specs.Ballots.{all_entries, ballots_of, r_rows};
ghost use Rattle.sg_plan.specs.Limits.{is_version, most_ballots, most_races, most_rows, most_styles, race_head_keeps, run_keeps, style_keeps};
ghost use Rattle.sg_plan.specs.Names.{is_within};
ghost use Rattle.sg_plan.specs.declared.plan.Plan.{Plan as PlanSeen};
ghost use Rattle.sg_forms.specs.Said.{said};
ghost use Rattle.sg_grammar.specs.Head.{behind_candidate, head_line, last_candidates, made, take_run, with_candidate, with_run, with_style};
ghost use Rattle.sg_grammar.specs.Made.{IsMade, IsSmall};
ghost use Rattle.sg_grammar.specs.Slots.{is_run};

use crate::counted::CountedPlan;
use crate::state::Head;
use sg_forms::Line;
use sg_plan::limits::{MOST_INSTANCES, MOST_RACES, MOST_ROWS, MOST_STYLES};
use sg_plan::{
    Items, NoMemory, Plan, Race, Run, Style, Word, is_name, is_new_name, is_race_head, is_run,
    is_style,
};
use std::alloc::Global;

// WHICH LINE MAY STAND

/// The line may stand behind the plan's lines so far.
#[tactic(auto, using(crate::proofs::Making::stages))]
pub(crate) fn may_stand_in_head(plan: &CountedPlan, head: Head, line: &Line) -> bool
    requires { IsMade plan.now head }
    ensures { result ≡ is_some (head_line plan.now head (said line.now)) }
{
    match head {
        Head::Version => may_be_version(line),
        Head::Election => may_be_election(line),
        Head::Instances => may_be_instances(line),
        Head::Races => may_follow_race(plan.plan(), line),
        Head::Candidates { left } => may_be_candidate(plan.plan(), left, line),
        Head::Styles => may_follow_style(plan, line),
        Head::Runs => may_be_run(plan, line),
        Head::Whole => false,
    }
}

/// The line is a version of the record.
#[tactic(auto, using(crate::proofs::Claims::tests))]
fn may_be_version(line: &Line) -> bool
    ensures { (plan : PlanSeen) → result ≡ is_some (head_line plan Head.Version (said line.now)) }
{
    match line {
        Line::Version(version) => is_version(*version),
        _ => false,
    }
}

/// The version is one of the record's.
fn is_version(version: u32) -> bool
    ensures { result ≡ is_version version }
{
    version == 1 || version == 2
}

/// The line is the election's name.
#[tactic(auto, using(crate::proofs::Claims::tests))]
fn may_be_election(line: &Line) -> bool
    ensures { (plan : PlanSeen) → result ≡ is_some (head_line plan Head.Election (said line.now)) }
{
    match line {
        Line::Election(name) => is_name(name),
        _ => false,
    }
}

/// The line is a number of instances.
#[tactic(auto, using(crate::proofs::Claims::tests))]
fn may_be_instances(line: &Line) -> bool
    ensures { (plan : PlanSeen) → result ≡ is_some (head_line plan Head.Instances (said line.now)) }
{
    match line {
        Line::Instances(instances) => is_between(*instances, 1, MOST_INSTANCES),
        _ => false,
    }
}

/// The number is in the range, both ends included.
fn is_between(number: u32, least: u32, most: u32) -> bool
    ensures { result ≡ is_within least most number }
{
    (least..=most).contains(&number)
}

/// The line is a race, or the first style where there is a race.
#[tactic(auto, using(crate::proofs::Claims::tests))]
fn may_follow_race(plan: &Plan, line: &Line) -> bool
    ensures { result ≡ is_some (head_line plan.now Head.Races (said line.now)) }
{
    match line {
        Line::Race {
            name,
            candidates,
            votes,
        } => is_new_race(plan, name, *candidates, *votes),
        Line::Style { name, races, count } => {
            plan.races.len() > 0 && is_new_style(plan, name, first_numbers(races, *count))
        }
        _ => false,
    }
}

/// The race is not one too many, and keeps its limits but for its candidates' names.
fn is_new_race(plan: &Plan, name: &[u8], candidates: u32, votes: u32) -> bool
    ensures { result ≡ (nat_lt (length plan.now.races) most_races && race_head_keeps plan.now.races name.now candidates votes) }
{
    if plan.races.len() >= MOST_RACES {
        return false;
    }
    is_race_head(plan.races.as_slice(), name, candidates as usize, votes)
}

/// The line is a candidate of the last race.
#[tactic(auto, using(crate::proofs::Claims::tests))]
fn may_be_candidate(plan: &Plan, left: u32, line: &Line) -> bool
    requires { 0 < length plan.now.races }
    ensures { result ≡ is_some (head_line plan.now (Head.Candidates left) (said line.now)) }
{
    match line {
        Line::Cand(name) => is_new_name(last_names(&plan.races), name),
        _ => false,
    }
}

/// The names of the last race's candidates.
#[tactic(auto, using(crate::proofs::Adding::last_race))]
fn last_names(races: &Items<Race>) -> &[Word]
    requires { 0 < length races.now }
    ensures { result.now ≡ last_candidates races.now }
{
    races.get(races.len() - 1).candidates.as_slice()
}

/// The first numbers, so many of them.
fn first_numbers(numbers: &[u32; MOST_RACES], count: u32) -> &[u32]
    ensures { result.now ≡ take count numbers.now }
{
    let count = count as usize;
    if count >= numbers.len() {
        return numbers.as_slice();
    }
    &numbers[..count]
}

/// The style is not one too many, and keeps its limits.
fn is_new_style(plan: &Plan, name: &[u8], races: &[u32]) -> bool
    ensures { result ≡ (nat_lt (length plan.now.styles) most_styles && style_keeps (length plan.now.races) plan.now.styles (record { name = name.now; races = races.now })) }
{
    if plan.styles.len() >= MOST_STYLES {
        return false;
    }
    is_style(plan.races.len(), plan.styles.as_slice(), name, races)
}

/// The line is a further style, or the first run.
#[tactic(auto, using(crate::proofs::Claims::tests))]
fn may_follow_style(plan: &CountedPlan, line: &Line) -> bool
    requires { IsSmall plan.now }
    ensures { result ≡ is_some (head_line plan.now Head.Styles (said line.now)) }
{
    match line {
        Line::Style { name, races, count } => is_new_style(
            plan.plan(),
            name,
            first_numbers(races, *count),
        ),
        _ => may_be_run(plan, line),
    }
}

/// The line is a run, with which the plan keeps its limits.
#[tactic(auto, using(crate::proofs::Claims::tests))]
fn may_be_run(plan: &CountedPlan, line: &Line) -> bool
    requires { IsSmall plan.now }
    ensures { result ≡ is_some (take_run plan.now (said line.now)) }
{
    match line {
        Line::Ballots { style, count } => is_new_run(
            plan,
            Run {
                style: *style,
                count: *count,
            },
        ),
        _ => false,
    }
}

/// The run keeps its limits, and with it the plan has few enough rows.
fn is_new_run(plan: &CountedPlan, run: Run) -> bool
    requires { IsSmall plan.now }
    ensures { result ≡ (run_keeps (length plan.now.styles) plan.now.runs run && nat_le (r_rows (with_run plan.now run.style run.count)) most_rows) }
{
    if !is_run(plan.plan().styles.len(), plan.ballots(), &run) {
        return false;
    }
    count_rows_with(plan, run) <= MOST_ROWS
}

/// How many rows of table R there are with one more run, over all races and instances.
fn count_rows_with(plan: &CountedPlan, run: Run) -> u64
    requires small { IsSmall plan.now }
    requires few { ballots_of plan.now + run.count ≤ most_ballots }
    ensures { result ≡ r_rows (with_run plan.now run.style run.count) }
{
    u64::from(plan.instances()) * count_entries_with(plan, run)
}

/// How many entries all races have with one more run.
fn count_entries_with(plan: &CountedPlan, run: Run) -> u64
    requires small { IsSmall plan.now }
    requires few { ballots_of plan.now + run.count ≤ most_ballots }
    ensures { result ≡ all_entries (with_run plan.now run.style run.count) }
{
    let mut entries = 0;
    for race in 0..plan.races() {
        entries += u64::from(plan.entries_with(race, run));
    }
    entries
}

// WHAT A LINE ADDS TO THE PLAN

/// Adds to the plan what the line says, which is no run, and answers which of the plan's lines stand with it.
pub(crate) fn add_to_plan(
    alloc: Global,
    plan: &mut Plan,
    head: Head,
    line: &Line,
) -> Result<Head, NoMemory>
    requires made { IsMade plan.old head }
    requires may { IsSome (head_line plan.old head (said line.now)) }
    requires other { is_run (said line.now) ≡ false }
    ensures ok { IfOk result (λ next. head_line plan.old head (said line.now) ≡ Some (made plan.new next)) }
    ensures err { OnErr result (plan.new ≡ plan.old) }
{
    match head {
        Head::Version => Ok(add_version(plan, line)),
        Head::Election => add_election(alloc, plan, line),
        Head::Instances => Ok(add_instances(plan, line)),
        Head::Races => add_behind_race(alloc, plan, line),
        Head::Candidates { left } => add_candidate(alloc, plan, left, line),
        Head::Styles => add_behind_style(alloc, plan, line),
        Head::Runs => unreachable!(),
        Head::Whole => unreachable!(),
    }
}

/// Adds the version.
fn add_version(plan: &mut Plan, line: &Line) -> Head
    requires { IsSome (head_line plan.old Head.Version (said line.now)) }
    ensures { head_line plan.old Head.Version (said line.now) ≡ Some (made plan.new result) }
{
    match line {
        Line::Version(version) => {
            plan.version = *version;
            Head::Election
        }
        _ => unreachable!(),
    }
}

/// Adds the election's name.
fn add_election(alloc: Global, plan: &mut Plan, line: &Line) -> Result<Head, NoMemory>
    requires { IsSome (head_line plan.old Head.Election (said line.now)) }
    ensures ok { IfOk result (λ next. head_line plan.old Head.Election (said line.now) ≡ Some (made plan.new next)) }
    ensures err { OnErr result (plan.new ≡ plan.old) }
{
    match line {
        Line::Election(name) => {
            plan.name = copy_word(alloc, name)?;
            Ok(Head::Instances)
        }
        _ => unreachable!(),
    }
}

/// A word of these bytes.
fn copy_word(alloc: Global, bytes: &[u8]) -> Result<Word, NoMemory>
    ensures { IfOk result (λ word. word ≡ bytes.now) }
{
    let mut word = Word::new(alloc);
    word.extend(bytes)?;
    Ok(word)
}

/// Adds the number of instances.
fn add_instances(plan: &mut Plan, line: &Line) -> Head
    requires { IsSome (head_line plan.old Head.Instances (said line.now)) }
    ensures { head_line plan.old Head.Instances (said line.now) ≡ Some (made plan.new result) }
{
    match line {
        Line::Instances(instances) => {
            plan.instances = *instances;
            Head::Races
        }
        _ => unreachable!(),
    }
}

/// Adds a race, or the first style.
fn add_behind_race(alloc: Global, plan: &mut Plan, line: &Line) -> Result<Head, NoMemory>
    requires { IsSome (head_line plan.old Head.Races (said line.now)) }
    ensures ok { IfOk result (λ next. head_line plan.old Head.Races (said line.now) ≡ Some (made plan.new next)) }
    ensures err { OnErr result (plan.new ≡ plan.old) }
{
    match line {
        Line::Race {
            name,
            candidates,
            votes,
        } => {
            let name = copy_word(alloc, name)?;
            plan.races.push(Race {
                name,
                candidates: Items::new(alloc),
                votes: *votes,
            })?;
            Ok(Head::Candidates { left: *candidates })
        }
        Line::Style { name, races, count } => {
            push_style(alloc, plan, name, first_numbers(races, *count))?;
            Ok(Head::Styles)
        }
        _ => unreachable!(),
    }
}

/// Puts a style behind the others.
fn push_style(alloc: Global, plan: &mut Plan, name: &[u8], races: &[u32]) -> Result<(), NoMemory>
    ensures ok { OnOk result (plan.new ≡ with_style plan.old name.now races.now) }
    ensures err { OnErr result (plan.new ≡ plan.old) }
{
    let name = copy_word(alloc, name)?;
    let mut list = Items::new(alloc);
    list.extend(races)?;
    plan.styles.push(Style { name, races: list })
}

/// Adds a candidate of the last race, where so many are due.
fn add_candidate(alloc: Global, plan: &mut Plan, left: u32, line: &Line) -> Result<Head, NoMemory>
    requires some { 1 ≤ left }
    requires race { 0 < length plan.old.races }
    requires may { IsSome (head_line plan.old (Head.Candidates left) (said line.now)) }
    ensures ok { IfOk result (λ next. head_line plan.old (Head.Candidates left) (said line.now) ≡ Some (made plan.new next)) }
    ensures err { OnErr result (plan.new ≡ plan.old) }
{
    match line {
        Line::Cand(name) => {
            let name = copy_word(alloc, name)?;
            push_candidate(alloc, &mut plan.races, name)?;
            Ok(head_behind_candidate(left))
        }
        _ => unreachable!(),
    }
}

/// Puts a candidate behind those of the last race.
#[tactic(auto, using(crate::proofs::Adding::last_race))]
fn push_candidate(alloc: Global, races: &mut Items<Race>, name: Word) -> Result<(), NoMemory>
    requires { 0 < length races.old }
    ensures ok { OnOk result (races.new ≡ with_candidate races.old name) }
    ensures err { OnErr result (races.new ≡ races.old) }
{
    let last = races.len() - 1;
    let blank = Race {
        name: Word::new(alloc),
        candidates: Items::new(alloc),
        votes: 0,
    };
    let mut race = races.replace(last, blank);
    let pushed = race.candidates.push(name);
    races.replace(last, race);
    pushed
}

/// What may come behind a candidate, where so many were due.
fn head_behind_candidate(left: u32) -> Head
    requires { 1 ≤ left }
    ensures { result ≡ behind_candidate left }
{
    if left == 1 {
        Head::Races
    } else {
        Head::Candidates { left: left - 1 }
    }
}

/// Adds a further style.
fn add_behind_style(alloc: Global, plan: &mut Plan, line: &Line) -> Result<Head, NoMemory>
    requires may { IsSome (head_line plan.old Head.Styles (said line.now)) }
    requires other { is_run (said line.now) ≡ false }
    ensures ok { IfOk result (λ next. head_line plan.old Head.Styles (said line.now) ≡ Some (made plan.new next)) }
    ensures err { OnErr result (plan.new ≡ plan.old) }
{
    match line {
        Line::Style { name, races, count } => {
            push_style(alloc, plan, name, first_numbers(races, *count))?;
            Ok(Head::Styles)
        }
        _ => unreachable!(),
    }
}
