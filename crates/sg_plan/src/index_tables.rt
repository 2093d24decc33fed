//! The lists that an index of ballots keeps, each made in the time of what it holds.
ghost use Rattle.std.specs.Prelude.{◌≡◌, ◌+◌, ◌≤◌, ◌<◌, ◌++◌, if◌then◌else◌, None, true, IfOk, OnOk, length};
ghost use Rattle.std.specs.List.{range_with_len};
ghost use Rattle.sg_plan.specs.Ballots.{ballot_styles, style_has};
ghost use Rattle.sg_plan.specs.Limits.{fault_of, most_ballots};
ghost use Rattle.sg_plan.specs.inside.Index.{ballots_to, ballots_with, counts_before, counts_to, firsts_to};
ghost use Rattle.sg_plan.specs.Runs.{run_numbers};

use crate::ballots::{count_ballots, rows_of_run};
use crate::items::Items;
use crate::memory::NoMemory;
use crate::plan::{Plan, Run};
use crate::run_numbers::RunNumbers;
use std::alloc::Global;

/// Of each ballot, the number of its run.
pub fn number_runs(alloc: Global, runs: &Items<Run>) -> Result<RunNumbers, NoMemory>
    requires runs { length runs.now ≤ most_ballots }
    requires ballots { length (ballot_styles runs.now) ≤ most_ballots }
    ensures { IfOk result (λ numbers. numbers ≡ run_numbers 0 runs.now) }
{
    let mut numbers = RunNumbers::with_room(alloc, count_ballots(runs) as usize)?;
    for at in 0..runs.len() {
        numbers.push_run(at, runs.get(at).count)?;
    }
    Ok(numbers)
}

/// Of each run, how many ballots come before it.
pub fn count_starts(alloc: Global, runs: &Items<Run>) -> Result<Items<u16>, NoMemory>
    requires { length (ballot_styles runs.now) ≤ most_ballots }
    ensures { IfOk result (λ starts. starts ≡ counts_before (λ style. true) 0 runs.now) }
{
    let mut starts = Items::with_room(alloc, runs.len())?;
    let mut start = 0;
    for at in 0..runs.len() {
        starts.push(start as u16)?;
        start += runs.get(at).count;
    }
    Ok(starts)
}

/// Of each race and in it of each run, how many of the ballots before it have the race.
pub fn count_races(alloc: Global, plan: &Plan) -> Result<Items<u16>, NoMemory>
    requires { fault_of plan.now ≡ None }
    ensures { IfOk result (λ counts. counts ≡ counts_to plan.now (length plan.now.races)) }
{
    let mut counts = Items::with_room(alloc, plan.races.len() * plan.runs.len())?;
    for race in 0..plan.races.len() {
        push_counts(&mut counts, plan, race as u32)?;
    }
    Ok(counts)
}

/// The same of one race, behind the others.
fn push_counts(counts: &mut Items<u16>, plan: &Plan, race: u32) -> Result<(), NoMemory>
    requires { length (ballot_styles plan.now.runs) ≤ most_ballots }
    ensures { OnOk result (counts.new ≡ counts.old ++ counts_before (style_has plan.now race) 0 plan.now.runs) }
{
    let mut count = 0;
    for at in 0..plan.runs.len() {
        let run = plan.runs.get(at);
        let rows = rows_of_run(plan, race, run.style, run.count);
        counts.push(count as u16)?;
        count += rows;
    }
    Ok(())
}

/// Of each race, the ballots that have it.
pub fn list_ballots(alloc: Global, plan: &Plan) -> Result<Items<u16>, NoMemory>
    requires { fault_of plan.now ≡ None }
    ensures { IfOk result (λ ballots. ballots ≡ ballots_to plan.now (length plan.now.races)) }
{
    let mut ballots = Items::new(alloc);
    for race in 0..plan.races.len() {
        push_ballots(&mut ballots, plan, race as u32)?;
    }
    Ok(ballots)
}

/// The same of one race, behind the others.
fn push_ballots(ballots: &mut Items<u16>, plan: &Plan, race: u32) -> Result<(), NoMemory>
    requires { length (ballot_styles plan.now.runs) ≤ most_ballots }
    ensures { OnOk result (ballots.new ≡ ballots.old ++ ballots_with (style_has plan.now race) 1 (ballot_styles plan.now.runs)) }
{
    let mut first = 1;
    for at in 0..plan.runs.len() {
        let run = plan.runs.get(at);
        let rows = rows_of_run(plan, race, run.style, run.count);
        push_rising(ballots, first, rows)?;
        first += run.count;
    }
    Ok(())
}

/// So many numbers, from this one on.
fn push_rising(numbers: &mut Items<u16>, first: u32, count: u32) -> Result<(), NoMemory>
    requires { first + count ≤ 20001 }
    ensures { OnOk result (numbers.new ≡ numbers.old ++ range_with_len first count) }
{
    for at in 0..count {
        numbers.push((first + at) as u16)?;
    }
    Ok(())
}

/// Of each race, where its ballots begin in the list of the races' ballots.
pub fn list_firsts(alloc: Global, plan: &Plan) -> Result<Items<u32>, NoMemory>
    requires { fault_of plan.now ≡ None }
    ensures { IfOk result (λ firsts. firsts ≡ firsts_to plan.now (length plan.now.races)) }
{
    let mut firsts = Items::with_room(alloc, plan.races.len())?;
    let mut first = 0;
    for race in 0..plan.races.len() {
        firsts.push(first)?;
        first += plan.rows(race as u32);
    }
    Ok(firsts)
}
