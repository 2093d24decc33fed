//! How the lists of an index of ballots are read, each in constant time.
ghost use Rattle.std.specs.Prelude.{◌≡◌, ◌+◌, ◌-◌, ◌<◌, ◌≤◌, None, Some, true, length, take, slice_get, count_by};
ghost use Rattle.sg_plan.specs.Ballots.{ballot_has, ballot_row, ballot_styles, ballots_of, rows_of, style_has};
ghost use Rattle.sg_plan.specs.Limits.{fault_of};
ghost use Rattle.sg_plan.specs.inside.Index.{ballots_to, counts_before, counts_to, firsts_to};
ghost use Rattle.sg_plan.specs.Runs.{IsInRun, run_numbers};

use crate::items::Items;
use crate::plan::{Plan, Run};
use crate::run_numbers::RunNumbers;

/// How many ballots come before the run.
fn start_of(starts: &Items<u16>, runs: &Items<Run>, number: usize) -> u32
    requires starts { starts.now ≡ counts_before (λ style. true) 0 runs.now }
    requires number { number < length runs.now }
    ensures { result ≡ length (ballot_styles (take number runs.now)) }
{
    u32::from(*starts.get(number))
}

/// How many of the ballots before the run have the race.
fn count_of(counts: &Items<u16>, plan: &Plan, race: u32, number: usize) -> u32
    requires good { fault_of plan.now ≡ None }
    requires counts { counts.now ≡ counts_to plan.now (length plan.now.races) }
    requires race { race < length plan.now.races }
    requires number { number < length plan.now.runs }
    ensures { result ≡ count_by (style_has plan.now race) (ballot_styles (take number plan.now.runs)) }
{
    let at = race as usize * plan.runs.len() + number;
    u32::from(*counts.get(at))
}

/// The ballot row of a ballot in a race.
pub fn row_of(
    numbers: &RunNumbers,
    starts: &Items<u16>,
    counts: &Items<u16>,
    plan: &Plan,
    race: u32,
    ballot: u32,
) -> u32
    requires good { fault_of plan.now ≡ None }
    requires numbers { numbers.now ≡ run_numbers 0 plan.now.runs }
    requires starts { starts.now ≡ counts_before (λ style. true) 0 plan.now.runs }
    requires counts { counts.now ≡ counts_to plan.now (length plan.now.races) }
    requires race { race < length plan.now.races }
    requires first { 1 ≤ ballot }
    requires last { ballot ≤ ballots_of plan.now }
    ensures { result ≡ ballot_row plan.now race ballot }
{
    let number = numbers.number_of(&plan.runs, ballot);
    let run = plan.runs.get(number);
    let before = count_of(counts, plan, race, number);
    let start = start_of(starts, &plan.runs, number);
    if plan.style_carries(run.style, race) {
        before + (ballot - 1 - start)
    } else {
        before
    }
}

/// Where the ballots of a race begin.
fn first_of(firsts: &Items<u32>, plan: &Plan, race: u32) -> usize
    requires firsts { firsts.now ≡ firsts_to plan.now (length plan.now.races) }
    requires race { race < length plan.now.races }
    ensures { result ≡ length (ballots_to plan.now race) }
{
    *firsts.get(race as usize) as usize
}

/// The ballot in a ballot row of a race.
pub fn ballot_in(firsts: &Items<u32>, ballots: &Items<u16>, plan: &Plan, race: u32, row: u32) -> u32
    requires good { fault_of plan.now ≡ None }
    requires firsts { firsts.now ≡ firsts_to plan.now (length plan.now.races) }
    requires ballots { ballots.now ≡ ballots_to plan.now (length plan.now.races) }
    requires race { race < length plan.now.races }
    requires row { row < rows_of plan.now race }
    ensures has { ballot_has plan.now result race ≡ true }
    ensures row { ballot_row plan.now race result ≡ row }
    ensures first { 1 ≤ result }
    ensures last { result ≤ ballots_of plan.now }
{
    let first = first_of(firsts, plan, race);
    let at = first + row as usize;
    u32::from(*ballots.get(at))
}
