//! Counts over the runs of a plan, in the time of the runs and of the races of their styles.
ghost use Rattle.std.specs.Prelude.{◌≡◌, ◌+◌, ◌*◌, ◌<◌, ◌≤◌, ◌^◌, if◌then◌else◌, ℕ, true, false, length, take, slice_get, count_by};
ghost use Rattle.std.specs.Option.{option_map_or};
ghost use Rattle.sg_plan.specs.Limits.{most_ballots};
ghost use Rattle.sg_plan.specs.Ballots.{all_entries, ballot_styles, candidates_of, entries_before, entries_of, rows_of, style_has};

use crate::items::Items;
use crate::plan::{Plan, Run};

/// How many ballots the runs give.
pub fn count_ballots(runs: &Items<Run>) -> u32
    requires { length (ballot_styles runs.now) < 2 ^ 32 }
    ensures { result ≡ length (ballot_styles runs.now) }
{
    let mut ballots = 0;
    for at in 0..runs.len() {
        ballots += runs.get(at).count;
    }
    ballots
}

/// The style of the ballot at this place, counted from 0.
pub fn style_at(runs: &Items<Run>, place: u32) -> Option<u32>
    ensures { result ≡ slice_get (ballot_styles runs.now) place }
{
    let mut left = place;
    for at in 0..runs.len() {
        let run = runs.get(at);
        if left < run.count {
            return Some(run.style);
        }
        left -= run.count;
    }
    None
}

/// How many of the first ballots, so many of them, have the race.
pub fn count_rows_before(plan: &Plan, race: u32, ballots: u32) -> u32
    ensures { result ≡ count_by (style_has plan.now race) (take ballots (ballot_styles plan.now.runs)) }
{
    let mut rows = 0;
    let mut left = ballots;
    for at in 0..plan.runs.len() {
        let run = plan.runs.get(at);
        let count = run.count.min(left);
        rows += rows_of_run(plan, race, run.style, count);
        left -= count;
    }
    rows
}

/// How many of so many ballots of a style have the race: all or none.
pub fn rows_of_run(plan: &Plan, race: u32, style: u32, count: u32) -> u32
    ensures { result ≡ (if style_has plan.now race style then count else 0) }
{
    if plan.style_carries(style, race) {
        count
    } else {
        0
    }
}

/// How many ballots have the race.
pub fn count_rows(plan: &Plan, race: u32) -> u32
    requires { length (ballot_styles plan.now.runs) < 2 ^ 32 }
    ensures { result ≡ rows_of plan.now race }
{
    count_rows_before(plan, race, count_ballots(&plan.runs))
}

/// The place, counted from 0, of the ballot that has the race and this ballot row in it.
pub fn place_of_row(plan: &Plan, race: u32, row: u32) -> u32
    requires few { length (ballot_styles plan.now.runs) < 2 ^ 32 }
    requires row { row < rows_of plan.now race }
    ensures within { result < length (ballot_styles plan.now.runs) }
    ensures has { option_map_or (style_has plan.now race) (slice_get (ballot_styles plan.now.runs) result) false ≡ true }
    ensures row { count_by (style_has plan.now race) (take result (ballot_styles plan.now.runs)) ≡ row }
{
    let mut passed = 0;
    let mut left = row;
    for at in 0..plan.runs.len() {
        let run = plan.runs.get(at);
        let rows = rows_of_run(plan, race, run.style, run.count);
        if left < rows {
            return passed + left;
        }
        left -= rows;
        passed += run.count;
    }
    unreachable!()
}

/// How many entries the race has.
pub fn count_entries(plan: &Plan, race: u32) -> u32
    requires race { race < length plan.now.races }
    requires few_ballots { length (ballot_styles plan.now.runs) ≤ most_ballots }
    requires few_candidates { candidates_of plan.now race ≤ 16 }
    ensures { result ≡ entries_of plan.now race }
{
    count_rows(plan, race) * plan.candidates(race) as u32
}

/// How many entries all races have.
pub fn count_all_entries(plan: &Plan) -> u64
    requires few_races { length plan.now.races ≤ 32 }
    requires few_ballots { length (ballot_styles plan.now.runs) ≤ most_ballots }
    requires few_candidates { (race : ℕ) → candidates_of plan.now race ≤ 16 }
    ensures { result ≡ all_entries plan.now }
{
    let mut entries = 0;
    for race in 0..plan.races.len() {
        entries += u64::from(count_entries(plan, race as u32));
    }
    entries
}
