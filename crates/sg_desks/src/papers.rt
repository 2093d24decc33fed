//! Whether a paper is the one printed for a ballot.
ghost use Rattle.std.specs.Prelude.{◌≡◌, ◌<◌, ◌≤◌, ◌↔◌, All, IsTrue, length, true};
ghost use Rattle.sg_plan.specs.Limits.{most_candidates};
ghost use Rattle.sg_plan.specs.Ballots.{ballot_has, ballot_row, candidates_of, rows_of};
ghost use Rattle.sg_tables.specs.Tables.{codes_of_row, paper_of};
ghost use Rattle.sg_desks.specs.Papers.{same_paper};
ghost use Rattle.sg_desks.specs.inside.Races.{lists_of};

use crate::races::{races_in, row_in};
use sg_plan::{BallotIndex, Items, Paper, Plan};
use sg_tables::Tables;

/// The paper is that of the ballot: for each of its races the codes printed there, by candidate. The paper of a ballot
/// that the plan does not have has no lists.
pub fn paper_matches(tables: &Tables, index: &BallotIndex, ballot: u32, paper: &Paper) -> bool
    requires { index.now ≡ tables.now.plan }
    ensures same { result ≡ same_paper paper.now (paper_of tables.now.plan tables.now.seed ballot) }
    ensures exact { IsTrue result ↔ (paper.now ≡ paper_of tables.now.plan tables.now.seed ballot) }
{
    lists_match(tables, index, ballot, races_in(index, ballot), paper)
}

/// The lists are those of the ballot in these races.
fn lists_match(
    tables: &Tables,
    index: &BallotIndex,
    ballot: u32,
    races: &[u32],
    paper: &Paper,
) -> bool
    requires index { index.now ≡ tables.now.plan }
    requires has { All (λ race. ballot_has tables.now.plan ballot race ≡ true) races.now }
    ensures { IsTrue result ↔ (paper.now ≡ lists_of tables.now.plan tables.now.seed ballot races.now) }
{
    if paper.len() != races.len() {
        return false;
    }
    for at in 0..races.len() {
        let race = races[at];
        let row = row_in(tables, index, ballot, race);
        if !list_matches(tables, race, row, paper.get(at)) {
            return false;
        }
    }
    true
}

/// How many candidates a race has.
fn candidates_in(plan: &Plan, race: u32) -> u32
    requires race { race < length plan.now.races }
    requires few { candidates_of plan.now race ≤ most_candidates }
    ensures { result ≡ candidates_of plan.now race }
{
    plan.races.get(race as usize).candidates.len() as u32
}

/// The list has the codes of the ballot row.
fn list_matches(tables: &Tables, race: u32, row: u32, list: &Items<u16>) -> bool
    requires race { race < length tables.now.plan.races }
    requires row { row < rows_of tables.now.plan race }
    ensures { IsTrue result ↔ (list.now ≡ codes_of_row tables.now.plan tables.now.seed race row) }
{
    sg_plan::laws::bounds_law();
    sg_tables::laws::codes_law();
    let candidates = candidates_in(tables.plan(), race);
    if list.len() != candidates as usize {
        return false;
    }
    for candidate in 0..candidates {
        if *list.get(candidate as usize) != tables.code(race, row, candidate) {
            return false;
        }
    }
    true
}
