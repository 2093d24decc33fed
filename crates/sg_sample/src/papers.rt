//! The papers that the office's printer prints.
ghost use Rattle.std.specs.Prelude.{◌≡◌, ◌<◌, ◌≤◌, IfOk, length, None, true};
ghost use Rattle.sg_plan.specs.Ballots.{ballot_has, ballot_row, ballots_of, candidates_of, rows_of};
ghost use Rattle.sg_plan.specs.Limits.{fault_of};
ghost use Rattle.sg_tables.specs.Tables.{codes_of_row, paper_of};

use sg_desks::know_race;
use sg_plan::{BallotIndex, Items, NoMemory, Paper};
use sg_tables::Tables;
use std::alloc::Global;

/// The paper of a ballot: for each of its races the codes printed there, by candidate.
pub(crate) fn paper(
    alloc: Global,
    tables: &Tables,
    index: &BallotIndex,
    ballot: u32,
) -> Result<Paper, NoMemory>
    requires index { index.now ≡ tables.now.plan }
    requires first { 1 ≤ ballot }
    requires last { ballot ≤ ballots_of tables.now.plan }
    ensures { IfOk result (λ paper. paper ≡ paper_of tables.now.plan tables.now.seed ballot) }
{
    let races = index.races(ballot);
    let mut paper = Items::with_room(alloc, races.len())?;
    for at in 0..races.len() {
        paper.push(list(alloc, tables, index, ballot, races[at])?)?;
    }
    Ok(paper)
}

/// The codes of a ballot in a race that it has, by candidate.
fn list(
    alloc: Global,
    tables: &Tables,
    index: &BallotIndex,
    ballot: u32,
    race: u32,
) -> Result<Items<u16>, NoMemory>
    requires index { index.now ≡ tables.now.plan }
    requires has { ballot_has tables.now.plan ballot race ≡ true }
    ensures { IfOk result (λ list. list ≡ codes_of_row tables.now.plan tables.now.seed race (ballot_row tables.now.plan race ballot)) }
{
    know_race(index, ballot, race);
    let row = index.row(race, ballot);
    row_list(alloc, tables, race, row)
}

/// The codes of a ballot row, by candidate.
fn row_list(alloc: Global, tables: &Tables, race: u32, row: u32) -> Result<Items<u16>, NoMemory>
    requires race { race < length tables.now.plan.races }
    requires row { row < rows_of tables.now.plan race }
    ensures { IfOk result (λ list. list ≡ codes_of_row tables.now.plan tables.now.seed race row) }
{
    sg_plan::laws::bounds_law();
    sg_tables::laws::codes_law();
    let candidates = tables.plan().candidates(race);
    let mut list = Items::with_room(alloc, candidates)?;
    for candidate in 0..candidates as u32 {
        list.push(tables.code(race, row, candidate))?;
    }
    Ok(list)
}
