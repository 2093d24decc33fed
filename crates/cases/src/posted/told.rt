//! The fates, the claims and the draw that a record tells of.
ghost use Rattle.std.specs.Prelude.{◌<◌, length};

use crate::fault::Fault;
use sg_plan::limits::{MOST_CANDIDATES, MOST_RACES};
use sg_plan::{Draw, Fate, Items, Mark, Stage, copy_paper};
use sg_post::{Claimed, Told};
use sg_record::{BallotBlock, BlockFate, CastLine, Record};
use sg_tables::Tables;
use std::alloc::Global;

/// One of the lines is of this column of the race.
fn has_column(lines: &[CastLine], race: u32, column: u32) -> bool {
    lines.iter().any(|line| match line {
        CastLine::Code(code) => code.race == race && code.column == column,
        CastLine::Over(_) => false,
    })
}

/// The race is over on the ballot with these lines.
fn is_over(lines: &[CastLine], race: u32) -> bool {
    lines.iter().any(|line| *line == CastLine::Over(race))
}

/// Adds the marks of a ballot in a race: beside those candidates whose columns are posted, and where the race is over
/// beside all.
fn add_marks(
    tables: &Tables,
    ballot: u32,
    race: u32,
    lines: &[CastLine],
    marks: &mut Items<Mark>,
) -> Result<(), Fault>
    requires { race < length tables.now.plan.races }
{
    let plan = tables.plan();
    if ballot == 0 || !plan.carries(ballot, race) {
        return Ok(());
    }
    let row = plan.row_of(race, ballot);
    let candidates = plan.candidates(race);
    if candidates == 0 || candidates > MOST_CANDIDATES {
        return Err(Fault::Case);
    }
    if row >= plan.rows(race) {
        return Err(Fault::Case);
    }
    let candidates = candidates as u32;
    for candidate in 0..candidates {
        let column = tables.q_entry(race, row, candidate) % candidates;
        if is_over(lines, race) || has_column(lines, race, column) {
            marks.push(Mark { race, candidate })?;
        }
    }
    Ok(())
}

/// Adds the marks of a ballot that is cast.
fn add_all_marks(
    tables: &Tables,
    ballot: u32,
    lines: &[CastLine],
    marks: &mut Items<Mark>,
) -> Result<(), Fault> {
    let races = tables.plan().races.len();
    if races > MOST_RACES {
        return Err(Fault::Case);
    }
    for race in 0..races as u32 {
        add_marks(tables, ballot, race, lines, marks)?;
    }
    Ok(())
}

/// The fate of a ballot that is cast.
fn cast_of(alloc: Global, tables: &Tables, ballot: u32, lines: &[CastLine]) -> Result<Fate, Fault> {
    let mut marks = Items::new(alloc);
    add_all_marks(tables, ballot, lines, &mut marks)?;
    Ok(Fate::Cast(marks))
}

/// The fate of the ballot of a block.
fn fate_of(alloc: Global, tables: &Tables, block: &BallotBlock) -> Result<Fate, Fault> {
    match &block.fate {
        BlockFate::Cast(lines) => cast_of(alloc, tables, block.ballot, lines.as_slice()),
        BlockFate::Spoiled => Ok(Fate::Spoiled),
        BlockFate::Audited(paper, _) => Ok(Fate::Audited(copy_paper(paper, alloc)?)),
        BlockFate::Voided => Ok(Fate::Voided),
    }
}

/// Puts the fates of all ballots with blocks.
pub(super) fn put_fates(
    alloc: Global,
    tables: &Tables,
    record: &Record,
    fates: &mut Items<Told>,
) -> Result<(), Fault> {
    for block in record.ballots.as_slice() {
        fates.push(Told {
            ballot: block.ballot,
            fate: fate_of(alloc, tables, block)?,
        })?;
    }
    Ok(())
}

/// Puts the claims of all disputes.
pub(super) fn put_claims(record: &Record, claims: &mut Items<Claimed>) -> Result<(), Fault> {
    for dispute in record.disputes.as_slice() {
        claims.push(Claimed {
            ballot: dispute.ballot,
            race: dispute.race,
            code: dispute.code,
            word: dispute.word,
        })?;
    }
    Ok(())
}

/// The last stage, with the record's draw.
pub(super) fn stage_of(alloc: Global, record: &Record) -> Result<Stage, Fault> {
    match &record.draw {
        Draw::Full => Ok(Stage::Drawn(Draw::Full)),
        Draw::Public(bytes) => Ok(Stage::Drawn(Draw::Public(bytes.copy(alloc)?))),
    }
}
