//! Section 2 of what is posted: the blocks of ballots.
ghost use Rattle.std.specs.Prelude.{◌≡◌, ◌<◌, ◌≤◌, ◌==◌, ◌∷◌, ◌++◌, [], if◌then◌else◌, true, length};
ghost use Rattle.std.specs.List.{flat_map};
ghost use Rattle.sg_plan.specs.Ballots.{ballots_of, candidates_of, races_of_ballot, rows_of};
ghost use Rattle.sg_plan.specs.Codes.{codes_of};
ghost use Rattle.sg_plan.specs.Fates.{fate_fits, paper_fits};
ghost use Rattle.sg_forms.specs.Said.Said.{Spoiled, Voided};
ghost use Rattle.sg_record.specs.Pens.{Writes};
ghost use Rattle.sg_post.specs.Fits.{fates_fit};
ghost use Rattle.sg_post.specs.Posted.{code_in_row};
ghost use Rattle.sg_post.specs.inside.Lines.{audited_block, cast_block, fate_race, fate_races, marked_code, marked_row_codes, note_lines, row_code, row_codes, told_lines};

use crate::ballot_marks::is_audit;
use crate::counts::{count_races, has_race, row_in};
use crate::story::Told;
use sg_outside::{Failed, Sink};
use sg_plan::{BallotIndex, Fate, Items, Paper};
use sg_record::{CodeLine, Line, Pen, put_papers};
use sg_tables::Tables;

/// The code line of the entry in a column of a ballot row.
#[tactic(auto, unfolding(crate::specs::Posted::code_in_row))]
fn code_line(tables: &Tables, race: u32, row: u32, column: u32) -> CodeLine
    requires race { race < length tables.now.plan.races }
    requires row { row < rows_of tables.now.plan race }
    requires column { column < candidates_of tables.now.plan race }
    ensures value { result ≡ code_in_row tables.now.plan tables.now.seed race row column }
    ensures bound { result.code < codes_of tables.now.plan.version }
{
    let entry = tables.row_entry(race, row, column);
    let key = tables.q_opening(race, entry).key;
    let code = tables.entry_code(race, entry);
    CodeLine {
        race,
        column,
        key,
        code,
    }
}

/// Writes the code of a column of a ballot row.
fn put_code<O: Sink>(
    pen: &mut Pen,
    tables: &Tables,
    race: u32,
    row: u32,
    column: u32,
    out: &mut O,
) -> Result<(), Failed>
    requires version { pen.old.version ≡ tables.now.plan.version }
    requires race { race < length tables.now.plan.races }
    requires row { row < rows_of tables.now.plan race }
    requires column { column < candidates_of tables.now.plan race }
    ensures { Writes O.written O.faults pen.old out.old pen.new out.new result (row_code tables.now.plan tables.now.seed race row column) }
{
    pen.put_line(&Line::Code(code_line(tables, race, row, column)), out)
}

/// Writes all codes of a ballot row.
pub fn put_row_codes<O: Sink>(
    pen: &mut Pen,
    tables: &Tables,
    race: u32,
    row: u32,
    out: &mut O,
) -> Result<(), Failed>
    requires version { pen.old.version ≡ tables.now.plan.version }
    requires race { race < length tables.now.plan.races }
    requires row { row < rows_of tables.now.plan race }
    ensures { Writes O.written O.faults pen.old out.old pen.new out.new result (row_codes tables.now.plan tables.now.seed race row) }
{
    let candidates = tables.plan().candidates(race) as u32;
    for column in 0..candidates {
        put_code(pen, tables, race, row, column, out)?;
    }
    Ok(())
}

/// Writes the code of a column, where a ballot with this fate marks it.
fn put_marked_code<O: Sink>(
    pen: &mut Pen,
    tables: &Tables,
    race: u32,
    row: u32,
    fate: &Fate,
    column: u32,
    out: &mut O,
) -> Result<(), Failed>
    requires version { pen.old.version ≡ tables.now.plan.version }
    requires race { race < length tables.now.plan.races }
    requires row { row < rows_of tables.now.plan race }
    requires column { column < candidates_of tables.now.plan race }
    ensures { Writes O.written O.faults pen.old out.old pen.new out.new result (marked_code tables.now.plan tables.now.seed race row fate.now column) }
{
    if !tables.column_marked(race, row, fate, column) {
        return Ok(());
    }
    put_code(pen, tables, race, row, column, out)
}

/// Writes the codes that a ballot with this fate marks in its row.
fn put_marked_codes<O: Sink>(
    pen: &mut Pen,
    tables: &Tables,
    race: u32,
    row: u32,
    fate: &Fate,
    out: &mut O,
) -> Result<(), Failed>
    requires version { pen.old.version ≡ tables.now.plan.version }
    requires race { race < length tables.now.plan.races }
    requires row { row < rows_of tables.now.plan race }
    ensures { Writes O.written O.faults pen.old out.old pen.new out.new result (marked_row_codes tables.now.plan tables.now.seed race row fate.now) }
{
    let candidates = tables.plan().candidates(race) as u32;
    for column in 0..candidates {
        put_marked_code(pen, tables, race, row, fate, column, out)?;
    }
    Ok(())
}

/// Writes what is noted of a race on a ballot with this fate.
fn put_notes<O: Sink>(
    pen: &mut Pen,
    tables: &Tables,
    told: &Told,
    race: u32,
    out: &mut O,
) -> Result<(), Failed>
    requires { race < length tables.now.plan.races }
    ensures { Writes O.written O.faults pen.old out.old pen.new out.new result (note_lines tables.now.plan told.now.ballot told.now.fate race) }
{
    if !tables.is_void(&told.fate, race) {
        return Ok(());
    }
    pen.put_line(&Line::Over(race), out)
}

/// Writes what a ballot posts in a race, where it has it: all codes where it was audited, else those that it marks, and
/// what is noted.
fn put_race<O: Sink>(
    pen: &mut Pen,
    tables: &Tables,
    index: &BallotIndex,
    told: &Told,
    race: u32,
    out: &mut O,
) -> Result<(), Failed>
    requires version { pen.old.version ≡ tables.now.plan.version }
    requires index { index.now ≡ tables.now.plan }
    requires race { race < length tables.now.plan.races }
    requires fits { fate_fits tables.now.plan told.now.ballot told.now.fate ≡ true }
    ensures { Writes O.written O.faults pen.old out.old pen.new out.new result (fate_race tables.now.plan tables.now.seed told.now.ballot told.now.fate race) }
{
    if !has_race(tables, index, told.ballot, race) {
        return Ok(());
    }
    let row = row_in(tables, index, race, told.ballot);
    if is_audit(&told.fate) {
        return put_row_codes(pen, tables, race, row, out);
    }
    put_marked_codes(pen, tables, race, row, &told.fate, out)?;
    put_notes(pen, tables, told, race, out)
}

/// Writes what a ballot posts in all races.
fn put_races<O: Sink>(
    pen: &mut Pen,
    tables: &Tables,
    index: &BallotIndex,
    told: &Told,
    out: &mut O,
) -> Result<(), Failed>
    requires version { pen.old.version ≡ tables.now.plan.version }
    requires index { index.now ≡ tables.now.plan }
    requires fits { fate_fits tables.now.plan told.now.ballot told.now.fate ≡ true }
    ensures { Writes O.written O.faults pen.old out.old pen.new out.new result (fate_races tables.now.plan tables.now.seed told.now.ballot told.now.fate) }
{
    for race in 0..count_races(tables) {
        put_race(pen, tables, index, told, race, out)?;
    }
    Ok(())
}

/// Writes the block of a cast ballot.
fn put_cast<O: Sink>(
    pen: &mut Pen,
    tables: &Tables,
    index: &BallotIndex,
    told: &Told,
    out: &mut O,
) -> Result<(), Failed>
    requires version { pen.old.version ≡ tables.now.plan.version }
    requires index { index.now ≡ tables.now.plan }
    requires fits { fate_fits tables.now.plan told.now.ballot told.now.fate ≡ true }
    ensures { Writes O.written O.faults pen.old out.old pen.new out.new result (cast_block tables.now.plan tables.now.seed told.now.ballot told.now.fate) }
{
    pen.put_line(&Line::Cast(told.ballot), out)?;
    put_races(pen, tables, index, told, out)
}

/// Writes the block of an audited ballot: the paper as it was read, and the ballot's codes.
fn put_audited<O: Sink>(
    pen: &mut Pen,
    tables: &Tables,
    index: &BallotIndex,
    told: &Told,
    paper: &Paper,
    out: &mut O,
) -> Result<(), Failed>
    requires version { pen.old.version ≡ tables.now.plan.version }
    requires index { index.now ≡ tables.now.plan }
    requires first { 1 ≤ told.now.ballot }
    requires last { told.now.ballot ≤ ballots_of tables.now.plan }
    requires fits { fate_fits tables.now.plan told.now.ballot told.now.fate ≡ true }
    requires paper { paper_fits tables.now.plan (races_of_ballot tables.now.plan told.now.ballot) paper.now ≡ true }
    ensures { Writes O.written O.faults pen.old out.old pen.new out.new result (audited_block tables.now.plan tables.now.seed told.now.ballot told.now.fate paper.now) }
{
    let _ = count_races(tables);
    pen.put_line(&Line::Audited(told.ballot), out)?;
    put_papers(pen, index.races(told.ballot), paper, out)?;
    put_races(pen, tables, index, told, out)
}

/// Writes the block of a voided ballot: in version 1 that of a spoiled one.
fn put_voided<O: Sink>(pen: &mut Pen, version: u32, ballot: u32, out: &mut O) -> Result<(), Failed>
    ensures { Writes O.written O.faults pen.old out.old pen.new out.new result (if version == 2 then Voided ballot ∷ [] else Spoiled ballot ∷ []) }
{
    if version == 2 {
        return pen.put_line(&Line::Voided(ballot), out);
    }
    pen.put_line(&Line::Spoiled(ballot), out)
}

/// Writes the block of a ballot: none, where it is unused.
fn put_told<O: Sink>(
    pen: &mut Pen,
    tables: &Tables,
    index: &BallotIndex,
    told: &Told,
    out: &mut O,
) -> Result<(), Failed>
    requires version { pen.old.version ≡ tables.now.plan.version }
    requires index { index.now ≡ tables.now.plan }
    requires first { 1 ≤ told.now.ballot }
    requires last { told.now.ballot ≤ ballots_of tables.now.plan }
    requires fits { fate_fits tables.now.plan told.now.ballot told.now.fate ≡ true }
    ensures { Writes O.written O.faults pen.old out.old pen.new out.new result (told_lines tables.now.plan tables.now.seed told.now) }
{
    match &told.fate {
        Fate::Unused => Ok(()),
        Fate::Cast(_) => put_cast(pen, tables, index, told, out),
        Fate::Spoiled => pen.put_line(&Line::Spoiled(told.ballot), out),
        Fate::Audited(paper) => put_audited(pen, tables, index, told, paper, out),
        Fate::Voided => put_voided(pen, tables.plan().version, told.ballot, out),
    }
}

/// Writes the blocks of all ballots.
pub fn put_ballots<O: Sink>(
    pen: &mut Pen,
    tables: &Tables,
    index: &BallotIndex,
    fates: &Items<Told>,
    out: &mut O,
) -> Result<(), Failed>
    requires version { pen.old.version ≡ tables.now.plan.version }
    requires index { index.now ≡ tables.now.plan }
    requires fits { fates_fit tables.now.plan 0 fates.now ≡ true }
    ensures { Writes O.written O.faults pen.old out.old pen.new out.new result (flat_map (told_lines tables.now.plan tables.now.seed) fates.now) }
{
    for at in 0..fates.len() {
        put_told(pen, tables, index, fates.get(at), out)?;
    }
    Ok(())
}
