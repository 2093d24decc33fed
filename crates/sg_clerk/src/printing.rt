//! `sheet`: the printer's text, line by line.
ghost use Rattle.std.specs.Prelude.{◌≡◌, ◌+◌, ◌<◌, ◌≤◌, ◌∷◌, ◌++◌, None, Some, IfOk, OnOk, length, map, slice_get, true};
ghost use Rattle.sg_outside.specs.Streams.{PutAppends, seen};
ghost use Rattle.sg_plan.specs.Ballots.{ballot_has, ballot_row, ballots_of, candidates_of, races_of_ballot, rows_of, style_of_ballot};
ghost use Rattle.sg_plan.specs.Codes.{codes_of};
ghost use Rattle.sg_plan.specs.Limits.{fault_of};
ghost use Rattle.sg_lines.specs.Words.{code_word};
ghost use Rattle.sg_record.specs.Writing.{IsVersion};
ghost use Rattle.sg_tables.specs.Tables.{codes_of_row};
ghost use Rattle.sg_sheet.specs.Sheet.{ballot_lines, ballot_text, code_words, codes_line as codes_seen, line_text, lines_text};
ghost use Rattle.sg_clerk.specs.Sheet.{sheet_of, sheet_text};
ghost use Rattle.sg_sheet.specs.Sheet.SheetLine.{Codes};
ghost use Rattle.sg_clerk.specs.Opening.{OfficeEnds};
ghost use Rattle.sg_clerk.specs.Shown.{ShowSays};
ghost use Rattle.sg_clerk.specs.inside.Printing.{HasStopCause};

use crate::lines::put_decimal;
use crate::office::open_office;
use sg_keeper::Keeper;
use sg_lines::write_code;
use sg_office::Office;
use sg_outside::{Failed, Outcome, Sink};
use sg_plan::{BallotIndex, NoMemory, Word};
use sg_tables::Tables;
use std::alloc::Global;

/// Why a sheet was not written whole.
#[derive(Clone, Copy, Debug, PartialEq, Eq)]
pub enum Stop {
    /// A write failed. The output's count of faults rose.
    Failed,
    /// Memory was wanted and not found.
    NoMemory,
}

impl From<NoMemory> for Stop {
    ghost use Rattle.std.specs.Prelude.{◌≡◌};
    ghost use Rattle.sg_clerk.specs.declared.printing.Stop.TheVariants.{NoMemory};

    ghost from_gives = { λ _ e. e ≡ NoMemory };

    fn from(_: NoMemory) -> Stop {
        Stop::NoMemory
    }
}

impl From<Failed> for Stop {
    ghost use Rattle.std.specs.Prelude.{◌≡◌};
    ghost use Rattle.sg_clerk.specs.declared.printing.Stop.TheVariants.{Failed};

    ghost from_gives = { λ _ e. e ≡ Failed };

    fn from(_: Failed) -> Stop {
        Stop::Failed
    }
}

/// The line `ballot B STYLE`.
fn ballot_line(alloc: Global, ballot: u32, style: u32) -> Result<Word, NoMemory>
    ensures { IfOk result (λ line. line ≡ ballot_text ballot style) }
{
    let mut line = Word::new(alloc);
    line.extend(b"ballot ")?;
    put_decimal(&mut line, u64::from(ballot))?;
    line.push(b' ')?;
    put_decimal(&mut line, u64::from(style))?;
    line.push(b'\n')?;
    Ok(line)
}

/// Puts the word of a code behind a space.
fn put_code(line: &mut Word, version: u32, code: u16) -> Result<(), NoMemory>
    requires version { IsVersion version }
    requires code { code < codes_of version }
    ensures { OnOk result (line.new ≡ line.old ++ (32 ∷ code_word version code)) }
{
    let mut word = [0; 3];
    write_code(version, code, &mut word);
    line.push(b' ')?;
    line.extend(word.as_slice())
}

/// The version of the plan, which keeps its limits.
fn version_of(tables: &Tables) -> u32
    ensures value { result ≡ tables.now.plan.version }
    ensures known { IsVersion tables.now.plan.version }
    ensures limits { fault_of tables.now.plan ≡ None }
{
    tables.plan().version
}

/// How many candidates a race has.
fn count_candidates(tables: &Tables, race: u32) -> u32
    requires { race < length tables.now.plan.races }
    ensures { result ≡ candidates_of tables.now.plan race }
{
    sg_plan::laws::bounds_law();
    tables.plan().races.get(race as usize).candidates.len() as u32
}

/// Puts the codes of a ballot row, by candidate.
fn put_codes(line: &mut Word, tables: &Tables, race: u32, row: u32) -> Result<(), NoMemory>
    requires race { race < length tables.now.plan.races }
    requires row { row < rows_of tables.now.plan race }
    ensures { OnOk result (line.new ≡ line.old ++ code_words tables.now.plan.version (codes_of_row tables.now.plan tables.now.seed race row)) }
{
    let version = version_of(tables);
    let candidates = count_candidates(tables, race);
    for candidate in 0..candidates {
        put_code(line, version, tables.code(race, row, candidate))?;
    }
    Ok(())
}

/// The line `codes R CODE ..`.
fn codes_line(alloc: Global, tables: &Tables, race: u32, row: u32) -> Result<Word, NoMemory>
    requires race { race < length tables.now.plan.races }
    requires row { row < rows_of tables.now.plan race }
    ensures { IfOk result (λ line. line ≡ line_text tables.now.plan.version (Codes race (codes_of_row tables.now.plan tables.now.seed race row))) }
{
    let mut line = Word::new(alloc);
    line.extend(b"codes ")?;
    put_decimal(&mut line, u64::from(race))?;
    put_codes(&mut line, tables, race, row)?;
    line.push(b'\n')?;
    Ok(line)
}

/// Writes the codes of a ballot in a race.
fn write_codes<O: Sink>(
    alloc: Global,
    tables: &Tables,
    race: u32,
    row: u32,
    out: &mut O,
) -> Result<(), Stop>
    requires race { race < length tables.now.plan.races }
    requires row { row < rows_of tables.now.plan race }
    ensures bytes { PutAppends (O.written out.old) (O.written out.new) result (line_text tables.now.plan.version (Codes race (codes_of_row tables.now.plan tables.now.seed race row))) }
    ensures cause { HasStopCause (O.faults out.old) (O.faults out.new) result }
{
    let line = codes_line(alloc, tables, race, row)?;
    out.put(line.bytes())?;
    Ok(())
}

/// The ballot row of a ballot that has the race.
fn row_in(tables: &Tables, index: &BallotIndex, race: u32, ballot: u32) -> u32
    requires index { index.now ≡ tables.now.plan }
    requires has { ballot_has tables.now.plan ballot race ≡ true }
    ensures value { result ≡ ballot_row tables.now.plan race ballot }
    ensures bound { result < rows_of tables.now.plan race }
    ensures race { race < length tables.now.plan.races }
{
    let _ = version_of(tables);
    index.row(race, ballot)
}

/// Writes the codes of a ballot in a race that it has.
fn write_race<O: Sink>(
    alloc: Global,
    tables: &Tables,
    index: &BallotIndex,
    ballot: u32,
    race: u32,
    out: &mut O,
) -> Result<(), Stop>
    requires index { index.now ≡ tables.now.plan }
    requires has { ballot_has tables.now.plan ballot race ≡ true }
    ensures bytes { PutAppends (O.written out.old) (O.written out.new) result (line_text tables.now.plan.version (codes_seen tables.now.plan (codes_of_row tables.now.plan tables.now.seed) ballot race)) }
    ensures cause { HasStopCause (O.faults out.old) (O.faults out.new) result }
{
    let row = row_in(tables, index, race, ballot);
    write_codes(alloc, tables, race, row, out)
}

/// The race in a place of the list.
fn race_at(races: &[u32], at: usize) -> u32
    requires { at < length races.now }
    ensures { slice_get races.now at ≡ Some result }
{
    races[at]
}

/// Writes the codes of a ballot in each of its races.
fn write_races<O: Sink>(
    alloc: Global,
    tables: &Tables,
    index: &BallotIndex,
    ballot: u32,
    races: &[u32],
    out: &mut O,
) -> Result<(), Stop>
    requires index { index.now ≡ tables.now.plan }
    requires races { races.now ≡ races_of_ballot tables.now.plan ballot }
    ensures bytes { PutAppends (O.written out.old) (O.written out.new) result (lines_text tables.now.plan.version (map (codes_seen tables.now.plan (codes_of_row tables.now.plan tables.now.seed) ballot) races.now)) }
    ensures cause { HasStopCause (O.faults out.old) (O.faults out.new) result }
{
    for at in 0..races.len() {
        match write_race(alloc, tables, index, ballot, race_at(races, at), out) {
            Ok(()) => {}
            Err(stop) => return Err(stop),
        }
    }
    Ok(())
}

/// Writes a ballot with its style.
fn write_head<O: Sink>(alloc: Global, ballot: u32, style: u32, out: &mut O) -> Result<(), Stop>
    ensures bytes { PutAppends (O.written out.old) (O.written out.new) result (ballot_text ballot style) }
    ensures cause { HasStopCause (O.faults out.old) (O.faults out.new) result }
{
    let line = ballot_line(alloc, ballot, style)?;
    out.put(line.bytes())?;
    Ok(())
}

/// Writes the lines of a ballot of this style.
fn write_ballot<O: Sink>(
    alloc: Global,
    tables: &Tables,
    index: &BallotIndex,
    ballot: u32,
    style: u32,
    out: &mut O,
) -> Result<(), Stop>
    requires index { index.now ≡ tables.now.plan }
    requires first { 1 ≤ ballot }
    requires last { ballot ≤ ballots_of tables.now.plan }
    requires style { style_of_ballot tables.now.plan ballot ≡ Some style }
    ensures bytes { PutAppends (O.written out.old) (O.written out.new) result (lines_text tables.now.plan.version (ballot_lines tables.now.plan (codes_of_row tables.now.plan tables.now.seed) ballot style)) }
    ensures cause { HasStopCause (O.faults out.old) (O.faults out.new) result }
{
    match write_head(alloc, ballot, style, out) {
        Ok(()) => write_races(alloc, tables, index, ballot, index.races(ballot), out),
        Err(stop) => Err(stop),
    }
}

/// Writes the lines of all ballots.
fn write_ballots<O: Sink>(
    alloc: Global,
    tables: &Tables,
    index: &BallotIndex,
    out: &mut O,
) -> Result<(), Stop>
    requires index { index.now ≡ tables.now.plan }
    ensures bytes { PutAppends (O.written out.old) (O.written out.new) result (sheet_text tables.now.plan tables.now.seed) }
    ensures cause { HasStopCause (O.faults out.old) (O.faults out.new) result }
{
    for at in 0..index.ballots() {
        let ballot = at + 1;
        match write_ballot(alloc, tables, index, ballot, index.style(ballot), out) {
            Ok(()) => {}
            Err(stop) => return Err(stop),
        }
    }
    Ok(())
}

/// Writes the sheet of an office.
fn write_sheet<O: Sink>(alloc: Global, office: &Office, out: &mut O) -> Outcome
    ensures { OfficeEnds sheet_of result office.now (seen (O.written out.old) (O.faults out.old)) (seen (O.written out.new) (O.faults out.new)) }
{
    let tables = office.tables();
    let Ok(index) = BallotIndex::make(alloc, tables.plan()) else {
        return Outcome::NoMemory;
    };
    match write_ballots(alloc, tables, &index, out) {
        Ok(()) => Outcome::Done,
        Err(Stop::Failed) => Outcome::WriteFailed,
        Err(Stop::NoMemory) => Outcome::NoMemory,
    }
}

/// Writes the printer's text: for each ballot a line `ballot B STYLE`, and for each race of its style a line
/// `codes R CODE ..` with a code for each candidate. The keeper's rows stay as they are.
pub fn sheet<K: Keeper, O: Sink>(alloc: Global, keeper: &mut K, out: &mut O) -> Outcome
    ensures says { ShowSays sheet_of result (K.tells keeper.old) (K.rows keeper.old) (K.faults keeper.old) (K.faults keeper.new)
        (seen (O.written out.old) (O.faults out.old)) (seen (O.written out.new) (O.faults out.new)) }
    ensures told { K.tells keeper.old → K.tells keeper.new }
    ensures same { K.tells keeper.old → K.rows keeper.new ≡ K.rows keeper.old }
    ensures later { K.faults keeper.old ≤ K.faults keeper.new }
{
    match open_office(alloc, keeper, out) {
        Ok(office) => {
            let shown = write_sheet(alloc, &office, out);
            drop(office);
            shown
        }
        Err(how) => how,
    }
}
