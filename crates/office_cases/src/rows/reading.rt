//! Rows as lines of words: the name of a table, numbers in decimal, and at the end of some a text.
use crate::cutting::{cut_at, number_of};
use crate::fault::Fault;
use sg_keeper::{BallotRow, ClaimRow, DoneRow, Rows, StageRow, VoidRow};
use sg_lines::hex_bytes;
use sg_plan::Word;
use std::alloc::Global;

/// How a text stands at the end of a line.
#[derive(Clone, Copy, Debug)]
pub(crate) enum Spelling {
    /// As it is.
    Plain,
    /// In hexadecimal digits.
    Digits,
}

/// The number that a word spells.
fn whole(word: &[u8]) -> Result<i64, Fault> {
    number_of(word).ok_or(Fault::Input)
}

/// The first word, and what stands behind it.
fn cut(words: &[u8]) -> Result<(&[u8], &[u8]), Fault> {
    cut_at(words, b' ').ok_or(Fault::Input)
}

/// The same bytes.
fn word_of(alloc: Global, bytes: &[u8]) -> Result<Word, Fault> {
    let mut word = Word::new(alloc);
    word.extend(bytes)?;
    Ok(word)
}

/// The text of these hexadecimal digits.
fn text_of_digits(alloc: Global, digits: &[u8]) -> Result<Word, Fault> {
    match hex_bytes(alloc, digits)? {
        Some(text) => Ok(text),
        None => Err(Fault::Input),
    }
}

/// The text at the end of a line.
fn text_of(alloc: Global, bytes: &[u8], spelling: Spelling) -> Result<Word, Fault> {
    match spelling {
        Spelling::Plain => word_of(alloc, bytes),
        Spelling::Digits => text_of_digits(alloc, bytes),
    }
}

/// Puts the setup's text.
fn put_setup(
    alloc: Global,
    rows: &mut Rows,
    words: &[u8],
    spelling: Spelling,
) -> Result<(), Fault> {
    let text = text_of(alloc, words, spelling)?;
    drop(rows.setup.replace(text));
    Ok(())
}

/// Adds a ballot's number, its fate and the detail.
fn add_ballot(
    alloc: Global,
    rows: &mut Rows,
    words: &[u8],
    spelling: Spelling,
) -> Result<(), Fault> {
    let (ballot, words) = cut(words)?;
    let (fate, detail) = cut(words)?;
    rows.ballots.push(BallotRow {
        ballot: whole(ballot)?,
        fate: whole(fate)?,
        detail: text_of(alloc, detail, spelling)?,
    })?;
    Ok(())
}

/// Adds a step and the detail.
fn add_stage(
    alloc: Global,
    rows: &mut Rows,
    words: &[u8],
    spelling: Spelling,
) -> Result<(), Fault> {
    let (step, detail) = cut(words)?;
    rows.stages.push(StageRow {
        step: whole(step)?,
        detail: text_of(alloc, detail, spelling)?,
    })?;
    Ok(())
}

/// Adds a claim's number, its ballot, race and code.
fn add_claim(rows: &mut Rows, words: &[u8]) -> Result<(), Fault> {
    let (claim, words) = cut(words)?;
    let (ballot, words) = cut(words)?;
    let (race, code) = cut(words)?;
    rows.claims.push(ClaimRow {
        claim: whole(claim)?,
        ballot: whole(ballot)?,
        race: whole(race)?,
        code: whole(code)?,
    })?;
    Ok(())
}

/// Adds a ballot that is voided.
fn add_void(rows: &mut Rows, words: &[u8]) -> Result<(), Fault> {
    rows.voids.push(VoidRow {
        ballot: whole(words)?,
    })?;
    Ok(())
}

/// Adds a station, its number and the act.
fn add_done(alloc: Global, rows: &mut Rows, words: &[u8], spelling: Spelling) -> Result<(), Fault> {
    let (station, words) = cut(words)?;
    let (number, act) = cut(words)?;
    rows.dones.push(DoneRow {
        station: whole(station)?,
        number: whole(number)?,
        act: text_of(alloc, act, spelling)?,
    })?;
    Ok(())
}

/// Adds the row of a line, whose first word names its table.
pub(crate) fn add_row(
    alloc: Global,
    rows: &mut Rows,
    line: &[u8],
    spelling: Spelling,
) -> Result<(), Fault> {
    let (table, words) = cut(line)?;
    match table {
        b"setup" => put_setup(alloc, rows, words, spelling),
        b"ballot" => add_ballot(alloc, rows, words, spelling),
        b"stage" => add_stage(alloc, rows, words, spelling),
        b"claim" => add_claim(rows, words),
        b"void" => add_void(rows, words),
        b"voided" => add_void(rows, words),
        b"done" => add_done(alloc, rows, words, spelling),
        _ => Err(Fault::Input),
    }
}
