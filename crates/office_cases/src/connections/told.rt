//! What is told of a run.
use super::script::add_marked;
use crate::fault::Fault;
use sg_clerk::Ending;
use sg_keeper::{Keeper, Rows};
use sg_links::Calls;
use std::alloc::Global;

/// Adds a line: a word, and bytes behind it.
fn add_line(text: &mut String, word: &str, bytes: &[u8]) -> Result<(), Fault> {
    text.push_str(word)?;
    text.push(' ')?;
    add_marked(text, bytes)?;
    text.push('\n')?;
    Ok(())
}

/// Adds the status that the run ended with, and what it wrote.
pub(super) fn add_ending(text: &mut String, ending: Ending, written: &[u8]) -> Result<(), Fault> {
    let status = ending.outcome().status();
    write!(text, "ended {status}\n")?;
    add_line(text, "wrote", written)
}

/// Adds what each connection that was accepted was sent.
pub(super) fn add_sent(text: &mut String, calls: &Calls) -> Result<(), Fault> {
    for at in 0..calls.accepted() {
        add_line(text, "sent", calls.sent(at))?;
    }
    Ok(())
}

/// Adds the rows of ballots.
fn add_ballots(text: &mut String, rows: &Rows) -> Result<(), Fault> {
    for row in rows.ballots.as_slice() {
        let (ballot, fate) = (row.ballot, row.fate);
        write!(text, "ballot {ballot} {fate}")?;
        add_line(text, "", row.detail.bytes())?;
    }
    Ok(())
}

/// Adds the rows of steps.
fn add_stages(text: &mut String, rows: &Rows) -> Result<(), Fault> {
    for row in rows.stages.as_slice() {
        let step = row.step;
        write!(text, "stage {step}")?;
        add_line(text, "", row.detail.bytes())?;
    }
    Ok(())
}

/// Adds the rows of claims.
fn add_claims(text: &mut String, rows: &Rows) -> Result<(), Fault> {
    for row in rows.claims.as_slice() {
        let (claim, ballot, race, code) = (row.claim, row.ballot, row.race, row.code);
        write!(text, "claim {claim} {ballot} {race} {code}\n")?;
    }
    Ok(())
}

/// Adds the rows of voided ballots.
fn add_voids(text: &mut String, rows: &Rows) -> Result<(), Fault> {
    for row in rows.voids.as_slice() {
        let ballot = row.ballot;
        write!(text, "voided {ballot}\n")?;
    }
    Ok(())
}

/// Adds the rows of acts.
fn add_dones(text: &mut String, rows: &Rows) -> Result<(), Fault> {
    for row in rows.dones.as_slice() {
        let (station, number) = (row.station, row.number);
        write!(text, "done {station} {number}")?;
        add_line(text, "", row.act.bytes())?;
    }
    Ok(())
}

/// Adds these rows.
fn add_tables(text: &mut String, rows: &Rows) -> Result<(), Fault> {
    add_ballots(text, rows)?;
    add_stages(text, rows)?;
    add_claims(text, rows)?;
    add_voids(text, rows)?;
    add_dones(text, rows)
}

/// Adds the rows that are kept.
pub(super) fn add_rows<K: Keeper>(
    alloc: Global,
    text: &mut String,
    keeper: &mut K,
) -> Result<(), Fault> {
    let rows = keeper.load(alloc)?;
    let added = add_tables(text, &rows);
    drop(rows);
    added
}
