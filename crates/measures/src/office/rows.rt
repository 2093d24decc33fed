//! The rows of an office whose ballots are all cast.
use super::setup::setup_text;
use crate::stop::Stop;
use sg_keeper::{BallotRow, ClaimRow, DoneRow, Rows, StageRow};
use sg_plan::{Items, Word};
use std::alloc::Global;

/// The word of a text.
fn word_of(alloc: Global, text: &str) -> Result<Word, Stop> {
    let mut word = Word::new(alloc);
    word.extend(text.as_bytes())?;
    Ok(word)
}

/// The code that a claim of a ballot names.
fn code_of(ballot: u32) -> u32 {
    ballot % 1000
}

/// That a station did an act under a number.
fn done(alloc: Global, station: i64, number: i64, text: &str) -> Result<DoneRow, Stop> {
    let act = word_of(alloc, text)?;
    Ok(DoneRow {
        station,
        number,
        act,
    })
}

/// The row of a ballot that is cast.
fn ballot_row(alloc: Global, ballot: u32) -> Result<BallotRow, Stop> {
    let candidate = ballot % 2;
    let text = format!(in alloc; "0:{candidate}")?;
    let detail = word_of(alloc, text.as_str())?;
    Ok(BallotRow {
        ballot: i64::from(ballot),
        fate: 1,
        detail,
    })
}

/// That the first station scanned the ballot.
fn scan_done(alloc: Global, ballot: u32) -> Result<DoneRow, Stop> {
    let candidate = ballot % 2;
    let text = format!(in alloc; "scan {ballot} 0:{candidate}")?;
    done(alloc, 0, i64::from(ballot), text.as_str())
}

/// That the second station claimed the ballot's code.
fn claim_done(alloc: Global, ballot: u32) -> Result<DoneRow, Stop> {
    let code = code_of(ballot);
    let text = format!(in alloc; "claim {ballot} 0 {code:03}")?;
    done(alloc, 1, i64::from(ballot) + 2, text.as_str())
}

/// Puts the row of a ballot that is cast, and that of its scan.
fn put_ballot(alloc: Global, rows: &mut Rows, ballot: u32) -> Result<(), Stop> {
    rows.ballots.push(ballot_row(alloc, ballot)?)?;
    rows.dones.push(scan_done(alloc, ballot)?)?;
    Ok(())
}

/// Puts the rows of so many ballots that are cast.
fn put_ballots(alloc: Global, rows: &mut Rows, ballots: u32) -> Result<(), Stop> {
    for ballot in 0..ballots {
        put_ballot(alloc, rows, ballot + 1)?;
    }
    Ok(())
}

/// Puts the row of a step, with its act: the second station's of this number.
fn put_stage(
    alloc: Global,
    rows: &mut Rows,
    step: i64,
    detail: &str,
    act: &str,
) -> Result<(), Stop> {
    let detail = word_of(alloc, detail)?;
    rows.stages.push(StageRow { step, detail })?;
    rows.dones.push(done(alloc, 1, step, act)?)?;
    Ok(())
}

/// Puts the row of the claim of this number, which is of the ballot of that number, and that of its act.
fn put_claim(alloc: Global, rows: &mut Rows, number: u32) -> Result<(), Stop> {
    rows.claims.push(ClaimRow {
        claim: i64::from(number),
        ballot: i64::from(number),
        race: 0,
        code: i64::from(code_of(number)),
    })?;
    rows.dones.push(claim_done(alloc, number)?)?;
    Ok(())
}

/// Puts the rows of so many claims: one of each of the first ballots.
fn put_claims(alloc: Global, rows: &mut Rows, claims: u32) -> Result<(), Stop> {
    for claim in 0..claims {
        put_claim(alloc, rows, claim + 1)?;
    }
    Ok(())
}

/// Puts the text of the setup for so many ballots.
fn put_setup(alloc: Global, rows: &mut Rows, ballots: u32) -> Result<(), Stop> {
    let text = setup_text(alloc, ballots)?;
    let word = word_of(alloc, text.as_str())?;
    drop(rows.setup.replace(word));
    Ok(())
}

/// No rows.
pub(super) fn no_rows(alloc: Global) -> Rows {
    Rows {
        setup: None,
        ballots: Items::new(alloc),
        stages: Items::new(alloc),
        claims: Items::new(alloc),
        voids: Items::new(alloc),
        dones: Items::new(alloc),
    }
}

/// Puts the rows of an office of so many ballots, each of them cast, behind a full draw, and with so many claims.
pub(super) fn put_rows(
    alloc: Global,
    rows: &mut Rows,
    ballots: u32,
    claims: u32,
) -> Result<(), Stop> {
    put_setup(alloc, rows, ballots)?;
    put_ballots(alloc, rows, ballots)?;
    put_stage(alloc, rows, 1, "", "close")?;
    put_stage(alloc, rows, 2, "full", "draw full")?;
    put_claims(alloc, rows, claims)
}
