//! Asks an office of 20,000 ballots, over a keeper in memory, or opens one from its rows, so that the work can be timed.
//!
//! With `answers KEPT ASKS STATION` scans of different ballots are asked by a station, so many of them, behind so many
//! kept acts: half of these are scans by that station, and half voids of them by another one. It says how many of all
//! these asks were accepted, and then, a line each, how many nanoseconds of processor time each hundred of the scans took.
//! With `open BALLOTS CLAIMS` the rows of an office are made, whose ballots are all cast, and of which
//! so many are claimed, and the office is opened from them; with `rows BALLOTS CLAIMS` they are made alone.
mod asking;
mod rows;
mod setup;

use crate::stop::Stop;
use crate::task::Task;
use asking::{Asked, answers};
use rows::{no_rows, put_rows};
use sg_keeper::Rows;
use sg_office::Office;
use sg_plan::Items;
use std::alloc::Global;
use std::io;

/// What is to be done.
#[derive(Clone, Copy, Debug)]
enum Work {
    /// Asks are answered.
    Answers,
    /// Rows are made.
    Rows,
    /// Rows are made, and an office is opened from them.
    Open,
}

/// Opens an office from the rows.
fn open(alloc: Global, rows: &Rows) -> Result<(), Stop> {
    drop(Office::open(alloc, rows)?);
    Ok(())
}

/// Puts rows, and opens an office from them where that is the work.
fn fill(alloc: Global, work: Work, numbers: [u32; 3], rows: &mut Rows) -> Result<(), Stop> {
    let [ballots, claims, _] = numbers;
    put_rows(alloc, rows, ballots, claims)?;
    match work {
        Work::Open => open(alloc, rows),
        Work::Rows => Ok(()),
        Work::Answers => Ok(()),
    }
}

/// Makes rows, and perhaps an office.
fn make(alloc: Global, work: Work, numbers: [u32; 3]) -> Result<(), Stop> {
    let mut rows = no_rows(alloc);
    let filled = fill(alloc, work, numbers, &mut rows);
    drop(rows);
    filled
}

/// Does a work, and notes what became of the asks.
fn run(rt: &HostRuntime, work: Work, numbers: [u32; 3], asked: &mut Asked) -> Result<(), Stop> {
    match work {
        Work::Answers => answers(rt, numbers, asked),
        Work::Rows => make(rt.alloc(), work, numbers),
        Work::Open => make(rt.alloc(), work, numbers),
    }
}

/// Says how many asks were accepted, and what time each batch of them took.
fn tell(rt: &HostRuntime, asked: &Asked) -> io::Result<()> {
    let accepted = asked.accepted;
    println!(rt; "{accepted} accepted")?;
    for time in asked.times.as_slice() {
        let nanoseconds = time.as_nanos();
        println!(rt; "{nanoseconds}")?;
    }
    Ok(())
}

/// Does a work, and says what became of it.
fn run_and_tell(rt: &HostRuntime, work: Work, numbers: [u32; 3]) -> Result<(), Stop> {
    let mut asked = Asked {
        accepted: 0,
        times: Items::new(rt.alloc()),
    };
    run(rt, work, numbers, &mut asked)?;
    Ok(tell(rt, &asked)?)
}

/// The work that a word names.
fn work_of(word: &str) -> Option<Work> {
    match word {
        "answers" => Some(Work::Answers),
        "rows" => Some(Work::Rows),
        "open" => Some(Work::Open),
        _ => None,
    }
}

/// Does a work, and says how many asks were accepted.
pub(crate) fn measure(rt: &HostRuntime, task: Task<'_>) -> Result<(), Stop> {
    match work_of(task.word) {
        Some(work) => run_and_tell(rt, work, task.numbers),
        None => Ok(println!(rt;
            "usage: measures office answers KEPT ASKS STATION | open|rows BALLOTS CLAIMS"
        )?),
    }
}
