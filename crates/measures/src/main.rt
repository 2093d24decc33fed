//! Works that scripts time. The first word names the kind of work, the second the work, and up to three
//! numbers follow.
//!
//! With the word `each` alone a small work of each kind is done.
#![tactic(auto)]

mod lines;
mod office;
mod post;
mod stop;
mod streams;
mod tables;
mod task;

use crate::stop::Stop;
use crate::task::{Task, number_of, text_of};
use std::{env, io};

/// A kind of work.
#[derive(Clone, Copy, Debug)]
enum Kind {
    /// A record is read and written.
    Lines,
    /// An office is asked, or opened from its rows.
    Office,
    /// An election is posted.
    Post,
    /// Streams are drawn from a seed.
    Streams,
    /// An office's tables are made.
    Tables,
}

/// The kind of work that a word names.
fn kind_of(word: &str) -> Option<Kind> {
    match word {
        "lines" => Some(Kind::Lines),
        "office" => Some(Kind::Office),
        "post" => Some(Kind::Post),
        "streams" => Some(Kind::Streams),
        "tables" => Some(Kind::Tables),
        _ => None,
    }
}

/// Does a work of a kind. Where no work has that word, the kind's words are said.
fn measure(rt: &HostRuntime, kind: Kind, task: Task<'_>) -> Result<(), Stop> {
    match kind {
        Kind::Lines => lines::measure(rt, task),
        Kind::Office => office::measure(rt, task),
        Kind::Post => post::measure(rt, task),
        Kind::Streams => streams::measure(rt, task),
        Kind::Tables => tables::measure(rt, task),
    }
}

/// A small work of each kind.
const EACH: [(Kind, Task<'static>); 5] = [
    (
        Kind::Lines,
        Task {
            word: "write",
            numbers: [0, 0, 0],
        },
    ),
    (
        Kind::Office,
        Task {
            word: "open",
            numbers: [20, 10, 0],
        },
    ),
    (
        Kind::Post,
        Task {
            word: "make",
            numbers: [2, 10, 0],
        },
    ),
    (
        Kind::Streams,
        Task {
            word: "order",
            numbers: [4, 0, 0],
        },
    ),
    (
        Kind::Tables,
        Task {
            word: "largest",
            numbers: [0, 0, 0],
        },
    ),
];

/// Does these works.
fn measure_all(rt: &HostRuntime, works: &[(Kind, Task<'_>)]) -> Result<(), Stop> {
    for (kind, task) in works {
        measure(rt, *kind, *task)?;
    }
    Ok(())
}

/// Does what the first word says: a work of a kind, or one of each.
fn act(rt: &HostRuntime, first: &str, task: Task<'_>) -> Result<(), Stop> {
    match kind_of(first) {
        Some(kind) => measure(rt, kind, task),
        None if first == "each" => measure_all(rt, &EACH),
        None => Ok(println!(rt;
            "usage: measures lines|office|post|streams|tables WORK NUMBER.. | each"
        )?),
    }
}

fn main(rt: HostRuntime) -> io::Result<()> {
    let mut words = env::args(&rt)?.skip(1);
    let first = words.next();
    let second = words.next();
    let numbers = [
        number_of(words.next()),
        number_of(words.next()),
        number_of(words.next()),
    ];
    let task = Task {
        word: text_of(&second),
        numbers,
    };
    match act(&rt, text_of(&first), task) {
        Ok(()) => Ok(()),
        Err(stop) => println!(rt; "stopped: {stop:?}"),
    }
}
