//! Plays cases of an office's commands, devices and rows, of which another implementation, or a reading of the rules, says what
//! must come, and prints what comes. The cases of records, of what is posted and of samples are those of `cases`.
//!
//! Each part has its input in a file of its own, in the folder that the program runs in. Behind a line with the part's
//! name stands what comes of it. Where something else must come, most parts say so in a line. A word after the program's
//! name is that of the one part to play; without one, all are played.
#![tactic(auto)]

mod asks;
mod commands;
mod connections;
mod cutting;
mod devices;
mod fault;
mod office;
mod offices;
mod opened;
mod rows;
mod steps;
mod stores;

use crate::fault::Fault;
use std::alloc::Global;
use std::io::Write;
use std::process::ExitCode;
use std::{env, fs};

/// A part of the cases.
#[derive(Clone, Copy, Debug)]
enum Part {
    /// The commands take the steps of elections over keepers in memory.
    Offices,
    /// The same over databases in memory.
    Stores,
    /// Kept rows are opened.
    Opened,
    /// Each call of each device fails in turn.
    Devices,
    /// Offices are asked.
    Asks,
    /// Connections are served.
    Connections,
}

/// All parts, in the order in which they are played.
const PARTS: [Part; 6] = [
    Part::Offices,
    Part::Stores,
    Part::Opened,
    Part::Devices,
    Part::Asks,
    Part::Connections,
];

/// The name of a part, and of the file of its input.
fn name_of(part: Part) -> &'static str {
    match part {
        Part::Offices => "offices",
        Part::Stores => "stores",
        Part::Opened => "opened",
        Part::Devices => "devices",
        Part::Asks => "asks",
        Part::Connections => "connections",
    }
}

/// Writes what comes of a part's input.
fn tell<W: Write>(alloc: Global, part: Part, input: &[u8], out: &mut W) -> Result<(), Fault> {
    match part {
        Part::Offices => offices::tell(alloc, input, out),
        Part::Stores => stores::tell(alloc, input, out),
        Part::Opened => opened::tell(alloc, input, out),
        Part::Devices => devices::tell(alloc, input, out),
        Part::Asks => asks::tell(alloc, input, out),
        Part::Connections => connections::tell(alloc, input, out),
    }
}

/// Plays a part: writes its name, and what comes of its input.
fn play<W: Write>(rt: &HostRuntime, part: Part, out: &mut W) -> Result<(), Fault> {
    let name = name_of(part);
    writeln!(out, "== {name}")?;
    let input = fs::read(rt, name)?;
    let told = tell(rt.alloc(), part, &input, out);
    drop(input);
    told
}

/// Plays these parts.
fn play_all<W: Write>(rt: &HostRuntime, parts: &[Part], out: &mut W) -> Result<(), Fault> {
    for part in parts {
        play(rt, *part, out)?;
    }
    Ok(())
}

/// The part of this name.
fn part_of(name: &str) -> Option<Part> {
    PARTS.iter().copied().find(|part| name_of(*part) == name)
}

/// Plays the part of this name.
fn play_named<W: Write>(rt: &HostRuntime, name: &str, out: &mut W) -> Result<(), Fault> {
    match part_of(name) {
        Some(part) => play(rt, part, out),
        None => Err(Fault::Input),
    }
}

/// Plays what the words after the program's name ask for.
fn play_asked(rt: &HostRuntime) -> Result<(), Fault> {
    let mut words = env::args(rt)?.skip(1);
    match words.next() {
        Some(name) => play_named(rt, name.as_str(), &mut rt.stdout()),
        None => play_all(rt, &PARTS, &mut rt.stdout()),
    }
}

fn main(rt: HostRuntime) -> ExitCode {
    match play_asked(&rt) {
        Ok(()) => ExitCode::from(0),
        Err(fault) => ExitCode::from(fault.status()),
    }
}
