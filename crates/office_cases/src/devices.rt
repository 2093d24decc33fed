//! The program's commands on an election, each of them again with each call of the input, the output and the keeper
//! failing in turn. Told is how these runs ended. Then `do` is given lines at its limits, and connections are served of
//! which each call fails in turn.
//!
//! The input is the election file, the asks, a scanner's file, what a court is handed behind the record, and a record of
//! another town, with an empty line between two of them.
mod connections;
mod failing;
mod limits;
mod parts;
mod runs;

use crate::fault::Fault;
use crate::rows::keeper_of;
use connections::tell_links;
use failing::tell_case;
use limits::tell_limits;
use parts::{Parts, joined, parts_of};
use runs::{Case, keeper_like};
use sg_keeper::MemoryKeeper;
use sg_plan::Items;
use std::alloc::Global;
use std::io::Write;

/// How many bytes a command may write.
const ROOM: usize = 32_768;

/// A command with its input.
fn case<'a>(words: &'a [u8], input: &'a [u8]) -> Case<'a> {
    Case {
        words,
        input,
        room: ROOM,
    }
}

/// Tells of a command, and lets go what it wrote.
fn tell_one<W: Write>(
    alloc: Global,
    case: &Case<'_>,
    keeper: &mut MemoryKeeper,
    out: &mut W,
) -> Result<(), Fault> {
    let came = tell_case(alloc, case, keeper, out)?;
    drop(came);
    Ok(())
}

/// Tells of the scanner's file, over a keeper with the rows of another.
fn tell_scans<W: Write>(
    alloc: Global,
    file: &[u8],
    keeper: &mut MemoryKeeper,
    out: &mut W,
) -> Result<(), Fault> {
    let mut like = keeper_like(alloc, keeper, Items::new(alloc))?;
    let told = tell_one(alloc, &case(b"scans", file), &mut like, out);
    drop(like);
    told
}

/// Tells of the commands that read what a court is handed.
fn tell_handed<W: Write>(
    alloc: Global,
    handed: &[u8],
    keeper: &mut MemoryKeeper,
    out: &mut W,
) -> Result<(), Fault> {
    tell_one(alloc, &case(b"recount", handed), keeper, out)?;
    tell_one(alloc, &case(b"odds", handed), keeper, out)
}

/// Tells of the commands that read a record with something behind it.
fn tell_readings<W: Write>(
    alloc: Global,
    record: &[u8],
    parts: &Parts<'_>,
    keeper: &mut MemoryKeeper,
    out: &mut W,
) -> Result<(), Fault> {
    tell_one(alloc, &case(b"audit", record), keeper, out)?;
    let handed = joined(alloc, record, b"", parts.handed)?;
    let told = tell_handed(alloc, &handed, keeper, out);
    drop(handed);
    told?;
    let towns = joined(alloc, record, b"next\n", parts.town)?;
    let told = tell_one(alloc, &case(b"county", &towns), keeper, out);
    drop(towns);
    told
}

/// Tells of the commands that set an office up and answer asks.
fn tell_asking<W: Write>(
    alloc: Global,
    parts: &Parts<'_>,
    keeper: &mut MemoryKeeper,
    out: &mut W,
) -> Result<(), Fault> {
    tell_one(alloc, &case(b"init", parts.file), keeper, out)?;
    tell_one(alloc, &case(b"sheet", b""), keeper, out)?;
    tell_scans(alloc, parts.scans, keeper, out)?;
    tell_one(alloc, &case(b"do", parts.asks), keeper, out)
}

/// Tells of each command, over one keeper.
fn tell_commands<W: Write>(
    alloc: Global,
    input: &[u8],
    keeper: &mut MemoryKeeper,
    out: &mut W,
) -> Result<(), Fault> {
    let parts = parts_of(input)?;
    tell_asking(alloc, &parts, keeper, out)?;
    let came = tell_case(alloc, &case(b"record", b""), keeper, out)?;
    tell_one(alloc, &case(b"openings", b""), keeper, out)?;
    let told = tell_readings(alloc, &came.output, &parts, keeper, out);
    drop(came);
    told?;
    tell_one(alloc, &case(b"sample 7 10", b""), keeper, out)
}

/// Tells of all cases, over this keeper.
fn tell_over<W: Write>(
    alloc: Global,
    input: &[u8],
    keeper: &mut MemoryKeeper,
    out: &mut W,
) -> Result<(), Fault> {
    tell_commands(alloc, input, keeper, out)?;
    tell_limits(alloc, keeper, out)?;
    tell_links(alloc, keeper, out)
}

/// Tells of all cases, over a keeper that begins without rows.
pub(crate) fn tell<W: Write>(alloc: Global, input: &[u8], out: &mut W) -> Result<(), Fault> {
    let mut keeper = keeper_of(alloc, Items::new(alloc));
    let told = tell_over(alloc, input, &mut keeper, out);
    drop(keeper);
    told
}
