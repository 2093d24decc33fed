//! The program's commands on elections that a program of another language made, one after another over one keeper in
//! memory. Told are each command's status and how many bytes it wrote; where a status, an output or a kept row differs
//! from what that program says, a line says so.
use crate::fault::Fault;
use crate::steps::{Keepers, tell_elections};
use sg_keeper::{MemoryKeeper, Rows};
use sg_plan::Items;
use std::alloc::Global;
use std::io::Write;

/// Keepers in memory, of which no call fails.
struct InMemory;

impl Keepers for InMemory {
    type Made = MemoryKeeper;

    fn with_rows(&self, alloc: Global, rows: Rows) -> Result<MemoryKeeper, Fault> {
        Ok(MemoryKeeper::new(alloc, rows, Items::new(alloc)))
    }
}

/// Takes the steps of a stream, each election over a keeper in memory.
pub(crate) fn tell<W: Write>(alloc: Global, stream: &[u8], out: &mut W) -> Result<(), Fault> {
    tell_elections(alloc, &InMemory, stream, out)
}
