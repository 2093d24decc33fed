//! The program's commands on elections that a program of another language made, each election over one database in
//! memory. The same is told as of keepers in memory.
mod database;

use crate::fault::Fault;
use crate::steps::{Keepers, tell_elections};
use database::{Database, database_of, statements_of};
use sg_keeper::Rows;
use std::alloc::Global;
use std::io::Write;

/// Keepers over databases in memory.
struct InDatabase;

impl Keepers for InDatabase {
    type Made = Database;

    fn with_rows(&self, alloc: Global, rows: Rows) -> Result<Database, Fault> {
        let text = statements_of(alloc, &rows)?;
        match std::str::from_utf8(&text) {
            Ok(statements) => database_of(alloc, statements),
            Err(_) => Err(Fault::Case),
        }
    }
}

/// Takes the steps of a stream, each election over a database in memory.
pub(crate) fn tell<W: Write>(alloc: Global, stream: &[u8], out: &mut W) -> Result<(), Fault> {
    tell_elections(alloc, &InDatabase, stream, out)
}
