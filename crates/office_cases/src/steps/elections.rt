//! The elections of a stream, one after another, each over a keeper of its own.
use super::stream::{rows_at_front, tell_until_rows};
use crate::fault::Fault;
use sg_keeper::{Keeper, Rows};
use std::alloc::Global;
use std::io::Write;

/// How many elections a stream may have.
const MOST_ELECTIONS: u32 = 1_000;

/// Where the keeper of each election comes from.
pub(crate) trait Keepers {
    /// What keeps an election's rows.
    type Made: Keeper + Drop;

    /// A keeper that has these rows.
    fn with_rows(&self, alloc: Global, rows: Rows) -> Result<Self::Made, Fault>;
}

/// Takes the steps of the first election, over a keeper of the rows that it begins with, and answers the stream behind
/// them.
fn tell_election<'a, M: Keepers, W: Write>(
    alloc: Global,
    keepers: &M,
    stream: &'a [u8],
    out: &mut W,
) -> Result<&'a [u8], Fault> {
    let (rows, behind) = rows_at_front(alloc, stream)?;
    let mut keeper = keepers.with_rows(alloc, rows)?;
    let told = tell_until_rows(alloc, behind, &mut keeper, out);
    drop(keeper);
    told
}

/// Takes the steps of all elections, at most 1,000.
pub(crate) fn tell_elections<M: Keepers, W: Write>(
    alloc: Global,
    keepers: &M,
    stream: &[u8],
    out: &mut W,
) -> Result<(), Fault> {
    let mut stream = stream;
    for _election in 0..MOST_ELECTIONS {
        if stream.is_empty() {
            return Ok(());
        }
        stream = tell_election(alloc, keepers, stream, out)?;
    }
    if stream.is_empty() {
        Ok(())
    } else {
        Err(Fault::Input)
    }
}
