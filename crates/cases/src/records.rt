//! Records are audited, and each one's name, status and report is told: first those of a stream, and then those of small
//! offices that are made up here.
//!
//! The verdict on each record in memory must be the same, a fault of the input right behind the bad line must not change
//! the report, and what is read of a record as lists must be written as the same bytes. Where one of this fails, a line
//! says so.
mod audit;
mod office;
mod read_back;
mod report;
mod stream;

use crate::fault::Fault;
use office::tell_offices;
use std::alloc::Global;
use std::io::Write;
use stream::tell_stream;

/// Audits all records.
pub(crate) fn tell<W: Write>(alloc: Global, stream: &[u8], out: &mut W) -> Result<(), Fault> {
    tell_stream(alloc, stream, out)?;
    tell_offices(alloc, out)
}
