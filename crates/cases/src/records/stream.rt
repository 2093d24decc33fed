//! The records of a stream. Before each stands a line with its name, a space and the number of its bytes.
use super::audit::{tell, tell_count};
use crate::cutting::{cut, cut_at, size_of};
use crate::fault::Fault;
use std::alloc::Global;
use std::io::Write;

/// How many records a stream may have.
const MOST_RECORDS: u32 = 1_000;

/// The first record of the stream: its name, its bytes, and the stream behind it.
fn first_of(stream: &[u8]) -> Option<(&[u8], &[u8], &[u8])> {
    let (head, rest) = cut_at(stream, b'\n')?;
    let (name, digits) = cut_at(head, b' ')?;
    let (record, behind) = cut(rest, size_of(digits)?)?;
    Some((name, record, behind))
}

/// Audits all records of the stream, fewer than 1,000, and writes how many of them were read and written back.
pub(super) fn tell_stream<W: Write>(
    alloc: Global,
    stream: &[u8],
    out: &mut W,
) -> Result<(), Fault> {
    let mut stream = stream;
    let mut same: u32 = 0;
    for _record in 0..MOST_RECORDS {
        if stream.is_empty() {
            return tell_count(same, out);
        }
        let Some((name, record, behind)) = first_of(stream) else {
            return Err(Fault::Input);
        };
        if tell(alloc, name, record, out)? {
            same = same.saturating_add(1);
        }
        stream = behind;
    }
    Err(Fault::Input)
}
