//! The records of a stream. Before each stands a line with its name, the hex digits of its office's seed, and the number
//! of its bytes.
use super::stages::tell_record;
use crate::cutting::{cut, cut_at, size_of};
use crate::fault::Fault;
use sg_lines::read_digest;
use sg_streams::Seed;
use std::alloc::Global;
use std::io::Write;

/// How many records a stream may have.
const MOST_RECORDS: u32 = 1_000;

/// The first record of the stream: its name, its office's seed, its bytes, and the stream behind it.
fn first_of(stream: &[u8]) -> Option<(&[u8], Seed, &[u8], &[u8])> {
    let (head, rest) = cut_at(stream, b'\n')?;
    let (name, words) = cut_at(head, b' ')?;
    let (seed, digits) = cut_at(words, b' ')?;
    let seed = Seed(read_digest(seed)?);
    let (record, behind) = cut(rest, size_of(digits)?)?;
    Some((name, seed, record, behind))
}

/// Posts all elections of the stream, fewer than 1,000.
pub(crate) fn tell<W: Write>(alloc: Global, stream: &[u8], out: &mut W) -> Result<(), Fault> {
    let mut stream = stream;
    for _record in 0..MOST_RECORDS {
        if stream.is_empty() {
            return Ok(());
        }
        let Some((name, seed, record, behind)) = first_of(stream) else {
            return Err(Fault::Input);
        };
        out.write_all(name)?;
        tell_record(alloc, &seed, record, out)?;
        stream = behind;
    }
    Err(Fault::Input)
}
