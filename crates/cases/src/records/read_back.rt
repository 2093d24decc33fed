//! A record's bytes, read as lists and written from these.
ghost use Rattle.std.specs.Prelude.{◌≡◌, true};
ghost use Rattle.sg_record.specs.Formed.{is_formed};

use crate::fault::Fault;
use sg_check::{Judged, Kind};
use sg_outside::Page;
use sg_record::{Record, Wrote, read_record, write_record};
use std::alloc::Global;
use std::io::{self, Write};

/// What comes of reading a record's bytes as lists, and of writing these as bytes again.
#[derive(Clone, Copy, Debug, PartialEq, Eq)]
pub(super) enum ReadBack {
    /// The bytes are not read as a record.
    Unread,
    /// What is read is no record that has a text.
    Unformed,
    /// The record that is read is written as other bytes.
    Another,
    /// The record that is read is written as just these bytes.
    Same,
}

/// Writes a record, which is formed, on a page of as many bytes.
fn write_back(
    alloc: Global,
    posted: &Record,
    bytes: &[u8],
    page: &mut Page,
) -> Result<ReadBack, Fault>
    requires { is_formed posted.now ≡ true }
{
    match write_record(alloc, posted, page) {
        Wrote::Written if page.written() == bytes => Ok(ReadBack::Same),
        Wrote::Written => Ok(ReadBack::Another),
        Wrote::SinkFailed => Ok(ReadBack::Another),
        Wrote::NoMemory => Err(Fault::Outside),
    }
}

/// Writes a record that was read from the bytes, with room for as many.
fn written_back(alloc: Global, posted: &Record, bytes: &[u8]) -> Result<ReadBack, Fault> {
    if !posted.is_formed(alloc)? {
        return Ok(ReadBack::Unformed);
    }
    let mut page = Page::new(alloc, bytes.len(), Vec::new(alloc), 0)?;
    let read = write_back(alloc, posted, bytes, &mut page);
    drop(page);
    read
}

/// Reads the bytes as a record and writes it, with room for as many bytes.
pub(super) fn read_back(alloc: Global, bytes: &[u8]) -> Result<ReadBack, Fault> {
    match read_record(alloc, bytes)? {
        Some(posted) => {
            let read = written_back(alloc, &posted, bytes);
            drop(posted);
            read
        }
        None => Ok(ReadBack::Unread),
    }
}

/// Whether the bytes are read is as their verdict wants it: a good record is read, and one whose first fault is of form
/// is not. One with another fault first may be of either sort, as a later line may break the form.
fn is_as_judged(judged: &Judged, is_read: bool) -> bool {
    match judged {
        Judged::Yes(_) => is_read,
        Judged::No {
            kind: Kind::Form,
            ..
        } => !is_read,
        Judged::No { .. } => true,
    }
}

/// Writes what of a record's reading is not as its verdict wants it.
pub(super) fn tell_breaches<W: Write>(
    judged: &Judged,
    read: ReadBack,
    out: &mut W,
) -> io::Result<()> {
    let is_read = read != ReadBack::Unread;
    if !is_as_judged(judged, is_read) {
        out.write_all(if is_read {
            b"it is read\n".as_slice()
        } else {
            b"it is not read\n".as_slice()
        })?;
    }
    match read {
        ReadBack::Unformed => out.write_all(b"it is read as a record that has no text\n"),
        ReadBack::Another => out.write_all(b"it is written as another text\n"),
        ReadBack::Unread => Ok(()),
        ReadBack::Same => Ok(()),
    }
}
