//! The seals of an office's record, and its text.
ghost use Rattle.std.specs.Prelude.{◌≡◌, true};
ghost use Rattle.sg_record.specs.Formed.{is_formed};

use crate::digest::digest_of;
use crate::fault::Fault;
use sg_commit::Digest;
use sg_outside::{Page, line_end};
use sg_plan::limits::LONGEST_LINE;
use sg_record::{Record, Wrote, write_record};
use std::alloc::Global;

/// How many bytes the record of a small office may have: as many as a line of a record.
const ROOM: usize = LONGEST_LINE;

/// How the lines of the seals begin.
const SEAL_HEADS: [&[u8]; 3] = [b"seal 1 ", b"seal 2 ", b"seal 3 "];

/// Writes the text of a record, which is formed.
fn write(alloc: Global, posted: &Record, page: &mut Page) -> Result<(), Fault>
    requires { is_formed posted.now ≡ true }
{
    match write_record(alloc, posted, page) {
        Wrote::Written => Ok(()),
        Wrote::SinkFailed => Err(Fault::Case),
        Wrote::NoMemory => Err(Fault::Outside),
    }
}

/// The text of a record.
fn page_of(alloc: Global, posted: &Record) -> Result<Page, Fault> {
    if !posted.is_formed(alloc)? {
        return Err(Fault::Case);
    }
    let mut page = Page::new(alloc, ROOM, Vec::new(alloc), 0)?;
    write(alloc, posted, &mut page)?;
    Ok(page)
}

/// All bytes before the first line that begins so.
fn before_line<'a>(text: &'a [u8], head: &[u8]) -> Option<&'a [u8]> {
    let mut start = 0;
    while start < text.len() {
        if text[start..].starts_with(head) {
            return Some(&text[..start]);
        }
        start = line_end(text, start);
    }
    None
}

/// SHA-256 of all bytes of the record's text before the line that begins so.
fn digest_before(alloc: Global, posted: &Record, head: &[u8]) -> Result<Digest, Fault> {
    let page = page_of(alloc, posted)?;
    let digest = before_line(page.written(), head).map(digest_of);
    drop(page);
    digest.ok_or(Fault::Case)
}

/// Puts the seals in, from the first to the last: SHA-256 of all bytes before each.
fn seal(alloc: Global, posted: &mut Record) -> Result<(), Fault> {
    for number in 0..SEAL_HEADS.len() {
        posted.seals[number] = digest_before(alloc, posted, SEAL_HEADS[number])?;
    }
    Ok(())
}

/// The text of a record, once each of its seals is put in.
pub(super) fn sealed_page(alloc: Global, posted: &mut Record) -> Result<Page, Fault> {
    seal(alloc, posted)?;
    page_of(alloc, posted)
}
