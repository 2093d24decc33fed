//! Records that are written, also where a put fails.
ghost use Rattle.std.specs.Prelude.{◌≡◌, true};
ghost use Rattle.sg_record.specs.Formed.{is_formed};

use sg_outside::Page;
use sg_record::{Record, Wrote, write_record};
use std::alloc::Global;
use std::test::Fail;

/// How many bytes a page has room for.
const ROOM: usize = 30_000;

/// The record is written as this text.
pub(crate) fn is_written(alloc: Global, posted: &Record, text: &[u8]) -> Result<bool, Fail>
    requires { is_formed posted.now ≡ true }
{
    let mut page = Page::new(alloc, ROOM, Vec::new(alloc), 0)?;
    let wrote = write_record(alloc, posted, &mut page);
    Ok(wrote == Wrote::Written && page.written() == text)
}

/// How many line feeds there are.
pub(crate) fn count_feeds(text: &[u8]) -> usize {
    let mut count = 0usize;
    for byte in text {
        if *byte == b'\n' {
            count = count.saturating_add(1);
        }
    }
    count
}

/// Where the put of a line fails, just the lines before it are whole.
fn leaves_front(alloc: Global, posted: &Record, text: &[u8], line: u32) -> Result<bool, Fail>
    requires { is_formed posted.now ≡ true }
{
    let mut page = Page::new(alloc, ROOM, vec![in alloc; line]?, 4)?;
    let wrote = write_record(alloc, posted, &mut page);
    Ok(
        wrote == Wrote::SinkFailed
            && text.starts_with(page.written())
            && count_feeds(page.written()) == line as usize,
    )
}

/// That is so of each of the first lines.
pub(crate) fn leaves_fronts(
    alloc: Global,
    posted: &Record,
    text: &[u8],
    lines: u32,
) -> Result<bool, Fail>
    requires { is_formed posted.now ≡ true }
{
    for line in 0..lines {
        if !leaves_front(alloc, posted, text, line)? {
            return Ok(false);
        }
    }
    Ok(true)
}
