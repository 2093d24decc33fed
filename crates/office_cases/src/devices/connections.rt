//! Each call of the connections failing in turn.
ghost use Rattle.std.specs.Prelude.{◌≡◌, ◌<◌, IfOk, false, is_some};

use super::runs::keeper_like;
use crate::commands::status_over;
use crate::fault::Fault;
use sg_keeper::MemoryKeeper;
use sg_links::{Calls, Incoming};
use sg_outside::{Bytes, Page};
use sg_plan::Items;
use std::alloc::Global;
use std::io::Write;

/// How many bytes may be sent, and written.
const ROOM: usize = 4_096;

/// How many calls are tried at most.
const MOST_CALLS: u32 = 100;

/// What each connection asks for.
const REQUEST: &[u8] = b"GET /totals HTTP/1.1\r\n\r\n";

/// A connection with that request, all of it in one piece.
fn incoming(alloc: Global) -> Result<Incoming, Fault>
    ensures { IfOk result (λ incoming. 0 < incoming.piece) }
{
    Ok(Incoming {
        bytes: Vec::from_slice(alloc, REQUEST)?,
        piece: REQUEST.len(),
    })
}

/// Three connections, of which this call fails.
fn calls(alloc: Global, call: u32) -> Result<Calls, Fault>
    ensures { IfOk result (λ calls. is_some calls.board.current ≡ false) }
{
    let mut coming = Vec::new(alloc);
    coming.push(incoming(alloc)?)?;
    coming.push(incoming(alloc)?)?;
    coming.push(incoming(alloc)?)?;
    let fails = Vec::from_slice(alloc, &[call])?;
    let calls = Calls::new(alloc, coming, 3, ROOM, fails)?;
    Ok(calls)
}

/// Serves these connections, without an input, and answers the status.
fn serve_over(
    alloc: Global,
    keeper: &mut MemoryKeeper,
    links: &mut Calls,
    page: &mut Page,
) -> Result<u8, Fault>
    requires { is_some links.old.board.current ≡ false }
{
    let mut input = Bytes::new(Vec::new(alloc), 1, Vec::new(alloc));
    let status = status_over(alloc, b"serve 8080 3", &mut input, keeper, links, page);
    drop(input);
    status
}

/// Serves the three connections, of which this call fails, and answers the status.
fn serve_calls(
    alloc: Global,
    keeper: &mut MemoryKeeper,
    call: u32,
    page: &mut Page,
) -> Result<u8, Fault> {
    let mut links = calls(alloc, call)?;
    let status = serve_over(alloc, keeper, &mut links, page);
    drop(links);
    status
}

/// The same over a keeper with the rows of another.
fn serve_like(
    alloc: Global,
    keeper: &mut MemoryKeeper,
    call: u32,
    page: &mut Page,
) -> Result<u8, Fault> {
    let mut like = keeper_like(alloc, keeper, Items::new(alloc))?;
    let status = serve_calls(alloc, &mut like, call, page);
    drop(like);
    status
}

/// Writes the lines with a comma behind each.
fn put_lines<W: Write>(lines: &[u8], out: &mut W) -> Result<(), Fault> {
    for line in lines.split(|byte| *byte == b'\n') {
        if !line.is_empty() {
            out.write_all(b" ")?;
            out.write_all(line)?;
            out.write_all(b",")?;
        }
    }
    out.write_all(b"\n")?;
    Ok(())
}

/// Writes how `serve` ends where this call of the connections fails. Answers whether none did.
fn tell_call<W: Write>(
    alloc: Global,
    keeper: &mut MemoryKeeper,
    call: u32,
    page: &mut Page,
    out: &mut W,
) -> Result<bool, Fault> {
    let status = serve_like(alloc, keeper, call, page)?;
    write!(out, "serve, call {call} of the connections: {status}")?;
    put_lines(page.written(), out)?;
    Ok(status == 0 && matches!(page.written(), b"200\n200\n200\n"))
}

/// The same, with room for what is written.
fn tell_serve<W: Write>(
    alloc: Global,
    keeper: &mut MemoryKeeper,
    call: u32,
    out: &mut W,
) -> Result<bool, Fault> {
    let mut page = Page::new(alloc, ROOM, Vec::new(alloc), 0)?;
    let told = tell_call(alloc, keeper, call, &mut page, out);
    drop(page);
    told
}

/// Writes how `serve` ends where each call of the connections fails in turn, until none does.
pub(super) fn tell_links<W: Write>(
    alloc: Global,
    keeper: &mut MemoryKeeper,
    out: &mut W,
) -> Result<(), Fault> {
    for call in 0..MOST_CALLS {
        if tell_serve(alloc, keeper, call, out)? {
            return Ok(());
        }
    }
    Err(Fault::Input)
}
