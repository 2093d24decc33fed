//! The cases of a script, each with an office, a keeper, connections and an output of its own.
ghost use Rattle.std.specs.Prelude.{◌≡◌, ◌<◌, All, IfOk, false, is_some};

use super::script::{bytes_of, number, numbers, value};
use super::told::{add_ending, add_rows, add_sent};
use crate::fault::Fault;
use crate::office::office_of;
use crate::rows::keeper_of;
use sg_clerk::calls::serve_calls;
use sg_keeper::{Keeper, MemoryKeeper};
use sg_links::{Calls, Incoming};
use sg_office::Office;
use sg_outside::Page;
use sg_plan::Items;
use sg_talk::answer_to;
use std::alloc::Global;
use std::io::Write;
use std::mem;

/// Room for the lines of a case, in bytes.
const ROOM: usize = 1_000;

/// Room for all that the connections of a case are sent together, in bytes.
const SENT_ROOM: usize = 100_000;

/// These numbers as items.
fn items_of(alloc: Global, numbers: &[u32]) -> Result<Items<u32>, Fault> {
    let mut items = Items::new(alloc);
    items.extend(numbers)?;
    Ok(items)
}

/// A connection of these bytes, of which a read gives so many at most.
fn incoming(alloc: Global, text: &str, piece: usize) -> Result<Incoming, Fault>
    ensures { IfOk result (λ incoming. 0 < incoming.piece) }
{
    let bytes = bytes_of(alloc, text)?;
    Ok(Incoming {
        bytes,
        piece: piece.max(1),
    })
}

/// The connections of a case.
fn all_incoming(alloc: Global, case: &str, piece: usize) -> Result<Vec<Incoming>, Fault>
    ensures { IfOk result (λ coming. All (λ incoming. 0 < incoming.piece) coming.items) }
{
    let mut coming = Vec::new(alloc);
    for line in case.lines() {
        if let Some(text) = line.strip_prefix("call ") {
            coming.push(incoming(alloc, text, piece)?)?;
        }
    }
    Ok(coming)
}

/// The connections of a case, at which the calls fail that it names.
fn links_of(alloc: Global, case: &str, piece: usize) -> Result<Calls, Fault>
    ensures { IfOk result (λ calls. is_some calls.board.current ≡ false) }
{
    let coming = all_incoming(alloc, case, piece)?;
    let most = coming.len().saturating_add(1);
    let fails = numbers(alloc, value(case, "links"))?;
    let calls = Calls::new(alloc, coming, most, SENT_ROOM, fails)?;
    Ok(calls)
}

/// The output of a case, at which the puts fail that it names, with so many bytes of each put as it says.
fn page_of(alloc: Global, case: &str) -> Result<Page, Fault> {
    let fails = numbers(alloc, value(case, "output"))?;
    let keeps = numbers(alloc, value(case, "keeps"))?;
    let keeps = keeps.first().copied().unwrap_or(0);
    let page = Page::new(alloc, ROOM, fails, keeps as usize)?;
    Ok(page)
}

/// Asks the office an ask, and lets its answer go.
fn ask_one<K: Keeper>(
    alloc: Global,
    office: &mut Office,
    keeper: &mut K,
    text: &str,
) -> Result<(), Fault> {
    let ask = bytes_of(alloc, text)?;
    drop(answer_to(alloc, office, keeper, &ask)?);
    Ok(())
}

/// Asks the office each ask of a case that comes before its connections.
fn ask_first<K: Keeper>(
    alloc: Global,
    office: &mut Office,
    keeper: &mut K,
    case: &str,
) -> Result<(), Fault> {
    for line in case.lines() {
        if let Some(text) = line.strip_prefix("ask ") {
            ask_one(alloc, office, keeper, text)?;
        }
    }
    Ok(())
}

/// Serves these connections of a case, and tells what came of them and what they were sent.
fn tell_sent<K: Keeper>(
    alloc: Global,
    office: &mut Office,
    keeper: &mut K,
    calls: &mut Calls,
    case: &str,
    text: &mut String,
) -> Result<(), Fault>
    requires { is_some calls.old.board.current ≡ false }
{
    let count = number(value(case, "count"))?;
    let mut page = page_of(alloc, case)?;
    let ending = serve_calls(alloc, 8_080, count, calls, keeper, office, &mut page);
    let told = add_ending(text, ending, page.written());
    drop(page);
    told?;
    add_sent(text, calls)
}

/// Serves the connections of a case, which come in pieces of this size, and tells what came of them.
fn tell_calls<K: Keeper>(
    alloc: Global,
    office: &mut Office,
    keeper: &mut K,
    case: &str,
    piece: usize,
    text: &mut String,
) -> Result<(), Fault> {
    let mut calls = links_of(alloc, case, piece)?;
    let told = tell_sent(alloc, office, keeper, &mut calls, case, text);
    drop(calls);
    told
}

/// A keeper without rows, which fails at the calls that the case says.
fn keeper_for(alloc: Global, case: &str) -> Result<MemoryKeeper, Fault> {
    let fails = numbers(alloc, value(case, "keeper"))?;
    let items = items_of(alloc, &fails);
    drop(fails);
    Ok(keeper_of(alloc, items?))
}

/// Tells a case over this keeper.
fn tell_over<K: Keeper>(
    alloc: Global,
    office: &mut Office,
    keeper: &mut K,
    case: &str,
    piece: usize,
    text: &mut String,
) -> Result<(), Fault> {
    ask_first(alloc, office, keeper, case)?;
    tell_calls(alloc, office, keeper, case, piece, text)?;
    add_rows(alloc, text, keeper)
}

/// Tells a case over a keeper of its own.
fn tell_kept(
    alloc: Global,
    office: &mut Office,
    case: &str,
    piece: usize,
    text: &mut String,
) -> Result<(), Fault> {
    let mut keeper = keeper_for(alloc, case)?;
    let told = tell_over(alloc, office, &mut keeper, case, piece, text);
    drop(keeper);
    told
}

/// Tells a case of an office of its own.
fn tell_case_of(
    alloc: Global,
    setup: &str,
    case: &str,
    piece: usize,
    text: &mut String,
) -> Result<(), Fault> {
    let mut office = office_of(alloc, setup)?;
    let told = tell_kept(alloc, &mut office, case, piece, text);
    drop(office);
    told
}

/// What comes of a case whose connections come in pieces of this size.
fn told(alloc: Global, setup: &str, case: &str, piece: usize) -> Result<String, Fault> {
    let mut text = String::new(alloc);
    tell_case_of(alloc, setup, case, piece, &mut text)?;
    Ok(text)
}

/// Writes what comes of a case in pieces of this size, where it is not the same as before.
fn tell_piece<W: Write>(
    alloc: Global,
    setup: &str,
    case: &str,
    piece: u32,
    before: &mut String,
    out: &mut W,
) -> Result<(), Fault> {
    let text = told(alloc, setup, case, piece as usize)?;
    if text != *before {
        writeln!(out, "in pieces of {piece}")?;
        out.write_all(text.as_bytes())?;
    }
    drop(mem::replace(before, text));
    Ok(())
}

/// Writes what comes of a case in pieces of each size, but once where it is the same as for the size before.
fn tell_pieces<W: Write>(
    alloc: Global,
    setup: &str,
    case: &str,
    pieces: &[u32],
    out: &mut W,
) -> Result<(), Fault> {
    let mut before = String::new(alloc);
    for piece in pieces {
        tell_piece(alloc, setup, case, *piece, &mut before, out)?;
    }
    Ok(())
}

/// Writes the name of a case, which is its first line, and what comes of it.
fn tell_case<W: Write>(alloc: Global, setup: &str, case: &str, out: &mut W) -> Result<(), Fault> {
    let Some((name, lines)) = case.split_once('\n') else {
        return Err(Fault::Input);
    };
    writeln!(out, "{name}")?;
    let pieces = numbers(alloc, value(lines, "pieces"))?;
    tell_pieces(alloc, setup, lines, &pieces, out)
}

/// Writes what comes of each case of the script. An empty line stands between two blocks: one that begins with the line
/// `setup` has the text of the setup for the cases that follow, and any other is a case.
///
/// The first line of a case is its name. Of the others, `pieces` has the sizes of the pieces in which its connections
/// come, `count` how many connections are served, `links`, `keeper` and `output` the numbers of the calls that fail, and
/// `keeps` how many bytes a put that fails writes; each line `ask` has the bytes of an ask that is answered before, with
/// marks; and each line `call` those of a connection.
pub(super) fn tell_cases<W: Write>(alloc: Global, script: &str, out: &mut W) -> Result<(), Fault> {
    let mut setup = "";
    for block in script.split("\n\n") {
        match block.strip_prefix("setup\n") {
            Some(text) => setup = text,
            None => tell_case(alloc, setup, block, out)?,
        }
    }
    Ok(())
}
