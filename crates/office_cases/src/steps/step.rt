//! One step: a command, or a look at the rows that are kept.
use crate::commands::status_of;
use crate::fault::Fault;
use crate::rows::writing::{LINES, put_rows};
use sg_keeper::Keeper;
use sg_outside::{Bytes, Page};
use std::alloc::Global;
use std::io::Write;

/// How many bytes a command may write.
const ROOM: usize = 65_536;

/// A step of the stream.
#[derive(Clone, Copy, Debug)]
pub(super) struct Step<'a> {
    /// The election's name.
    pub name: &'a [u8],
    /// `rows`, `kept`, or the words of a command with a plus sign between two of them.
    pub word: &'a [u8],
    /// What goes in.
    pub input: &'a [u8],
    /// What must come out.
    pub output: &'a [u8],
    /// The status that must come.
    pub status: u8,
    /// The stream behind the step.
    pub behind: &'a [u8],
}

/// Writes what the step gave, and whether it is what must come.
fn tell<W: Write>(step: &Step<'_>, status: u8, output: &[u8], out: &mut W) -> Result<(), Fault> {
    out.write_all(step.name)?;
    out.write_all(b" ")?;
    out.write_all(step.word)?;
    writeln!(out, " {status} {}", output.len())?;
    if status != step.status {
        out.write_all(b"another status\n")?;
    }
    if output != step.output {
        out.write_all(b"another output\n")?;
    }
    Ok(())
}

/// Runs a command, and answers its status.
fn run_command<K: Keeper>(
    alloc: Global,
    step: &Step<'_>,
    keeper: &mut K,
    page: &mut Page,
) -> Result<u8, Fault> {
    let bytes = Vec::from_slice(alloc, step.input)?;
    let mut input = Bytes::new(bytes, ROOM, Vec::new(alloc));
    let status = status_of(alloc, step.word, &mut input, keeper, page);
    drop(input);
    status
}

/// Runs a command, and writes what it gave.
fn tell_page<K: Keeper, W: Write>(
    alloc: Global,
    step: &Step<'_>,
    keeper: &mut K,
    page: &mut Page,
    out: &mut W,
) -> Result<(), Fault> {
    let status = run_command(alloc, step, keeper, page)?;
    tell(step, status, page.written(), out)
}

/// The same, with room for what it gives.
fn tell_command<K: Keeper, W: Write>(
    alloc: Global,
    step: &Step<'_>,
    keeper: &mut K,
    out: &mut W,
) -> Result<(), Fault> {
    let mut page = Page::new(alloc, ROOM, Vec::new(alloc), 0)?;
    let told = tell_page(alloc, step, keeper, &mut page, out);
    drop(page);
    told
}

/// Adds the rows that are kept to a text.
fn add_kept<K: Keeper>(alloc: Global, keeper: &mut K, text: &mut Vec<u8>) -> Result<(), Fault> {
    let rows = keeper.load(alloc)?;
    let put = put_rows(&LINES, &rows, text);
    drop(rows);
    put
}

/// Looks at the rows that are kept, and writes what is seen.
fn look<K: Keeper, W: Write>(
    alloc: Global,
    step: &Step<'_>,
    keeper: &mut K,
    out: &mut W,
) -> Result<(), Fault> {
    let mut text = Vec::new(alloc);
    add_kept(alloc, keeper, &mut text)?;
    tell(step, 0, &text, out)
}

/// Takes a step that gives no new rows.
pub(super) fn take<K: Keeper, W: Write>(
    alloc: Global,
    step: &Step<'_>,
    keeper: &mut K,
    out: &mut W,
) -> Result<(), Fault> {
    match step.word {
        b"kept" => look(alloc, step, keeper, out),
        _ => tell_command(alloc, step, keeper, out),
    }
}
