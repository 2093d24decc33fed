//! The cases of a stream. A line with an equals sign and a name begins each, and one without a name ends the last.
use super::lines::add_line;
use crate::cutting::cut_at;
use crate::fault::Fault;
use crate::rows::no_rows;
use sg_keeper::Rows;
use sg_open::{OpenFault, open_rows};
use std::alloc::Global;
use std::io::Write;
use std::mem;

/// How many lines a stream may have.
const MOST_LINES: u32 = 100_000;

/// What the rows open to: nothing where that is an office.
fn fault_of(alloc: Global, rows: &Rows) -> Option<OpenFault> {
    match open_rows(alloc, rows) {
        Ok(opened) => {
            drop(opened);
            None
        }
        Err(fault) => Some(fault),
    }
}

/// Writes what the rows of a case open to.
fn tell_case<W: Write>(alloc: Global, name: &[u8], rows: &Rows, out: &mut W) -> Result<(), Fault> {
    out.write_all(name)?;
    match fault_of(alloc, rows) {
        None => out.write_all(b" good\n")?,
        Some(OpenFault::Empty) => out.write_all(b" empty\n")?,
        Some(OpenFault::Damaged { table, row }) => writeln!(out, " damaged {table} {row}")?,
        Some(OpenFault::NoMemory) => return Err(Fault::Outside),
    }
    Ok(())
}

/// Ends a case, where there is one: writes what its rows open to, and begins with none.
fn end_case<W: Write>(
    alloc: Global,
    name: &[u8],
    rows: &mut Rows,
    out: &mut W,
) -> Result<(), Fault> {
    if !name.is_empty() {
        tell_case(alloc, name, rows, out)?;
    }
    drop(mem::replace(rows, no_rows(alloc)));
    Ok(())
}

/// Tells all cases of the stream, whose rows are gathered here.
fn tell_gathered<W: Write>(
    alloc: Global,
    stream: &[u8],
    rows: &mut Rows,
    out: &mut W,
) -> Result<(), Fault> {
    let mut rest = stream;
    let mut name = &stream[..0];
    for _line in 0..MOST_LINES {
        if rest.is_empty() {
            return Ok(());
        }
        let Some((line, behind)) = cut_at(rest, b'\n') else {
            return Err(Fault::Input);
        };
        rest = behind;
        match line.strip_prefix(b"=".as_slice()) {
            Some(next) => {
                end_case(alloc, name, rows, out)?;
                name = next;
            }
            None => add_line(alloc, rows, line)?,
        }
    }
    Err(Fault::Input)
}

/// Tells all cases of the stream.
pub(crate) fn tell<W: Write>(alloc: Global, stream: &[u8], out: &mut W) -> Result<(), Fault> {
    let mut rows = no_rows(alloc);
    let told = tell_gathered(alloc, stream, &mut rows, out);
    drop(rows);
    told
}
