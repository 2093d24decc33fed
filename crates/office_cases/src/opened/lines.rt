//! The lines of a case. A line with a plus sign is of a row; all others are the setup's text.
use crate::fault::Fault;
use crate::rows::reading::{Spelling, add_row};
use sg_keeper::Rows;
use sg_plan::Word;
use std::alloc::Global;

/// The setup's text so far, which is taken from the rows.
fn text_of(alloc: Global, rows: &mut Rows) -> Word {
    match rows.setup.take() {
        Some(text) => text,
        None => Word::new(alloc),
    }
}

/// One more line of the setup's text.
fn add_text(alloc: Global, rows: &mut Rows, line: &[u8]) -> Result<(), Fault> {
    let mut text = text_of(alloc, rows);
    text.extend(line)?;
    text.push(b'\n')?;
    drop(rows.setup.replace(text));
    Ok(())
}

/// One more line of a case.
pub(super) fn add_line(alloc: Global, rows: &mut Rows, line: &[u8]) -> Result<(), Fault> {
    match line.strip_prefix(b"+".as_slice()) {
        Some(row) => add_row(alloc, rows, row, Spelling::Plain),
        None => add_text(alloc, rows, line),
    }
}
