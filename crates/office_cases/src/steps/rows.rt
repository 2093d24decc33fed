//! Rows as lines of words, each line with the name of its table, numbers in decimal and texts in hexadecimal digits.
use crate::fault::Fault;
use crate::rows::no_rows;
use crate::rows::reading::{Spelling, add_row};
use sg_keeper::Rows;
use std::alloc::Global;

/// Adds the rows of these lines.
fn add_rows(alloc: Global, text: &[u8], rows: &mut Rows) -> Result<(), Fault> {
    for line in text.split(|byte| *byte == b'\n') {
        if !line.is_empty() {
            add_row(alloc, rows, line, Spelling::Digits)?;
        }
    }
    Ok(())
}

/// The rows of these lines.
pub(super) fn rows_of(alloc: Global, text: &[u8]) -> Result<Rows, Fault> {
    let mut rows = no_rows(alloc);
    add_rows(alloc, text, &mut rows)?;
    Ok(rows)
}
