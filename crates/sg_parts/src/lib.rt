//! What a recount is given: a record, the printer's sheet and the completion of its rows, read line by line.
#![tactic(auto)]

mod checks;
mod cutting;
pub mod laws;
mod looks;
mod parts;
mod read;
mod reading;
mod rows;
mod sheet;

pub use checks::At;
pub use looks::{Half, entry_code, given_half, item_at, posted_half, printed_code, row_at};
pub use parts::{Completion, Parts, Printing, RecountFault, RowGiven};
pub use reading::{PartsReading, missing_printing};
