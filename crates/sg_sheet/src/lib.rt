//! The printer's text: which lines a sheet has, and how they are read again.
#![tactic(auto)]

mod due;
mod reading;

pub use due::{Due, list_due};
pub use reading::{is_ballot_line, read_codes};
