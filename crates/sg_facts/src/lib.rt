//! What a record's lists say at each coordinate, and tables of the codes of its entries.
#![tactic(auto)]

mod codes;
pub mod laws;
mod tables;

pub use codes::{known_codes, marked_codes};
