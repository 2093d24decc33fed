//! What a court is handed of an office's tables: the openings of both halves of each row.
#![tactic(auto)]

mod counts;
mod writing;

pub use writing::put_openings;
