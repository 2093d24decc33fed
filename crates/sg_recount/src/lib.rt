//! A recount: the altered rows of a record's completion, and the counts of posted codes.
#![tactic(auto)]

mod altered;
mod basis;
mod counted;
mod findings;
mod looks;
mod sums;

pub use findings::{Findings, Sum, recount};
pub use looks::total_at;
pub use sg_parts::{
    Completion, Parts, PartsReading, Printing, RecountFault, RowGiven, item_at, laws,
    missing_printing, posted_half, row_at,
};
