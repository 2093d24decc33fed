//! What the lines of a public record have said so far, kept in flat tables, so that the next line is judged in
//! constant time.
//!
//! Each table has a place for each coordinate of the plan, in all races and instances, and is never cleared.
#![tactic(auto)]

mod audits;
mod bits;
mod blank;
mod book;
mod claims;
mod codes;
mod coins;
mod commitments;
mod drawn;
mod ledger;
mod paths;
mod pointers;
mod tables;
mod totals;

pub use ledger::Ledger;
