//! The odds that a record with wrong totals passes.
#![tactic(auto)]

mod found;
mod full;
mod gaps;
pub mod laws;
mod led;

pub use found::{OddsFound, odds};
