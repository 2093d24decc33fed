//! Histories of an office, and the rows that keep them.
#![tactic(auto)]

mod kept;
pub mod laws;

pub use kept::{Claim, Kept, Slot};
