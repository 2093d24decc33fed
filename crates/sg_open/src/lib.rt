//! What kept rows open to: all that an office keeps, or the first bad row.
#![tactic(auto)]

mod ballots;
mod claims;
mod counts;
mod dones;
mod fault;
mod numbers;
mod opening;
mod slots;
mod stages;
mod stations;
mod texts;
mod voids;

pub use fault::OpenFault;
pub use opening::open_rows;
