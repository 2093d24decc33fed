//! The verdict on a public record, as a definition: what is judged at each line, what the record's verdict is, and what a yes
//! promises. The crates above compute it.
#![tactic(auto)]

mod judged;
pub mod laws;

pub use judged::{Judged, Kind, Total};
