//! What an office posts: marks, flags, places and totals, and the text of the record so far.
#![tactic(auto)]

mod ballot_marks;
mod ballots;
mod commitments;
mod counts;
mod disputes;
mod fits;
pub mod laws;
mod making;
mod openings;
mod poster;
mod posting;
mod story;
mod totals;
mod write;

pub use posting::Posting;
pub use story::{Claimed, Story, Told};
pub use totals::total_fates;
pub use write::write_posted;
