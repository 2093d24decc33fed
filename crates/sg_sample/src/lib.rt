//! The sample run: a small election that an office is made for, votes in, closes and draws, and whose record is audited.
//!
//! Nothing in it is chosen but a number for the seed and the number of ballots, so whoever runs it with the same two
//! numbers gets the same record, and with it the same summary.
#![tactic(auto)]

mod acts;
mod asking;
mod counts;
mod election;
mod gathered;
mod judging;
pub mod laws;
mod papers;
mod posting;
mod putting;
mod sampling;
mod steady;
mod telling;

pub use sampling::sample;
pub use sg_words::{Sample, sample_of};
