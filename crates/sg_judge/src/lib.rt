//! The verdict on a public record, found in one pass over its lines that keeps none of them: line by line, or of a record in
//! memory.
#![tactic(auto)]

mod header;
mod judging;
mod pass;
mod seals;
mod taking;

pub use judging::judge;
pub use pass::{Pass, Step};
