//! What an office answers to the bytes of a line or of a request's body, and the talk that these answers make.
#![tactic(auto)]

mod answered;
pub mod laws;
mod turns;

pub use answered::Answered;
pub use turns::{answer_to, reply_to, show_to, version_of};
