//! What an office is asked and what it answers: plain types, which a desk, an office and its texts share.
#![tactic(auto)]

mod asks;
mod replies;

pub use asks::{Act, Ask, Look, Stamp};
pub use replies::{Body, CodeSeen, FateWord, Phase, Receipt, Reply};
