//! That an unaltered run passes by all draws: laws over what is posted and the odds.
#![tactic(auto)]

pub mod laws;
