//! That what an unaltered run posts is accepted: laws over what is posted and what is judged.
#![tactic(auto)]

pub mod laws;
