//! That what an unaltered history posts is accepted: laws over the histories of an office and what is judged.
#![tactic(auto)]

pub mod laws;
