//! What the verdict means, said by whole records alone: laws over the grammar, the lists of a record and the kinds.
#![tactic(auto)]

pub mod laws;
