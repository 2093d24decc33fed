//! Lemmas about lists, options, booleans and numbers that several crates use and the kit has not. There is no code.
#![tactic(auto)]
