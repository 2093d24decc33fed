//! That an honest office is cleared: the law of what it hands to a court, and what is found in that.
#![tactic(auto)]

pub mod laws;
