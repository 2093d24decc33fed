//! Tests of `sg_app`: the program on whole records, with the report and the status that the rules give.
#![tactic(auto)]

#[cfg(test)]
mod tests;
