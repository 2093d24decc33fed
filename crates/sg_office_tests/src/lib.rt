//! Tests of an office's libraries: the limits of its files, rare replies, and the texts of its acts.
//!
//! Its commands are tried by the parts `offices`, `asks` and `devices` of the program `cases`.
#![tactic(auto)]

#[cfg(test)]
mod acts;
#[cfg(test)]
mod limits;
#[cfg(test)]
mod replies;
