//! Tests of the libraries about a record: it is read and written, it is counted as a county's part, and its codes are told.
//!
//! Verdicts, recounts and counties are tried as commands, by the parts `records` and `offices` of the program `cases`.
#![tactic(auto)]

#[cfg(test)]
mod county;
#[cfg(test)]
mod facts;
#[cfg(test)]
mod fates;
#[cfg(test)]
mod lists;
#[cfg(test)]
mod record;
#[cfg(test)]
mod texts;
#[cfg(test)]
mod trials;
#[cfg(test)]
mod writing;
