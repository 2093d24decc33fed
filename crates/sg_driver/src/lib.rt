//! The commands that judge the lines of their input: who judges them, the one loop that reads them, and how such a command
//! ends.
#![tactic(auto)]

mod answering;
mod hearing;
mod judge;

pub use crate::answering::answer_on;
pub use crate::judge::{Judge, Standing};
