//! Steps of elections as a stream gives them, each with what must come of it: new rows, a command of the program, or a
//! look at the rows that are kept.
//!
//! No call here promises what the program answers: it writes what came, and a line where something else must come.
mod elections;
mod rows;
mod step;
mod stream;

pub(crate) use elections::{Keepers, tell_elections};
