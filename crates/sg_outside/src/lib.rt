//! What the program meets outside itself: a source of bytes, a sink for bytes, and lines cut from a source.
//!
//! Whatever stands outside may fail. Each object therefore counts its faults, and a call answers
//! [`Failed`] only where the count rose in that call, or stands at its counter's last value, 2^64 - 1.
//! An object in memory tells what it holds; a real one need not.
#![tactic(auto)]

mod cutter;
mod faults;
mod memory;
mod outcome;
mod streams;

pub use crate::cutter::{Got, Lines, line_end};
pub use crate::faults::{Failed, NoMemory};
pub use crate::memory::{Bytes, Page};
pub use crate::outcome::Outcome;
pub use crate::streams::{Sink, Source};
