//! Connections, one after another: what a listener gives and takes, and connections in memory.
//!
//! Whatever stands outside may fail. Each object therefore counts its faults, and a call answers
//! [`Failed`](sg_outside::Failed) only where the count rose in that call, or stands at its counter's last value,
//! 2^64 - 1. An object in memory tells its connections; a real one need not.
#![tactic(auto)]

mod calls;
mod links;

pub use crate::calls::{Calls, Incoming};
pub use crate::links::Links;
