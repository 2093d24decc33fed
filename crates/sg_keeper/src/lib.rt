//! What an office keeps, the keeper of its rows, and what it is set up with.
//!
//! A keeper may fail. It therefore counts its faults, and a call answers [`KeepFault::Failed`] only where
//! the count rose in that call, or stands at its counter's last value, 2^64 - 1. A keeper in memory tells
//! its rows; a real one need not.
#![tactic(auto)]

mod copies;
mod gathered;
mod keeper;
mod keyed;
mod later;
pub mod laws;
mod memory;
mod placed;
mod rows;
mod setup;
mod setup_reading;
mod setup_writing;

pub use keeper::{KeepFault, Keeper};
pub use memory::MemoryKeeper;
pub use rows::{BallotRow, Change, ChangeRow, ClaimRow, DoneRow, Rows, StageRow, VoidRow};
pub use setup::Setup;
