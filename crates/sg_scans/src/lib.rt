//! Scanner files: what a scanner hands over is read as a list of scans, and what is handed over twice counts once.
#![tactic(auto)]

mod fields;
mod file;
mod header;
pub mod laws;
mod rows;

pub use fields::ScanLine;
pub use file::{ScansFault, read_scans};
