//! The command `scans`: what a scanner hands over in one file is asked of an office, scan by scan.

mod answering;
pub mod laws;
mod reading;
mod scanning;

pub use answering::do_scans;
pub use scanning::answer_scans;
