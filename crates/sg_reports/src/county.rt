//! The command `county`: the records of a county's parts are read one after another, audited as one, and their sums are
//! reported.

mod counter;
mod counting;
mod report;

pub use counting::count_county;
