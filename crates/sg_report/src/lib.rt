//! The report of a verdict, as text: `yes` and the totals, or the first bad line and what is wrong there.
#![tactic(auto)]

mod report;

pub use report::{add_bytes, add_decimal, write_no, write_report, write_yes};
