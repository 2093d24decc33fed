//! The commands of who only audits: they read a record, alone or with what stands behind it, and write what follows from it. None
//! of them opens an office.
#![tactic(auto)]

pub mod audit;
pub mod county;
pub mod court;
mod program;
mod report;
mod standing;

pub use program::run_reports;
pub use report::{Report, report_of, write_report};
