//! Offices are asked, case by case, and their replies told.
//!
//! Each case has an office and a keeper in memory of its own. The script names the keeper's calls that fail, so a case
//! may show what is answered, and what is kept, where the keeper fails at one act or another.
mod cases;
mod lines;

pub(crate) use cases::tell;
