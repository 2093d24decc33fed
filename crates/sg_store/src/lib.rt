//! The office's rows in a database: a keeper over any store of the crate `sqlite`.
//!
//! Six tables have the rows, one for each list of them and one for the setup. The statement texts stand
//! where they are run. A change is one transaction of two inserts, so a crash leaves both rows or none.
#![tactic(auto)]

mod keeper;
pub mod laws;
mod loads;
mod reads;
mod tables;
mod texts;
mod writes;

pub use keeper::SqlKeeper;
