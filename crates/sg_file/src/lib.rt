//! The keeper over `office.db` in the current folder, and why a call over it failed.
//!
//! The rows are kept by `sg_store`. What stands here is which file is opened and when one is made, who may read it, and
//! what is said where a call fails.
#![tactic(auto)]

mod causes;
mod folder;
mod keeper;
mod opening;
mod telling;

pub use causes::{Cause, Trouble};
pub use keeper::FileKeeper;
