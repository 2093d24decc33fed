//! The program's commands, over any source, keeper, links and sink.
#![tactic(auto)]

mod program;
mod work;

pub use program::run;
