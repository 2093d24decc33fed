//! The office: it accepts scans, spoiled ballots, print audits, voids, the close, the draw and claims, each once.
#![tactic(auto)]

mod accepting;
mod answering;
mod done_list;
mod fresh;
mod keeping;
mod looks;
mod marks;
mod office;
mod opening;
mod papers;
mod ready;
mod refusals;
mod run;
mod slots;
mod stamps;
mod stories;

pub use done_list::DoneList;
pub use office::Office;
pub use sg_open::OpenFault;
