//! The plan of an election, its limits and its arithmetic, and the plain types that all crates share.
#![tactic(auto)]

mod arithmetic;
mod ballot_index;
mod ballots;
mod codes;
mod copies;
mod fates;
mod index_reads;
mod index_tables;
mod items;
pub mod laws;
pub mod limits;
mod memory;
mod names;
mod plan;
mod run_numbers;
mod same;
mod word;

pub use ballot_index::BallotIndex;
pub use codes::codes_of;
pub use copies::{copy_paper, copy_races, copy_words};
pub use items::Items;
pub use limits::{PlanFault, is_race_head, is_run, is_style};
pub use memory::NoMemory;
pub use names::{is_name, is_new_name};
pub use plan::{ClaimWord, Draw, Fate, Mark, Paper, Plan, Race, Run, Side, Stage, Style};
pub use run_numbers::RunNumbers;
pub use same::{same_races, same_words};
pub use word::Word;
