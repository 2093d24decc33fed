//! The words after the program's name, the command that they ask for, and the line that names the words of all commands.
//!
//! One table has the words of each command. The command that words ask for is looked up in it, and the line is put together
//! from it.
#![tactic(auto)]

mod asked;
mod command;
mod laws;
mod number;
mod sample;
mod service;
mod table;
mod usage_line;

pub use asked::command_of;
pub use command::Command;
pub use laws::commands_have_words_law;
pub use sample::{Sample, sample_of};
pub use service::Service;
pub use usage_line::{report_usage, usage};
