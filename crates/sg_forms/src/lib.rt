//! The forms of a line of the public record: their words, their one spelling, and how a line is read.
#![tactic(auto)]

mod ballots;
mod draw;
mod kinds;
pub mod laws;
mod line;
mod lists;
mod parts;
mod plan;
mod read;
mod results;
mod rows;
mod types;
mod words;
mod write;

pub use draw::draw_bytes;
pub use line::{CodeLine, Line, RowCommitLine, RowOpening};
pub use read::{read_code_commit, read_form, read_row, read_row_commit};
pub use types::{know_bytes, know_digest, know_key, know_line, know_numbers, know_row};
pub use write::write_line;
