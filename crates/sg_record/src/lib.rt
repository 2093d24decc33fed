//! A public record as a whole: its lists, its one text, and how it is read and written.
#![tactic(auto)]

mod blocks;
mod commits;
mod formed;
mod head;
mod last;
pub mod laws;
mod lines;
mod listed;
mod lists;
mod nested;
mod one_line;
mod openings;
mod pen;
mod posts;
mod read;
mod record;
mod results;
mod typed;
mod write;

pub use blocks::{put_dispute, put_papers};
pub use commits::{put_code_commit, put_row_commit};
pub use formed::is_draw;
pub use openings::put_row;
pub use pen::Pen;
pub use posts::Posts;
pub use read::{RecordReading, read_record};
pub use record::{BallotBlock, BlockFate, CastLine, DisputeBlock, Record, RowCommit};
pub use sg_forms::{CodeLine, Line, RowOpening, write_line};
pub use sg_grammar::{Expect, read_line};
pub use typed::{know_types, know_words};
pub use write::{Wrote, put_stage, write_plan, write_record};
