//! What an office's clerk asks of the program: the command that sets an office up, and those that open it over its
//! keeper.
#![tactic(auto)]

mod asker;
mod asking;
mod begun;
pub mod calls;
mod conversing;
mod ended;
mod filling;
pub mod laws;
mod lines;
mod office;
mod opened;
mod posted;
mod printing;
mod refusal;
pub mod scans;
mod talk;

pub use asker::{Asker, Stop};
pub use asking::answer_asks;
pub use begun::init;
pub use conversing::converse;
pub use ended::{Ending, Unfit, put_line, refuse, write_answer};
pub use filling::fill;
pub use office::open_office;
pub use posted::record;
pub use printing::sheet;
pub use refusal::Refusal;
pub use talk::do_lines;
