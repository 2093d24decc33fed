//! The system: standard input and output, the words after the program's name, the status to end with and the line that says
//! why, connections of this machine, and the descriptors that all of these stand on.
//!
//! What stands here counts its faults and keeps the cause of the last one. It tells nothing of its bytes.
#![tactic(auto)]

mod causes;
mod descriptors;
mod gate;
mod held_output;
mod leaving;
mod status;
mod streams;
mod talk;
mod tcp_links;
mod watch;
mod words;

pub use crate::causes::{Detail, say, say_why, stream_detail};
pub use crate::descriptors::Descriptors;
pub use crate::held_output::output;
pub use crate::status::ending;
pub use crate::streams::{StdSink, StdSource};
pub use crate::tcp_links::TcpLinks;
pub use crate::words::{WordFault, words_of};
