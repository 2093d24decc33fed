//! The grammar of the public record: which line may stand after the lines before it.
#![tactic(auto)]

mod body;
mod counted;
mod expecting;
mod head;
pub mod laws;
mod placed;
mod placing;
mod reading;
mod slots;
mod state;

pub use body::Standing;
pub use expecting::Expect;
pub use placed::PlacedLine;
pub use reading::read_line;
pub use sg_forms::{CodeLine, Line, RowOpening};
pub use state::{Block, Head, Part, Slot};
