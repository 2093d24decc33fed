//! One request on each connection: it is read, answered by the office or refused, and the connection is finished.
#![tactic(auto)]

mod asking;
mod body;
mod desk;
mod fields;
mod heads;
mod hearing;
pub mod laws;
mod refusal;
mod routes;
mod serving;
mod texts;

pub use crate::desk::Desk;
pub use crate::serving::Served;
