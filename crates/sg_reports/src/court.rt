//! What a court asks of a record with a printing and a completion: the commands `recount` and `odds`.

mod answer;
mod answering;
mod exponents;
mod faults;
mod findings;
mod found;
mod hearing;
mod judges;
mod record;
mod texts;

pub use answering::{answer_odds, answer_recount};
