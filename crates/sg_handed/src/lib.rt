//! What a court is handed of the office that is kept: the command that writes the openings of all its rows.
#![tactic(auto)]

mod handing;

pub use handing::answer_openings;
