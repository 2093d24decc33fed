//! The desks of an office: the texts of acts, the papers of ballots, what is posted of them, and the answers to claims.
//!
//! An act has one text, and the text of an act is that of no other. Offices keep acts as their texts, and tell by them
//! whether an ask was accepted before.
#![tactic(auto)]

mod claims;
pub mod laws;
mod papers;
mod races;
mod reading;
mod writing;

pub use claims::{claim_word, posted_codes};
pub use papers::paper_matches;
pub use races::know_race;
pub use reading::act_of;
pub use writing::{act_text, draw_text, marks_text, paper_text};
