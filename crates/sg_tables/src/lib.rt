//! The tables P, Q, R and S of an election, which an office draws from its seed: the codes on paper,
//! the shuffled entries, the places of votes, the pointers to both, and what opens their commitments.
#![tactic(auto)]

mod drawing;
pub mod laws;
mod opening_walks;
mod posts;
mod purposes;
mod race_lists;
mod table_set;

pub use opening_walks::{QOpenings, RowOpenings};
pub use table_set::Tables;
