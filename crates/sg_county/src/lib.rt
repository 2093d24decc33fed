//! The answer on a county: several records audited as one, with their totals added.
#![tactic(auto)]

mod ending;
mod kept;
mod last;
mod laws;
mod reading;
mod seals;
mod sums;
mod tally;
mod verdict;

pub use laws::{one_county_law, sums_law};
pub use reading::county;
pub use tally::Tally;
pub use verdict::CountyVerdict;
