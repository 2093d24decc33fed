//! The answer on a county.
use sg_check::{Kind, Total};
use sg_plan::Items;

/// The answer on a county. Parts and lines count from 1.
#[derive(Debug, Drop)]
pub enum CountyVerdict {
    /// Each part is good; the sums of their totals, by race and candidate.
    Yes(Items<Total>),
    /// A part's record is bad.
    No {
        /// The number of the part.
        part: u32,
        /// The number of the line in it.
        line: u32,
        /// What it is bad in.
        kind: Kind,
    },
    /// This part has other races than the first.
    Differs(u32),
    /// This part has the seal of an earlier one.
    Repeats {
        /// The number of the part.
        part: u32,
        /// The number of the first part with that seal.
        other: u32,
    },
    /// There are more parts than 100.
    Parts,
}
