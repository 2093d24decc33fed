//! The lists of a race that the tables keep.
use sg_plan::Items;

/// What is kept of a race's tables. It has `K` candidates.
#[derive(Drop)]
pub struct RaceLists {
    /// `K`.
    pub candidates: u32,
    /// The codes by ballot row and candidate: that of candidate `j` in row `b` stands at `b · K + j`.
    pub codes: Items<u16>,
    /// The candidate that each entry shows.
    pub shown: Items<u32>,
    /// The inverse of `shown`: the column of candidate `j` in ballot row `b` stands at `b · K + j`.
    pub columns: Items<u32>,
    /// For each candidate, and in it for each ballot row, the row of its place.
    pub place_rows: Items<Items<u32>>,
    /// For each instance, and in it for each row, the left pointer.
    pub lefts: Items<Items<u32>>,
}
