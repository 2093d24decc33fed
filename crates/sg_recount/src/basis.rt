//! What a recount looks into.

use sg_parts::RowGiven;
use sg_plan::Items;
use sg_record::Record;

/// What a recount looks into.
#[derive(Clone, Copy)]
pub(crate) struct Basis<'a> {
    /// The record.
    pub posted: &'a Record,
    /// The codes of the printing, by race, ballot row and candidate.
    pub lists: &'a Items<Items<Items<u16>>>,
    /// The openings of the completion, by race, instance and row.
    pub rows: &'a Items<Items<Items<RowGiven>>>,
    /// The code of each marked entry, by race and entry.
    pub marked: &'a Items<Items<Option<u16>>>,
}
