//! What the streams of an office's seed are for.

/// The codes of a ballot row. The index is the ballot row.
pub const CODES: u32 = 1;

/// The order of a ballot row's columns. The index is the ballot row.
pub const COLUMNS: u32 = 2;

/// The order of a candidate's places. The index is the candidate.
pub const PLACES: u32 = 3;

/// The order of an instance's rows. The index is the instance.
pub const ROWS: u32 = 4;

/// The keys of table Q. The index is 0, and the item is the entry.
pub const ENTRY_KEYS: u32 = 5;

/// The keys of left pointers. The index is the instance, and the item is the row.
pub const LEFT_KEYS: u32 = 6;

/// The keys of right pointers. The index is the instance, and the item is the row.
pub const RIGHT_KEYS: u32 = 7;
