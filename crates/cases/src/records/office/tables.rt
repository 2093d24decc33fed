//! The tables of a small office with one race, by formulas in place of a seed.
//!
//! Entry `q` is column `q mod 2` of ballot row `q div 2`, and place `s` is row `s div 2` of candidate `s mod 2`. There
//! are 16 entries, 16 places, and 16 rows in each instance.
ghost use Rattle.std.specs.Prelude.{◌<◌};

use super::Exchange;
use sg_commit::{CommitKind, Key};

/// How many ballots there are.
pub(super) const BALLOTS: u32 = 8;

/// How many candidates the race has.
pub(super) const CANDIDATES: u32 = 2;

/// How many entries there are: as many as places, and as rows in each instance.
pub(super) const ENTRIES: u32 = BALLOTS * CANDIDATES;

/// How many instances there are.
pub(super) const INSTANCES: u16 = 3;

/// The ballot row whose vote for candidate 0 is moved: that of ballot 1.
const MOVED_ROW: u32 = 0;

/// The ballot row whose place of candidate 1 takes that vote: that of ballot 7, which is not used.
const TAKING_ROW: u32 = 6;

/// The code of entry 0.
const FIRST_CODE: u32 = 101;

/// By how much the code of each next entry is higher.
const CODE_STEP: u32 = 53;

/// By how many rows of table S each next ballot row leads further. It is odd, so that each row is led to once.
const PLACE_STEP: u32 = 3;

/// By how many rows of table S candidate 1 is led further than candidate 0.
const PLACE_SHIFT: u32 = 5;

/// By how much the left pointer of each next row is higher. It is odd, so that each entry is pointed to once.
const LEFT_STEP: u32 = 5;

/// By how much the left pointers of each next instance are higher.
const LEFT_SHIFT: u32 = 3;

/// The candidate that an entry shows: the columns of each second ballot row are turned.
pub(super) fn shown(entry: u32) -> u32
    ensures { result < CANDIDATES }
{
    (entry / CANDIDATES % CANDIDATES + entry % CANDIDATES) % CANDIDATES
}

/// The entry of a ballot row that shows the candidate.
pub(super) fn entry_of(ballot_row: u32, candidate: u32) -> u32 {
    let column = (ballot_row % CANDIDATES + candidate % CANDIDATES) % CANDIDATES;
    ballot_row % BALLOTS * CANDIDATES + column
}

/// The code of an entry. It is also that on the paper, beside the candidate whom the entry shows.
pub(super) fn code_of(entry: u32) -> u16 {
    (FIRST_CODE + CODE_STEP * (entry % ENTRIES)) as u16
}

/// The place to which an entry leads by its path: one of the candidate whom it shows. The ballot rows are shuffled for
/// each candidate in another way.
fn path(entry: u32) -> u32 {
    let candidate = shown(entry);
    let place_row = (PLACE_STEP * (entry / CANDIDATES % BALLOTS) + PLACE_SHIFT * candidate)
        % BALLOTS;
    place_row * CANDIDATES + candidate
}

/// The entry with which this one exchanges its place, where an office does so: itself, but for two of them. These are
/// the entry whose vote is moved, and the one that owns the place which takes it.
fn other_of(entry: u32) -> u32 {
    let moved = entry_of(MOVED_ROW, 0);
    let taking = entry_of(TAKING_ROW, 1);
    if entry == moved {
        taking
    } else if entry == taking {
        moved
    } else {
        entry
    }
}

/// The place to which an office leads an entry in an instance.
pub(super) fn place_of(exchange: Exchange, instance: u16, entry: u32) -> u32 {
    let is_exchanged = match exchange {
        Exchange::Nowhere => false,
        Exchange::In(only) => instance == only,
        Exchange::Everywhere => true,
    };
    if is_exchanged {
        path(other_of(entry))
    } else {
        path(entry)
    }
}

/// The left pointer of a row.
pub(super) fn left_pointer(instance: u16, row: u32) -> u32 {
    (LEFT_STEP * (row % ENTRIES) + LEFT_SHIFT * u32::from(instance)) % ENTRIES
}

/// The key of an item: an entry, or a row of an instance.
pub(super) fn key_of(kind: CommitKind, instance: u16, item: u32) -> Key {
    let mut bytes = match kind {
        CommitKind::Q => [b'Q'; 16],
        CommitKind::L => [b'L'; 16],
        CommitKind::R => [b'R'; 16],
    };
    bytes[10..12].copy_from_slice(&instance.to_be_bytes());
    bytes[12..].copy_from_slice(&item.to_be_bytes());
    Key(bytes)
}
