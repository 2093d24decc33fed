//! What stands in the lists of a record.
ghost use Rattle.std.specs.Option.{option_map_or};
ghost use Rattle.std.specs.Prelude.{◌≡◌, false};
ghost use Rattle.sg_check.specs.Completions.{posted_half};
ghost use Rattle.sg_record.specs.Places.{places_in};
ghost use Rattle.sg_facts.specs.Items.{item_in, row_in};

use sg_commit::Opening;
use sg_parts::{At, Half, item_at, posted_half, row_at};
use sg_record::Record;

/// What the record posts of a half.
pub(crate) fn posted_of(posted: &Record, half: Half) -> Option<Opening>
    ensures { result ≡ posted_half (places_in posted.now) half.side half.at.race half.at.instance half.at.row }
{
    posted_half(posted, half)
}

/// The flag of a row.
pub(crate) fn flag_at(posted: &Record, at: At) -> bool
    ensures { result ≡ option_map_or (λ flag. flag) (row_in posted.now.flags at.race at.instance at.row) false }
{
    match row_at(&posted.flags, at) {
        Some(flag) => flag,
        None => false,
    }
}

/// The bit of a place.
pub(crate) fn place_at(posted: &Record, race: u32, place: u32) -> bool
    ensures { result ≡ option_map_or (λ bit. bit) (item_in posted.now.places race place) false }
{
    match item_at(&posted.places, race, place) {
        Some(bit) => bit,
        None => false,
    }
}

/// The total of a candidate.
pub fn total_at(posted: &Record, race: u32, candidate: u32) -> u32
    ensures { result ≡ option_map_or (λ total. total) (item_in posted.now.totals race candidate) 0 }
{
    match item_at(&posted.totals, race, candidate) {
        Some(total) => total,
        None => 0,
    }
}
