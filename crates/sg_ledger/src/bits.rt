//! Flags, places and votes.
ghost use Rattle.std.specs.Prelude.{◌≡◌, ℕ, ◌+◌, ◌<◌, ◌≤◌, ◌^◌, ◌&&◌, nat_lt, IfOk, None, false, length, replicate, slice_index_or};
ghost use Rattle.std.specs.Option.{option_map_or};
ghost use Rattle.sg_check.specs.Kinds.{differ};
ghost use Rattle.sg_ledger.specs.inside.Tables.{with_bits, with_votes};
ghost use Rattle.sg_plan.specs.Ballots.{all_entries, entries_of, entry_place};

use crate::book::Book;
use crate::tables::{count_vote, look, set_bits};
use sg_commit::Opening;
use sg_plan::{Items, NoMemory};
use std::alloc::Global;

/// The flags and the places that were posted.
#[derive(Debug, Drop)]
pub struct Bits {
    /// The rows that are flagged.
    pub flagged: Items<bool>,
    /// The places that are set.
    pub places: Items<bool>,
    /// How many places of each candidate are set.
    pub votes: Items<u64>,
}

impl Bits {
    /// Nothing is posted yet, of so many entries, rows and candidates.
    pub fn make(
        alloc: Global,
        entries: usize,
        rows: usize,
        candidates: usize,
    ) -> Result<Bits, NoMemory>
        ensures flagged { IfOk result (λ made. made.flagged ≡ replicate rows false) }
        ensures places { IfOk result (λ made. made.places ≡ replicate entries false) }
        ensures votes { IfOk result (λ made. made.votes ≡ replicate candidates 0) }
    {
        let flagged = Items::filled(alloc, false, rows)?;
        let places = Items::filled(alloc, false, entries)?;
        let votes = Items::filled(alloc, 0, candidates)?;
        Ok(Bits {
            flagged,
            places,
            votes,
        })
    }

    /// Keeps bits of the places of a race, the first of which is the place `from` and stands at `at`, and counts the
    /// votes of the race's candidates, which stand from `first` on.
    pub fn keep_places(
        &mut self,
        at: usize,
        first: usize,
        candidates: usize,
        from: usize,
        bits: &[u8],
    )
        requires few_places { at + length bits.now < 2 ^ 32 }
        requires few_votes { first + candidates < 2 ^ 32 }
        requires places { at + length bits.now ≤ length self.old.places }
        requires some { 0 < candidates }
        requires few { from + length bits.now < 2 ^ 32 }
        requires votes { first + candidates ≤ length self.old.votes }
        ensures flagged { self.new.flagged ≡ self.old.flagged }
        ensures places { self.new.places ≡ with_bits self.old.places at bits.now }
        ensures votes { self.new.votes ≡ with_votes candidates first self.old.votes from bits.now }
    {
        set_bits(&mut self.places, at, bits);
        count_votes(&mut self.votes, first, candidates, from, bits);
    }
}

/// Counts a vote for the candidate of each place whose bit is a `1`. The first bit is of the place `from`.
fn count_votes(votes: &mut Items<u64>, first: usize, candidates: usize, from: usize, bits: &[u8])
    requires some { 0 < candidates }
    requires few_votes { first + candidates < 2 ^ 32 }
    requires few { from + length bits.now < 2 ^ 32 }
    requires votes { first + candidates ≤ length votes.old }
    ensures { votes.new ≡ with_votes candidates first votes.old from bits.now }
{
    for (place, bit) in bits.iter().enumerate() {
        if *bit == b'1' {
            count_vote(votes, first + (from + place) % candidates);
        }
    }
}

/// The row of a pointer below n is flagged, and its entry or place is not set; or the other way round.
pub fn is_flag_wrong(
    table: &Items<bool>,
    book: &Book,
    race: u32,
    flag: bool,
    opening: Option<Opening>,
) -> bool
    requires table { length table.now ≡ all_entries book.now }
    requires race { race < length book.now.races }
    ensures { result ≡ option_map_or (λ o. nat_lt o.value (entries_of book.now race) && differ flag (slice_index_or table.now (entry_place book.now race o.value) false)) opening false }
{
    let Some(opening) = opening else {
        return false;
    };
    if opening.value >= book.entries(race) {
        return false;
    }
    flag != look(table, book.entry_place(race, opening.value))
}
