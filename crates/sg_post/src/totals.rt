//! The totals of candidates, made from places, and from the fates of ballots alone.
ghost use Rattle.std.specs.Prelude.{◌≡◌, ◌+◌, ◌-◌, ◌<◌, ◌^◌, true, length, map, slice_index_or, slice_set, IfOk};
ghost use Rattle.sg_streams.specs.Numbers.{numbers_below};
ghost use Rattle.sg_post.specs.Fits.{fates_fit};
ghost use Rattle.sg_post.specs.Marks.{total_of};
ghost use Rattle.sg_post.specs.Posted.{by_candidate};
ghost use Rattle.sg_post.specs.inside.Making.{HaveEntries, race_totals_by, total_by, votes_by};

use crate::ballot_marks::mark_races;
use crate::counts::{count_entries, count_races};
use crate::making::place_races;
use crate::story::Told;
use sg_plan::{BallotIndex, Items, NoMemory};
use sg_tables::Tables;
use std::alloc::Global;

/// The totals of all races, by candidate, that these fates make of the tables.
///
/// They are those of a posting of the same fates, made without flags, rows of instances or claims: in the time of the
/// ballots in their races, the marks and the entries. It takes a byte for each entry and each place, gives them back,
/// and refuses for want of memory alone.
pub fn total_fates(
    alloc: Global,
    tables: &Tables,
    index: &BallotIndex,
    fates: &Items<Told>,
) -> Result<Items<Items<u32>>, NoMemory>
    requires index { index.now ≡ tables.now.plan }
    requires fits { fates_fit tables.now.plan 0 fates.now ≡ true }
    ensures { IfOk result (λ totals. totals ≡ by_candidate tables.now.plan (total_of tables.now.plan tables.now.seed fates.now)) }
{
    let marks = mark_races(alloc, tables, index, fates)?;
    let places = place_races(alloc, tables, &marks)?;
    total_races(alloc, tables, &places)
}

/// The totals of all races, by their places.
pub(crate) fn total_races(
    alloc: Global,
    tables: &Tables,
    places: &Items<Items<bool>>,
) -> Result<Items<Items<u32>>, NoMemory>
    requires { HaveEntries tables.now.plan places.now }
    ensures { IfOk result (λ totals. totals ≡ map (race_totals_by tables.now.plan places.now) (numbers_below (length tables.now.plan.races))) }
{
    let count = count_races(tables);
    let mut totals = Items::with_room(alloc, count as usize)?;
    for race in 0..count {
        totals.push(total_race(alloc, tables, race, places)?)?;
    }
    Ok(totals)
}

/// The totals of a race's candidates.
fn total_race(
    alloc: Global,
    tables: &Tables,
    race: u32,
    places: &Items<Items<bool>>,
) -> Result<Items<u32>, NoMemory>
    requires race { race < length tables.now.plan.races }
    requires places { HaveEntries tables.now.plan places.now }
    ensures { IfOk result (λ totals. totals ≡ race_totals_by tables.now.plan places.now race) }
{
    let candidates = tables.plan().candidates(race) as u32;
    let _ = count_entries(tables, race);
    total_candidates(alloc, places.get(race as usize), candidates)
}

/// The totals of so many candidates.
fn total_candidates(
    alloc: Global,
    places: &Items<bool>,
    candidates: u32,
) -> Result<Items<u32>, NoMemory>
    requires few { length places.now < 2 ^ 32 }
    requires some { 0 < candidates }
    ensures { IfOk result (λ totals. totals ≡ map (total_by places.now candidates) (numbers_below candidates)) }
{
    let mut totals = Items::filled(alloc, 0, candidates as usize)?;
    count_votes(places, candidates, &mut totals);
    Ok(totals)
}

/// Counts the places that are set, each for the candidate in whose column it is.
fn count_votes(places: &Items<bool>, candidates: u32, totals: &mut Items<u32>)
    requires few { length places.now < 2 ^ 32 }
    requires some { 0 < candidates }
    requires none { totals.old ≡ votes_by places.now candidates 0 }
    ensures { totals.new ≡ map (total_by places.now candidates) (numbers_below candidates) }
{
    for place in 0..places.len() as u32 {
        let is_set = *places.get(place as usize);
        if !is_set {
            continue;
        }
        count_vote(totals, (place % candidates) as usize);
    }
}

/// Counts one more vote for a candidate.
fn count_vote(totals: &mut Items<u32>, candidate: usize)
    requires inside { candidate < length totals.old }
    requires room { slice_index_or totals.old candidate 0 + 1 < 2 ^ 32 }
    ensures { totals.new ≡ slice_set totals.old candidate (slice_index_or totals.old candidate 0 + 1) }
{
    let count = *totals.get(candidate);
    totals.replace(candidate, count + 1);
}
