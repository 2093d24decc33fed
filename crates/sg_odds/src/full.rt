//! Which row of a race isn't full.
ghost use Rattle.std.specs.Prelude.{◌≡◌, ℕ, ◌<◌, ◌||◌, Bool, IfOk, None, Some, length, slice_get};
ghost use Rattle.sg_check.specs.Facts.{points_to};
ghost use Rattle.sg_odds.specs.inside.Lacking.{IsFirstOfInstance, IsFirstOfRace, lacks_in};
ghost use Rattle.sg_parts.specs.Given.{completion_of};
ghost use Rattle.sg_plan.specs.Ballots.{entries_of};

use sg_commit::Opening;
use sg_parts::{At, Half, Parts, given_half};
use sg_plan::{Items, NoMemory, Side};
use std::alloc::Global;

/// A row of a race.
#[derive(Clone, Copy, Debug, PartialEq, Eq)]
pub(crate) struct RowIndex {
    /// The instance's number.
    pub instance: u32,
    /// The row's number.
    pub row: u32,
}

/// Notes the pointer of a half. It is lacking where there is none, or one that has no place or was noted before.
fn note_pointer(seen: &mut Items<bool>, half: Option<Opening>) -> bool
    ensures long { length seen.new ≡ length seen.old }
    ensures lacking { result ≡ lacks_in seen.old half }
    ensures puts { (pointer : ℕ) (was : Bool) → slice_get seen.old pointer ≡ Some was → slice_get seen.new pointer ≡ Some (was || points_to pointer half) }
{
    let Some(opening) = half else {
        return true;
    };
    let at = opening.value as usize;
    if at >= seen.len() {
        return true;
    }
    seen.replace(at, true)
}

/// The opening that the completion has of a half, or none.
pub(crate) fn given_in(parts: &Parts, half: Half) -> Option<Opening>
    ensures { result ≡ completion_of parts.now.rows half.side half.at.race half.at.instance half.at.row }
{
    given_half(&parts.completion().rows, half)
}

/// How many rows an instance of the race has.
pub(crate) fn rows_in(parts: &Parts, race: u32) -> u32
    requires { race < length parts.now.posted.plan.races }
    ensures { result ≡ entries_of parts.now.posted.plan race }
{
    parts.index().plan().entries(race)
}

/// The first row of an instance that is lacking a pointer.
fn first_of_instance(
    alloc: Global,
    parts: &Parts,
    race: u32,
    instance: u32,
) -> Result<Option<u32>, NoMemory>
    requires { race < length parts.now.posted.plan.races }
    ensures { IfOk result (λ found. IsFirstOfInstance parts.now.posted.plan (completion_of parts.now.rows) race instance found) }
{
    let count = rows_in(parts, race);
    let mut lefts = Items::filled(alloc, false, count as usize)?;
    let mut rights = Items::filled(alloc, false, count as usize)?;
    for row in 0..count {
        let at = At {
            race,
            instance,
            row,
        };
        let left = note_pointer(&mut lefts, given_in(parts, at.on(Side::Left)));
        let right = note_pointer(&mut rights, given_in(parts, at.on(Side::Right)));
        if left || right {
            return Ok(Some(row));
        }
    }
    Ok(None)
}

/// The first row of a race that is lacking a pointer.
pub(crate) fn first_of_race(
    alloc: Global,
    parts: &Parts,
    race: u32,
) -> Result<Option<RowIndex>, NoMemory>
    requires { race < length parts.now.posted.plan.races }
    ensures { IfOk result (λ found. IsFirstOfRace parts.now.posted.plan (completion_of parts.now.rows) race found) }
{
    for instance in 0..parts.index().plan().instances {
        if let Some(row) = first_of_instance(alloc, parts, race, instance)? {
            return Ok(Some(RowIndex { instance, row }));
        }
    }
    Ok(None)
}
