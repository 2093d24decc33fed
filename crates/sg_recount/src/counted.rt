//! How many rows of an instance have each pointer.
ghost use Rattle.std.specs.Prelude.{◌≡◌, ℕ, ◌+◌, ◌<◌, ◌≤◌, if◌then◌else◌, IfOk, Some, length, slice_get};
ghost use Rattle.sg_plan.specs.Limits.{most_rows};
ghost use Rattle.sg_check.specs.Facts.{points_to};
ghost use Rattle.sg_recount.specs.inside.Basis.{AreCounts, IsBasis, plan_in};

use crate::basis::Basis;
use sg_commit::Opening;
use sg_parts::{At, Half, given_half};
use sg_plan::{Items, NoMemory, Side};
use std::alloc::Global;

/// Counts the pointer of a half, if it has one that is below the count of rows.
fn note_half(counts: &mut Items<u32>, half: Option<Opening>)
    requires { (pointer count : ℕ) → slice_get counts.old pointer ≡ Some count → count ≤ most_rows }
    ensures long { length counts.new ≡ length counts.old }
    ensures puts { (pointer count : ℕ) → slice_get counts.old pointer ≡ Some count → slice_get counts.new pointer ≡ Some (count + (if points_to pointer half then 1 else 0)) }
{
    if let Some(opening) = half {
        let at = opening.value as usize;
        if at < counts.len() {
            let count = *counts.get(at);
            counts.replace(at, count + 1);
        }
    }
}

/// How many rows of an instance have each pointer on this side.
pub(crate) fn count_pointers(
    alloc: Global,
    basis: &Basis<'_>,
    side: Side,
    race: u32,
    instance: u32,
) -> Result<Items<u32>, NoMemory>
    requires basis { IsBasis basis.now }
    requires race { race < length (plan_in basis.now).races }
    ensures { IfOk result (λ counts. AreCounts basis.now side race instance counts) }
{
    sg_plan::laws::bounds_law();
    let count = basis.posted.plan.entries(race);
    let mut counts = Items::filled(alloc, 0, count as usize)?;
    for row in 0..count {
        let at = At {
            race,
            instance,
            row,
        };
        note_half(&mut counts, given_half(basis.rows, Half { side, at }));
    }
    Ok(counts)
}
