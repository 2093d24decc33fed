//! Which rows are altered.
ghost use Rattle.std.specs.Prelude.{◌≡◌, ◌<◌, IfOk, Some, length};
ghost use Rattle.sg_check.specs.Completions.{IsHalfOf, is_altered, is_half_altered, is_misprinted, is_row_misprinted, is_unopened, is_wrong_pointer};
ghost use Rattle.sg_check.specs.Kinds.{is_counted};
ghost use Rattle.sg_plan.specs.Ballots.{entries_of};
ghost use Rattle.sg_plan.specs.declared.plan.Side.TheVariants.{Left, Right};
ghost use Rattle.sg_recount.specs.Findings.{all_altered, altered_in, race_altered};
ghost use Rattle.sg_recount.specs.inside.Basis.{AreCounts, IsBasis, completion_in, lines_in, plan_in, printing_in};

use crate::basis::Basis;
use crate::counted::count_pointers;
use crate::looks::{flag_at, place_at, posted_of};
use sg_commit::Opening;
use sg_parts::{At, Half, entry_code, given_half, posted_half, printed_code};
use sg_plan::{Items, NoMemory, Side};
use std::alloc::Global;

/// The entry that a left pointer leads to is marked, or the place that a right pointer leads to is set.
fn is_counted(basis: &Basis<'_>, on: Side, race: u32, pointer: u32) -> bool
    requires basis { IsBasis basis.now }
    requires race { race < length (plan_in basis.now).races }
    requires pointer { pointer < entries_of (plan_in basis.now) race }
    ensures { result ≡ is_counted (plan_in basis.now) (lines_in basis.now) on race pointer }
{
    match on {
        Side::Left => entry_code(basis.marked, race, pointer).is_some(),
        Side::Right => place_at(basis.posted, race, pointer),
    }
}

/// The pointer of the row is wrong. So many rows have each pointer.
fn wrong_pointer(basis: &Basis<'_>, counts: &Items<u32>, half: Half, opening: &Opening) -> bool
    requires basis { IsBasis basis.now }
    requires half { IsHalfOf (plan_in basis.now) half.at.race half.at.instance half.at.row }
    requires counts { AreCounts basis.now half.side half.at.race half.at.instance counts.now }
    requires given { completion_in basis.now half.side half.at.race half.at.instance half.at.row ≡ Some opening.now }
    ensures { result ≡ is_wrong_pointer (plan_in basis.now) (lines_in basis.now) (completion_in basis.now) half.side half.at.race half.at.instance half.at.row opening.now.value }
{
    if opening.value >= basis.posted.plan.entries(half.at.race) {
        return true;
    }
    if *counts.get(opening.value as usize) > 1 {
        return true;
    }
    let counted = is_counted(basis, half.side, half.at.race, opening.value);
    if flag_at(basis.posted, half.at) {
        !counted
    } else {
        counted
    }
}

/// The half is unopened, and has no opening or one with a wrong pointer.
fn half_altered(basis: &Basis<'_>, counts: &Items<u32>, half: Half) -> bool
    requires basis { IsBasis basis.now }
    requires half { IsHalfOf (plan_in basis.now) half.at.race half.at.instance half.at.row }
    requires counts { AreCounts basis.now half.side half.at.race half.at.instance counts.now }
    ensures { result ≡ is_half_altered (plan_in basis.now) (lines_in basis.now) (completion_in basis.now) half.side half.at.race half.at.instance half.at.row }
{
    if posted_half(basis.posted, half).is_some() {
        return false;
    }
    match given_half(basis.rows, half) {
        None => true,
        Some(opening) => wrong_pointer(basis, counts, half, &opening),
    }
}

/// The marked entry's code isn't printed beside the candidate of the place.
fn is_misprinted(basis: &Basis<'_>, race: u32, left: &Opening, right: &Opening) -> bool
    requires basis { IsBasis basis.now }
    requires race { race < length (plan_in basis.now).races }
    ensures { result ≡ is_misprinted (plan_in basis.now) (lines_in basis.now) (printing_in basis.now) race left.now right.now }
{
    sg_plan::laws::bounds_law();
    let count = basis.posted.plan.entries(race);
    if left.value >= count {
        return false;
    }
    if right.value >= count {
        return false;
    }
    match entry_code(basis.marked, race, left.value) {
        None => false,
        Some(code) => {
            let candidates = basis.posted.plan.candidates(race) as u32;
            let row = left.value / candidates;
            printed_code(basis.lists, race, row, right.value % candidates) != code
        }
    }
}

/// The same of the pointers that are given of a row.
fn row_misprinted(basis: &Basis<'_>, at: At) -> bool
    requires basis { IsBasis basis.now }
    requires race { at.race < length (plan_in basis.now).races }
    ensures { result ≡ is_row_misprinted (plan_in basis.now) (lines_in basis.now) (completion_in basis.now) (printing_in basis.now) at.race at.instance at.row }
{
    match given_half(basis.rows, at.on(Side::Left)) {
        None => false,
        Some(left) => match given_half(basis.rows, at.on(Side::Right)) {
            None => false,
            Some(right) => is_misprinted(basis, at.race, &left, &right),
        },
    }
}

/// A half of the row is unopened.
fn is_unopened(basis: &Basis<'_>, at: At) -> bool
    ensures { result ≡ is_unopened (lines_in basis.now) at.race at.instance at.row }
{
    let side = Side::Left;
    if posted_of(basis.posted, Half { side, at }).is_none() {
        return true;
    }
    let other = Side::Right;
    posted_of(basis.posted, Half { side: other, at }).is_none()
}

/// The row is altered. So many rows have each pointer on either side.
fn is_altered(basis: &Basis<'_>, lefts: &Items<u32>, rights: &Items<u32>, at: At) -> bool
    requires basis { IsBasis basis.now }
    requires half { IsHalfOf (plan_in basis.now) at.race at.instance at.row }
    requires lefts { AreCounts basis.now Left at.race at.instance lefts.now }
    requires rights { AreCounts basis.now Right at.race at.instance rights.now }
    ensures { result ≡ is_altered (plan_in basis.now) (lines_in basis.now) (completion_in basis.now) (printing_in basis.now) at.race at.instance at.row }
{
    let side = Side::Left;
    if half_altered(basis, lefts, Half { side, at }) {
        return true;
    }
    let side = Side::Right;
    if half_altered(basis, rights, Half { side, at }) {
        return true;
    }
    is_unopened(basis, at) && row_misprinted(basis, at)
}

/// The altered rows of an instance, rising.
fn altered_in(
    alloc: Global,
    basis: &Basis<'_>,
    race: u32,
    instance: u32,
) -> Result<Items<u32>, NoMemory>
    requires basis { IsBasis basis.now }
    requires race { race < length (plan_in basis.now).races }
    requires instance { instance < (plan_in basis.now).instances }
    ensures { IfOk result (λ altered. altered ≡ altered_in (plan_in basis.now) (lines_in basis.now) (completion_in basis.now) (printing_in basis.now) race instance) }
{
    let lefts = count_pointers(alloc, basis, Side::Left, race, instance)?;
    let rights = count_pointers(alloc, basis, Side::Right, race, instance)?;
    let mut altered = Items::new(alloc);
    for row in 0..basis.posted.plan.entries(race) {
        let at = At {
            race,
            instance,
            row,
        };
        if is_altered(basis, &lefts, &rights, at) {
            altered.push(row)?;
        }
    }
    Ok(altered)
}

/// The altered rows of a race, by instance.
fn race_altered(alloc: Global, basis: &Basis<'_>, race: u32) -> Result<Items<Items<u32>>, NoMemory>
    requires basis { IsBasis basis.now }
    requires race { race < length (plan_in basis.now).races }
    ensures { IfOk result (λ altered. altered ≡ race_altered (plan_in basis.now) (lines_in basis.now) (completion_in basis.now) (printing_in basis.now) race) }
{
    let mut altered = Items::new(alloc);
    for instance in 0..basis.posted.plan.instances {
        let found = altered_in(alloc, basis, race, instance)?;
        altered.push(found)?;
    }
    Ok(altered)
}

/// The altered rows, by race and instance.
pub(crate) fn all_altered(
    alloc: Global,
    basis: &Basis<'_>,
) -> Result<Items<Items<Items<u32>>>, NoMemory>
    requires { IsBasis basis.now }
    ensures { IfOk result (λ altered. altered ≡ all_altered (plan_in basis.now) (lines_in basis.now) (completion_in basis.now) (printing_in basis.now)) }
{
    sg_plan::laws::bounds_law();
    let mut altered = Items::new(alloc);
    for race in 0..basis.posted.plan.races.len() {
        let found = race_altered(alloc, basis, race as u32)?;
        altered.push(found)?;
    }
    Ok(altered)
}
