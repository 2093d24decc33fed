//! Rows that are put in at their places.
ghost use Rattle.std.specs.Prelude.{◌≡◌, ◌≤◌, ◌++◌, length, insert, IsTrue, IfOk, OnOk};
ghost use Rattle.std.specs.List.Sorted.{IsSortedBy};
ghost use Rattle.sg_keeper.specs.Rows.{put};
ghost use Rattle.sg_keeper.specs.inside.Later.{by_key, put_all};

use crate::keyed::Keyed;
use sg_plan::{Items, NoMemory};
use std::alloc::Global;

/// The place of a row: before the first row with a higher key, or behind the last.
fn place_of<T: Keyed>(rows: &[T], row: &T) -> usize
    ensures within { result ≤ length rows.now }
    ensures place { insert rows.now result row.now ≡ put (by_key T.key_of) row.now rows.now }
{
    let key = row.key();
    for at in 0..rows.len() {
        if key < rows[at].key() {
            return at;
        }
    }
    rows.len()
}

/// No row has a lower key than the one before it.
fn never_falls<T: Keyed>(rows: &[T]) -> bool
    ensures { IsTrue result → IsSortedBy (by_key T.key_of) rows.now }
{
    for at in 1..rows.len() {
        if rows[at].key() < rows[at - 1].key() {
            return false;
        }
    }
    true
}

/// Puts copies of rows behind the others.
fn put_copies<T: Keyed>(alloc: Global, rows: &mut Vec<T>, more: &[T]) -> Result<(), NoMemory>
    ensures { OnOk result (rows.new.items ≡ rows.old.items ++ more.now) }
{
    rows.try_reserve(more.len())?;
    for row in more {
        rows.push(row.copy(alloc)?)?;
    }
    Ok(())
}

/// Puts copies of rows in, one after another, each at its place. The time of each is linear in the rows.
fn put_singly<T: Keyed>(alloc: Global, rows: &mut Vec<T>, more: &[T]) -> Result<(), NoMemory>
    ensures { OnOk result (rows.new.items ≡ put_all (by_key T.key_of) rows.old.items more.now) }
{
    for row in more {
        let place = place_of(rows, row);
        rows.insert(place, row.copy(alloc)?)?;
    }
    Ok(())
}

/// Puts copies of rows in, each at its place, by a sort. The others must never fall.
fn put_by_sort<T: Keyed>(alloc: Global, rows: &mut Vec<T>, more: &[T]) -> Result<(), NoMemory>
    requires { IsSortedBy (by_key T.key_of) rows.old.items }
    ensures { OnOk result (rows.new.items ≡ put_all (by_key T.key_of) rows.old.items more.now) }
{
    put_copies(alloc, rows, more)?;
    rows.sort_by_key(|row: &T| row.key())?;
    Ok(())
}

/// The list of the rows.
fn items_of<T: Drop>(alloc: Global, rows: Vec<T>) -> Result<Items<T>, NoMemory>
    ensures { IfOk result (λ items. items ≡ rows.items) }
{
    let mut items = Items::with_room(alloc, rows.len())?;
    for row in rows {
        items.push(row)?;
    }
    Ok(items)
}

/// Copies of rows, with copies of those that came later put in, one after another, each at its place.
///
/// Where no row has a lower key than the one before it, this takes the time of a sort.
pub(crate) fn all_of<T: Keyed>(
    alloc: Global,
    first: &Items<T>,
    later: &Items<T>,
) -> Result<Items<T>, NoMemory>
    ensures { IfOk result (λ rows. rows ≡ put_all (by_key T.key_of) first.now later.now) }
{
    let mut rows = Vec::new(alloc);
    put_copies(alloc, &mut rows, first.as_slice())?;
    match never_falls(first.as_slice()) {
        true => put_by_sort(alloc, &mut rows, later.as_slice())?,
        false => put_singly(alloc, &mut rows, later.as_slice())?,
    }
    items_of(alloc, rows)
}
