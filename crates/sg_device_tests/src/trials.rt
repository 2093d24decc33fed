//! What is tried of a keeper. It is lent here, so that few functions own one, since a proof of its end is long.
use crate::changes::{ballot, begin, is_filled, keep, keep_all, void};
use sg_keeper::{KeepFault, Keeper};
use std::alloc::Global;
use std::test::Fail;

/// What is tried of a keeper.
#[derive(Clone, Copy)]
pub(crate) enum Trial {
    /// That it keeps the rows of the test, and refuses a second setup and keys that are kept.
    Keys,
    /// That it has just the rows of the test.
    Filled,
    /// That it has more ballots than those of the test, as many as one of these counts, and as many rows of acts, unless
    /// it fails.
    More(usize, usize),
    /// That it has a setup and a scan, and keeps a voided ballot.
    Void,
    /// That it cannot be loaded, and cannot again.
    Faults,
}

/// A change of this ballot is refused as a fault.
fn is_refused<K: Keeper>(
    alloc: Global,
    keeper: &mut K,
    number: i64,
    stamp: (i64, i64),
) -> Result<bool, Fail> {
    let change = ballot(alloc, number, stamp)?;
    Ok(keep(keeper, change) == Err(KeepFault::Failed))
}

/// The keeper keeps the rows of the test, and refuses a second setup and keys that are kept.
fn refuses_kept_keys<K: Keeper>(alloc: Global, keeper: &mut K) -> Result<bool, Fail> {
    keep_all(alloc, keeper)?;
    let is_begun = begin(alloc, keeper) == Err(KeepFault::Failed);
    let has_ballot = is_refused(alloc, keeper, 7, (1, 6))?;
    let has_stamp = is_refused(alloc, keeper, 3, (1, 5))?;
    Ok(is_begun && has_ballot && has_stamp && is_filled(alloc, keeper)?)
}

/// So many rows of ballots, of acts and of voided ballots there are.
fn has_counts<K: Keeper>(
    alloc: Global,
    keeper: &mut K,
    counts: (usize, usize, usize),
) -> Result<bool, Fail> {
    let rows = keeper.load(alloc)?;
    Ok((rows.ballots.len(), rows.dones.len(), rows.voids.len()) == counts)
}

/// A voided ballot is kept behind a scan.
fn keeps_a_void<K: Keeper>(alloc: Global, keeper: &mut K) -> Result<bool, Fail> {
    let has_scan = has_counts(alloc, keeper, (1, 1, 0))?;
    keep(keeper, void(alloc)?)?;
    Ok(has_scan && has_counts(alloc, keeper, (1, 2, 1))?)
}

/// The load fails.
fn fails<K: Keeper>(alloc: Global, keeper: &mut K) -> bool {
    keeper.load(alloc).err() == Some(KeepFault::Failed)
}

/// The keeper has more ballots than those of the test, as many as one of these counts, and as many rows of acts, unless
/// it fails.
fn has_more<K: Keeper>(alloc: Global, keeper: &mut K, least: usize, most: usize) -> bool {
    match keeper.load(alloc) {
        Ok(rows) => {
            let acts = rows.dones.len();
            match rows.ballots.len().checked_sub(2) {
                Some(more) => acts.checked_sub(5) == Some(more) && least <= more && more <= most,
                None => false,
            }
        }
        Err(fault) => fault == KeepFault::Failed,
    }
}

/// This holds of the keeper.
pub(crate) fn holds<K: Keeper>(alloc: Global, keeper: &mut K, trial: Trial) -> Result<bool, Fail> {
    match trial {
        Trial::Keys => refuses_kept_keys(alloc, keeper),
        Trial::Filled => is_filled(alloc, keeper),
        Trial::More(least, most) => Ok(has_more(alloc, keeper, least, most)),
        Trial::Void => keeps_a_void(alloc, keeper),
        Trial::Faults => Ok(fails(alloc, keeper) && fails(alloc, keeper)),
    }
}

/// This holds of a keeper, which ends here.
pub(crate) fn holds_of<K: Keeper + Drop>(
    alloc: Global,
    keeper: K,
    trial: Trial,
) -> Result<bool, Fail> {
    let mut keeper = keeper;
    let is_true = holds(alloc, &mut keeper, trial);
    drop(keeper);
    is_true
}
