//! An office, opened from the rows of its keeper.
ghost use Rattle.std.specs.Prelude.{◌≡◌, ◌≤◌};
ghost use Rattle.sg_clerk.specs.Opening.{StartsFrom};
ghost use Rattle.sg_clerk.specs.inside.Opening.{IsOpenedOf, OpensTo};

use sg_keeper::{KeepFault, Keeper, Rows};
use sg_office::{Office, OpenFault};
use std::alloc::Global;

/// Why no office is opened of the rows of a keeper.
#[derive(Clone, Copy, Debug, PartialEq, Eq)]
pub(crate) enum Closed {
    /// The keeper failed.
    LoadFault,
    /// It has no rows, not even a setup.
    Empty,
    /// They are no office's: the first bad table, and in it the first bad row, both counted from 1.
    Damaged(u32, u64),
    /// Memory was wanted and not found.
    NoMemory,
}

/// The office that rows open to.
fn opened_of(alloc: Global, rows: &Rows) -> Result<Office, Closed>
    ensures { IsOpenedOf result rows.now }
{
    match Office::open(alloc, rows) {
        Ok(office) => Ok(office),
        Err(OpenFault::Empty) => Err(Closed::Empty),
        Err(OpenFault::Damaged { table, row }) => Err(Closed::Damaged(table, row)),
        Err(OpenFault::NoMemory) => Err(Closed::NoMemory),
    }
}

/// The same, and no more of the rows is kept.
fn opened_once(alloc: Global, rows: Rows) -> Result<Office, Closed>
    ensures { IsOpenedOf result rows }
{
    let opened = opened_of(alloc, &rows);
    drop(rows);
    opened
}

/// Loads the rows and opens the office that they are of. The rows stay as they are.
#[tactic(auto, using(crate::proofs::Opening::opens_to, crate::proofs::Opening::starts_from))]
pub(crate) fn open_kept<K: Keeper>(alloc: Global, keeper: &mut K) -> Result<Office, Closed>
    ensures opens { OpensTo result (K.tells keeper.old) (K.rows keeper.old) (K.faults keeper.old) (K.faults keeper.new) }
    ensures starts { StartsFrom result (K.tells keeper.old) (K.rows keeper.old) }
    ensures told { K.tells keeper.old → K.tells keeper.new }
    ensures same { K.tells keeper.old → K.rows keeper.new ≡ K.rows keeper.old }
    ensures later { K.faults keeper.old ≤ K.faults keeper.new }
{
    let rows = match keeper.load(alloc) {
        Ok(rows) => rows,
        Err(KeepFault::Failed) => return Err(Closed::LoadFault),
        Err(KeepFault::NoMemory) => return Err(Closed::NoMemory),
    };
    opened_once(alloc, rows)
}
