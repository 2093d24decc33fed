//! The office of the rows that are kept, and what is written where there is none.
ghost use Rattle.std.specs.Prelude.{◌≡◌, ◌≤◌, OnOk};
ghost use Rattle.sg_outside.specs.Streams.{seen};
ghost use Rattle.sg_clerk.specs.Opening.{OpensOffice, StartsFrom};
ghost use Rattle.sg_clerk.specs.inside.Opening.{TellsWhy};

use crate::lines::{damaged_line, put_empty};
use crate::opened::{Closed, open_kept};
use sg_keeper::Keeper;
use sg_office::Office;
use sg_outside::{Failed, Outcome, Sink};
use std::alloc::Global;

/// Writes that no setup is kept.
fn show_empty<O: Sink>(out: &mut O) -> Outcome
    ensures { TellsWhy Closed.Empty result (seen (O.written out.old) (O.faults out.old)) (seen (O.written out.new) (O.faults out.new)) }
{
    match put_empty(out) {
        Ok(()) => Outcome::Refused,
        Err(Failed) => Outcome::WriteFailed,
    }
}

/// Writes which row is no office's.
fn show_damage<O: Sink>(alloc: Global, table: u32, row: u64, out: &mut O) -> Outcome
    ensures { TellsWhy (Closed.Damaged table row) result (seen (O.written out.old) (O.faults out.old)) (seen (O.written out.new) (O.faults out.new)) }
{
    let Ok(line) = damaged_line(alloc, table, row) else {
        return Outcome::NoMemory;
    };
    match out.put(line.bytes()) {
        Ok(()) => Outcome::Damaged,
        Err(Failed) => Outcome::WriteFailed,
    }
}

/// Writes why no office is opened, where there is a line for that, and says how the command ends.
fn show_closed<O: Sink>(alloc: Global, why: Closed, out: &mut O) -> Outcome
    ensures { TellsWhy why result (seen (O.written out.old) (O.faults out.old)) (seen (O.written out.new) (O.faults out.new)) }
{
    match why {
        Closed::LoadFault => Outcome::KeeperFailed,
        Closed::Empty => show_empty(out),
        Closed::Damaged(table, row) => show_damage(alloc, table, row, out),
        Closed::NoMemory => Outcome::NoMemory,
    }
}

/// Loads the rows and opens the office that they are of. Where there is none, it writes the line that says why, if one is
/// due, and says how the command ends. The rows stay as they are.
pub fn open_office<K: Keeper, O: Sink>(
    alloc: Global,
    keeper: &mut K,
    out: &mut O,
) -> Result<Office, Outcome>
    ensures opens { OpensOffice result (K.tells keeper.old) (K.rows keeper.old) (K.faults keeper.old) (K.faults keeper.new)
        (seen (O.written out.old) (O.faults out.old)) (seen (O.written out.new) (O.faults out.new)) }
    ensures starts { StartsFrom result (K.tells keeper.old) (K.rows keeper.old) }
    ensures told { K.tells keeper.old → K.tells keeper.new }
    ensures same { K.tells keeper.old → K.rows keeper.new ≡ K.rows keeper.old }
    ensures later { K.faults keeper.old ≤ K.faults keeper.new }
    ensures quiet { OnOk result (out.new ≡ out.old) }
{
    match open_kept(alloc, keeper) {
        Ok(office) => Ok(office),
        Err(why) => Err(show_closed(alloc, why, out)),
    }
}
