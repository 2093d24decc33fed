//! `scans`: the records of a scanner's file are asks of the office, and each is answered by a line.
ghost use Rattle.std.specs.Prelude.{◌≡◌, ◌≤◌};
ghost use Rattle.sg_clerk.specs.Outside.{unlinked};
ghost use Rattle.sg_clerk.specs.scans.ScansAsked.{ScansSay};

use crate::open_office;
use crate::scans::answering::do_scans;
use sg_keeper::Keeper;
use sg_outside::{Outcome, Sink, Source};
use std::alloc::Global;

/// Opens the office of the keeper's rows and answers the records of the scanner's file that the input is, as [`do_scans`]
/// does. Where there is no office, nothing is read.
pub fn answer_scans<S: Source, K: Keeper, O: Sink>(
    alloc: Global,
    input: &mut S,
    keeper: &mut K,
    out: &mut O,
) -> Outcome
    ensures says { ScansSay result (K.tells keeper.old) (K.rows keeper.old) (K.rows keeper.new)
        (unlinked (S.left input.old) (O.written out.old) (S.faults input.old) (O.faults out.old) (K.faults keeper.old))
        (unlinked (S.left input.new) (O.written out.new) (S.faults input.new) (O.faults out.new) (K.faults keeper.new)) }
    ensures told { K.tells keeper.old → K.tells keeper.new }
{
    match open_office(alloc, keeper, out) {
        Ok(office) => {
            let mut office = office;
            let ending = do_scans(alloc, &mut office, input, keeper, out);
            drop(office);
            ending.outcome()
        }
        Err(how) => how,
    }
}
