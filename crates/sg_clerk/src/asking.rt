//! `do`: the lines of the input are asks of the office, and each is answered by a line.
ghost use Rattle.std.specs.Prelude.{◌≡◌, ◌≤◌};
ghost use Rattle.sg_clerk.specs.Outside.{unlinked};
ghost use Rattle.sg_clerk.specs.Asked.{DoSays};

use crate::office::open_office;
use crate::talk::do_lines;
use sg_keeper::Keeper;
use sg_outside::{Outcome, Sink, Source};
use std::alloc::Global;

/// Opens the office of the keeper's rows and answers the lines of the input, one after another, as [`do_lines`] does.
/// Where there is none, no line is read.
pub fn answer_asks<S: Source, K: Keeper, O: Sink>(
    alloc: Global,
    input: &mut S,
    keeper: &mut K,
    out: &mut O,
) -> Outcome
    ensures says { DoSays result (K.tells keeper.old) (K.rows keeper.old) (K.rows keeper.new)
        (unlinked (S.left input.old) (O.written out.old) (S.faults input.old) (O.faults out.old) (K.faults keeper.old))
        (unlinked (S.left input.new) (O.written out.new) (S.faults input.new) (O.faults out.new) (K.faults keeper.new)) }
    ensures told { K.tells keeper.old → K.tells keeper.new }
{
    match open_office(alloc, keeper, out) {
        Ok(office) => {
            let mut office = office;
            let ending = do_lines(alloc, &mut office, input, keeper, out);
            drop(office);
            ending.outcome()
        }
        Err(how) => how,
    }
}
