//! The commands: the input is judged, and what is due of it is written.
ghost use Rattle.std.specs.Prelude.{◌≡◌, ◌⊎◌};
ghost use Rattle.sg_outside.specs.Streams.{seen};
ghost use Rattle.sg_reports.specs.court.Says.{OddsSays, RecountSays};

use crate::court::judges::{CourtJudge, Recounts, TellsOdds};
use sg_driver::answer_on;
use sg_outside::{Outcome, Sink, Source};
use std::alloc::Global;

/// Reads a record, a printing and a completion, and writes which rows are altered, and each candidate's total and count; or
/// why the input isn't these three. It ends as done, with no where the record's verdict is no, and refused for another fault;
/// or a read failed, a write did, or memory was wanted. Each line is judged where it is read, and no more is read behind the
/// first that settles a fault. Each line is one put, and where a read failed or memory was wanted nothing is put.
pub fn answer_recount<S: Source, O: Sink>(alloc: Global, input: &mut S, out: &mut O) -> Outcome
    ensures says { RecountSays result (seen (S.left input.old) (S.faults input.old)) (seen (S.left input.new) (S.faults input.new))
        (seen (O.written out.old) (O.faults out.old)) (seen (O.written out.new) (O.faults out.new)) }
    ensures quiet { (result ≡ Outcome.ReadFailed) ⊎ (result ≡ Outcome.NoMemory) → out.new ≡ out.old }
{
    answer_on::<CourtJudge<Recounts>, S, O>(alloc, input, out)
}

/// Reads the same input, and writes the exponent of each race's odds; or the first row without a left or a right pointer of
/// its own; or why the input isn't a recount's. It ends as [`answer_recount`] does: refused for that row too.
pub fn answer_odds<S: Source, O: Sink>(alloc: Global, input: &mut S, out: &mut O) -> Outcome
    ensures says { OddsSays result (seen (S.left input.old) (S.faults input.old)) (seen (S.left input.new) (S.faults input.new))
        (seen (O.written out.old) (O.faults out.old)) (seen (O.written out.new) (O.faults out.new)) }
    ensures quiet { (result ≡ Outcome.ReadFailed) ⊎ (result ≡ Outcome.NoMemory) → out.new ≡ out.old }
{
    answer_on::<CourtJudge<TellsOdds>, S, O>(alloc, input, out)
}
