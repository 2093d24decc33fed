//! The command `county`.
ghost use Rattle.std.specs.Prelude.{◌≡◌, ◌⊎◌};
ghost use Rattle.sg_outside.specs.Streams.{seen};
ghost use Rattle.sg_reports.specs.county.Counts.{CountySays};

use crate::county::counter::Counter;
use sg_driver::answer_on;
use sg_outside::{Outcome, Sink, Source};
use std::alloc::Global;

/// Audits the county that the input gives, and writes the report. It ends as done for yes; with no where a part is bad, differs
/// from the first or repeats another; and is refused where there are too many parts. Or a read failed, a write failed or memory
/// was wanted.
pub fn count_county<S: Source, O: Sink>(alloc: Global, input: &mut S, out: &mut O) -> Outcome
    ensures says { CountySays result (seen (S.left input.old) (S.faults input.old)) (seen (S.left input.new) (S.faults input.new))
        (seen (O.written out.old) (O.faults out.old)) (seen (O.written out.new) (O.faults out.new)) }
    ensures unwritten { (result ≡ Outcome.ReadFailed) ⊎ (result ≡ Outcome.NoMemory) → out.new ≡ out.old }
{
    answer_on::<Counter, S, O>(alloc, input, out)
}
