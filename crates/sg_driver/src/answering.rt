//! The command: the input is judged, and the report of the answer is written.
ghost use Rattle.std.specs.Prelude.{◌≡◌, ◌⊎◌};
ghost use Rattle.sg_outside.specs.Streams.{seen};
ghost use Rattle.sg_driver.specs.Judging.{IsOfAnswer};
ghost use Rattle.sg_driver.specs.Says.{Says, Writes};

use crate::hearing::{Heard, hear};
use crate::judge::Judge;
use sg_outside::{Failed, Outcome, Sink, Source};
use std::alloc::Global;

/// Judges the lines of the input, and writes the report of the answer. It ends as the answer does, or a read failed, a write
/// failed or memory was wanted. Where a read failed or memory was wanted nothing is written.
pub fn answer_on<J: Judge + Drop, S: Source, O: Sink>(
    alloc: Global,
    input: &mut S,
    out: &mut O,
) -> Outcome
    ensures says { Says J.judging result (seen (S.left input.old) (S.faults input.old)) (seen (S.left input.new) (S.faults input.new))
        (seen (O.written out.old) (O.faults out.old)) (seen (O.written out.new) (O.faults out.new)) }
    ensures quiet { (result ≡ Outcome.ReadFailed) ⊎ (result ≡ Outcome.NoMemory) → out.new ≡ out.old }
{
    match hear::<J, S>(alloc, input) {
        Heard::Answer(answer) => tell::<J, O>(&answer, out),
        Heard::Fault => Outcome::ReadFailed,
        Heard::NoMemory => Outcome::NoMemory,
    }
}

/// Writes the report of an answer, and ends as the answer does, or with a failed write.
fn tell<J: Judge, O: Sink>(answer: &J::Answer, out: &mut O) -> Outcome
    ensures writes { Writes (J.judging.outcome answer.now) (J.judging.report answer.now) result (seen (O.written out.old) (O.faults out.old)) (seen (O.written out.new) (O.faults out.new)) }
    ensures answers { IsOfAnswer (J.judging.outcome answer.now) }
{
    let due = J::outcome(answer);
    match J::write_report(answer, out) {
        Ok(()) => due,
        Err(Failed) => Outcome::WriteFailed,
    }
}
