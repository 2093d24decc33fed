//! The command `audit`.
ghost use Rattle.std.specs.Prelude.{◌≡◌, ◌⊎◌, IfSome};
ghost use Rattle.sg_outside.specs.Outcomes.{status_of};
ghost use Rattle.sg_outside.specs.Streams.{seen};
ghost use Rattle.sg_outside.specs.TextLines.{lines_of};
ghost use Rattle.sg_reports.specs.audit.Audit.{AuditSays};
ghost use Rattle.sg_reports.specs.audit.Promise.{Promise};

use crate::audit::auditor::Auditor;
use sg_driver::answer_on;
use sg_outside::{Outcome, Sink, Source};
use std::alloc::Global;

/// Judges the record that the input gives, and writes the report of the verdict. It ends as done for yes and with no for no; or a
/// read failed, a write failed or memory was wanted. Where a read failed or memory was wanted nothing is written.
pub fn answer_audit<S: Source, O: Sink>(alloc: Global, input: &mut S, out: &mut O) -> Outcome
    ensures says { AuditSays result (seen (S.left input.old) (S.faults input.old)) (seen (S.left input.new) (S.faults input.new))
        (seen (O.written out.old) (O.faults out.old)) (seen (O.written out.new) (O.faults out.new)) }
    ensures promise { IfSome (S.left input.old) (λ bytes. Promise (lines_of bytes) (status_of result) (seen (S.left input.old) (S.faults input.old)) (seen (S.left input.new) (S.faults input.new))
        (seen (O.written out.old) (O.faults out.old)) (seen (O.written out.new) (O.faults out.new))) }
    ensures quiet { (result ≡ Outcome.ReadFailed) ⊎ (result ≡ Outcome.NoMemory) → out.new ≡ out.old }
{
    answer_on::<Auditor, S, O>(alloc, input, out)
}
