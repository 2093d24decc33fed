//! The program of who only audits, over any source and sink: its words, and the status that it ends with.
ghost use Rattle.std.specs.Prelude.{◌≡◌, ◌≢◌, ◌⊎◌, None, Some, IfSome};
ghost use Rattle.sg_reports.specs.audit.Promise.{Promise};
ghost use Rattle.sg_outside.specs.Streams.{seen};
ghost use Rattle.sg_outside.specs.TextLines.{lines_of};
ghost use Rattle.sg_reports.specs.Reports.{Reported, report_in};
ghost use Rattle.sg_reports.specs.declared.report.Report.{Report as ReportSeen};
ghost use Rattle.sg_reports.specs.declared.report.Report.TheVariants.{Audit};

use crate::report::{Report, report_of, write_report};
use sg_outside::{Sink, Source};
use sg_plan::{Items, Word};
use sg_words::command_of;
use std::alloc::Global;

/// Runs the command that the words after the program's name ask for, where it reports on what it reads, and answers the status
/// to end with.
pub fn run_reports<S: Source, O: Sink>(
    alloc: Global,
    words: &Items<Word>,
    input: &mut S,
    out: &mut O,
) -> u8
    // Status 2 comes exactly where the words are no such command's. Then nothing is read or written.
    ensures form { result ≡ 2 → report_in words.now ≡ None }
    ensures refused { report_in words.now ≡ None → result ≡ 2 }
    ensures untouched { report_in words.now ≡ None → (input.new ≡ input.old) × (out.new ≡ out.old) }
    // With `audit`, where the input tells its bytes: it answers yes exactly when the bytes read are a whole record whose
    // openings match their commitments and whose opened halves agree; then, for every printing and every completion that
    // opens no commitment twice, each R instance has at least as many rows altered in their unopened halves as any posted
    // total of its race differs from the count of posted codes.
    ensures headline { report_in words.now ≡ Some Audit → IfSome (S.left input.old) (λ bytes. Promise (lines_of bytes) result (seen (S.left input.old) (S.faults input.old)) (seen (S.left input.new) (S.faults input.new))
        (seen (O.written out.old) (O.faults out.old)) (seen (O.written out.new) (O.faults out.new))) }
    // The status says how the command ended, by a relation for each command: what was read, and what was written. Where no count
    // of faults rose, it tells no failure: all the work was done, but for want of memory.
    ensures says { (report : ReportSeen) → report_in words.now ≡ Some report → Reported report result (seen (S.left input.old) (S.faults input.old)) (seen (S.left input.new) (S.faults input.new))
        (seen (O.written out.old) (O.faults out.old)) (seen (O.written out.new) (O.faults out.new)) }
    // After a read that failed, and where memory was wanted, the output is as it was.
    ensures unwritten { (result ≡ 3) ⊎ (result ≡ 9) → out.new ≡ out.old }
{
    match command_of(words).and_then(report_of) {
        Some(report) => status_with(alloc, report, input, out),
        None => 2,
    }
}

/// Writes a report, and answers the status to end with.
fn status_with<S: Source, O: Sink>(alloc: Global, report: Report, input: &mut S, out: &mut O) -> u8
    ensures words { result ≢ 2 }
    ensures promise { report ≡ Audit → IfSome (S.left input.old) (λ bytes. Promise (lines_of bytes) result (seen (S.left input.old) (S.faults input.old)) (seen (S.left input.new) (S.faults input.new))
        (seen (O.written out.old) (O.faults out.old)) (seen (O.written out.new) (O.faults out.new))) }
    ensures says { Reported report result (seen (S.left input.old) (S.faults input.old)) (seen (S.left input.new) (S.faults input.new))
        (seen (O.written out.old) (O.faults out.old)) (seen (O.written out.new) (O.faults out.new)) }
    ensures unwritten { (result ≡ 3) ⊎ (result ≡ 9) → out.new ≡ out.old }
{
    write_report(alloc, report, input, out).status()
}
