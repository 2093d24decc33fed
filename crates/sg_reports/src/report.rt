//! A command that reports on what it reads.
ghost use Rattle.std.specs.Prelude.{◌≡◌, ◌⊎◌, IfSome};
ghost use Rattle.sg_reports.specs.audit.Promise.{Promise};
ghost use Rattle.sg_outside.specs.Outcomes.{status_of};
ghost use Rattle.sg_outside.specs.Streams.{seen};
ghost use Rattle.sg_outside.specs.TextLines.{lines_of};
ghost use Rattle.sg_reports.specs.Reports.{ReportSays, report_of};
ghost use Rattle.sg_reports.specs.declared.report.Report.TheVariants.{Audit};

use crate::audit::answer_audit;
use crate::county::count_county;
use crate::court::{answer_odds, answer_recount};
use sg_outside::{Outcome, Sink, Source};
use sg_words::Command;
use std::alloc::Global;

/// What is reported.
#[derive(Clone, Copy, Debug, PartialEq, Eq)]
pub enum Report {
    /// The verdict on a record.
    Audit,
    /// The altered rows of a record's completion.
    Recount,
    /// How unlikely its totals are.
    Odds,
    /// The verdict on several records as one.
    County,
}

/// The report that a command is: none where it opens an office, or makes one.
pub fn report_of(command: Command) -> Option<Report>
    ensures { result ≡ report_of command }
{
    match command {
        Command::Audit => Some(Report::Audit),
        Command::Recount => Some(Report::Recount),
        Command::Odds => Some(Report::Odds),
        Command::County => Some(Report::County),
        _ => None,
    }
}

/// Reads the input, and writes the report. It ends as done where the answer is yes or what was asked for was written, and with no
/// for no; or the input is refused, a read failed, a write failed or memory was wanted. Where a read failed or memory was wanted
/// nothing is written.
pub fn write_report<S: Source, O: Sink>(
    alloc: Global,
    report: Report,
    input: &mut S,
    out: &mut O,
) -> Outcome
    ensures promise { report ≡ Audit → IfSome (S.left input.old) (λ bytes. Promise (lines_of bytes) (status_of result) (seen (S.left input.old) (S.faults input.old)) (seen (S.left input.new) (S.faults input.new))
        (seen (O.written out.old) (O.faults out.old)) (seen (O.written out.new) (O.faults out.new))) }
    ensures says { ReportSays report result (seen (S.left input.old) (S.faults input.old)) (seen (S.left input.new) (S.faults input.new))
        (seen (O.written out.old) (O.faults out.old)) (seen (O.written out.new) (O.faults out.new)) }
    ensures unwritten { (result ≡ Outcome.ReadFailed) ⊎ (result ≡ Outcome.NoMemory) → out.new ≡ out.old }
{
    match report {
        Report::Audit => answer_audit(alloc, input, out),
        Report::Recount => answer_recount(alloc, input, out),
        Report::Odds => answer_odds(alloc, input, out),
        Report::County => count_county(alloc, input, out),
    }
}
