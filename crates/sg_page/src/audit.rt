//! The audit of a record in memory.
ghost use Rattle.std.specs.Prelude.{◌≡◌, ◌<◌, ◌≤◌, ◌⊎◌, length, take};
ghost use Rattle.sg_outside.specs.TextLines.{lines_of};
ghost use Rattle.sg_check.specs.Verdict.{IsVerdict};
ghost use Rattle.sg_check.specs.declared.judged.Judged.{Judged as JudgedSeen};
ghost use Rattle.sg_report.specs.Report.{report_of};
ghost use Rattle.sg_page.specs.Page.{TellsVerdict, status_of};

use crate::statuses::{DONE, NO, NO_ROOM, WANT_OF_MEMORY};
use sg_check::Judged;
use sg_judge::judge;
use sg_outside::Page;
use sg_plan::NoMemory;
use sg_report::write_report;
use std::alloc::Global;

/// Room for a report, in bytes: the longest has `yes`, a line feed and 512 lines of 39.
const ROOM: usize = 32768;

/// Judges the record, and puts the report into the front of `report`: `written` says how many bytes it has. It answers 0
/// for yes and 1 for no, 4 where `report` is too short and 9 where memory was wanted and not found; then nothing is
/// written.
#[unsafe(no_mangle)]
pub extern "C" fn page_audit(
    alloc: Global,
    text: &[u8],
    report: &mut [u8],
    written: &mut usize,
) -> u32
    ensures verdict { result ≤ 1 → TellsVerdict (lines_of text.now) result (take written.new report.new) }
    ensures within { written.new ≤ length report.new }
    ensures short { result ≡ 4 → (judged : JudgedSeen) → IsVerdict (lines_of text.now) judged → length report.new < length (report_of judged) }
    ensures untold { 1 < result → written.new ≡ 0 }
    ensures statuses { (result ≤ 1) ⊎ (result ≡ 4) ⊎ (result ≡ 9) }
{
    *written = 0;
    match judge(alloc, text) {
        Ok(judged) => tell(alloc, &judged, report, written),
        Err(NoMemory) => WANT_OF_MEMORY,
    }
}

/// Puts the report of a verdict into the front of `report`.
fn tell(alloc: Global, judged: &Judged, report: &mut [u8], written: &mut usize) -> u32
    requires { written.old ≡ 0 }
    ensures status { result ≤ 1 → result ≡ status_of judged.now }
    ensures text { result ≤ 1 → take written.new report.new ≡ report_of judged.now }
    ensures within { written.new ≤ length report.new }
    ensures short { result ≡ 4 → length report.new < length (report_of judged.now) }
    ensures untold { 1 < result → written.new ≡ 0 }
    ensures statuses { (result ≤ 1) ⊎ (result ≡ 4) ⊎ (result ≡ 9) }
{
    let Ok(mut page) = Page::new(alloc, ROOM, Vec::new(alloc), 0) else {
        return WANT_OF_MEMORY;
    };
    if write_report(&mut page, judged).is_err() {
        return WANT_OF_MEMORY;
    }
    let text = page.written();
    if report.len() < text.len() {
        return NO_ROOM;
    }
    report[..text.len()].copy_from_slice(text);
    *written = text.len();
    status(judged)
}

/// The status of a verdict.
fn status(judged: &Judged) -> u32
    ensures is { result ≡ status_of judged.now }
    ensures verdicts { result ≤ 1 }
{
    match judged {
        Judged::Yes(_) => DONE,
        Judged::No { .. } => NO,
    }
}
