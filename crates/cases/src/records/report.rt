//! Reports, and what they say of a record.
use crate::cutting::size_of;
use sg_check::Judged;

/// The report says what the verdict does: yes, or the same line and kind.
pub(super) fn is_report_of(judged: &Judged, report: &[u8]) -> bool {
    match judged {
        Judged::Yes(_) => report.starts_with(b"yes\n"),
        Judged::No { line, kind } => is_no(report, *line, kind.word()),
    }
}

/// The report is `no LINE KIND`.
fn is_no(report: &[u8], line: u32, kind: &[u8]) -> bool {
    let mut words = report.split(|byte| *byte == b' ' || *byte == b'\n');
    let is_no = words.next() == Some(b"no".as_slice());
    let number = match words.next() {
        Some(digits) => size_of(digits),
        None => None,
    };
    is_no && number == Some(line as usize) && words.next() == Some(kind)
}
