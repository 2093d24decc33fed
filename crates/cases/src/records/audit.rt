//! The audit of one record, and what must hold of it besides.
ghost use Rattle.std.specs.Prelude.{◌<◌};

use super::read_back::{ReadBack, read_back, tell_breaches};
use super::report::is_report_of;
use crate::fault::Fault;
use sg_check::Judged;
use sg_judge::judge;
use sg_outside::{Bytes, Page};
use sg_plan::limits::LONGEST_LINE;
use sg_plan::{Items, Word};
use sg_reports::run_reports;
use std::alloc::Global;
use std::io::Write;

/// How many bytes a report may have: as many as a line of a record.
const REPORT: usize = LONGEST_LINE;

/// The words of the command.
fn words(alloc: Global) -> Result<Items<Word>, Fault> {
    let mut word = Word::new(alloc);
    word.extend(b"audit")?;
    let mut words = Items::new(alloc);
    words.push(word)?;
    Ok(words)
}

/// Runs the command of these words, and answers its status. The contract of `run_reports` is long, so this promises nothing.
fn status_of(alloc: Global, words: &Items<Word>, input: &mut Bytes, page: &mut Page) -> u8 {
    run_reports(alloc, words, input, page)
}

/// Audits an input, and answers the status.
fn audited(alloc: Global, input: &mut Bytes, page: &mut Page) -> Result<u8, Fault> {
    let words = words(alloc)?;
    let status = status_of(alloc, &words, input, page);
    drop(words);
    Ok(status)
}

/// Audits a record that is read in pieces of this many bytes, where these reads fail, and answers the status.
fn audited_in_pieces(
    alloc: Global,
    record: &[u8],
    piece: usize,
    fails: Vec<u32>,
    page: &mut Page,
) -> Result<u8, Fault>
    requires { 0 < piece }
{
    let mut input = Bytes::new(Vec::from_slice(alloc, record)?, piece, fails);
    let status = audited(alloc, &mut input, page);
    drop(input);
    status
}

/// Where the line of this number ends, from 1: behind its line feed.
fn line_end(record: &[u8], line: u32) -> Option<u32> {
    let mut feeds = 0u32;
    for (at, byte) in record.iter().enumerate() {
        if *byte == b'\n' {
            feeds = feeds.saturating_add(1);
            if feeds == line {
                return u32::try_from(at.saturating_add(1)).ok();
            }
        }
    }
    None
}

/// Audits a record whose bytes come one by one, where this read fails. Answers whether the report is this one.
fn is_reported(
    alloc: Global,
    record: &[u8],
    fail: u32,
    report: &[u8],
    page: &mut Page,
) -> Result<bool, Fault> {
    let fails = Vec::from_slice(alloc, &[fail])?;
    let status = audited_in_pieces(alloc, record, 1, fails, page)?;
    Ok(status == 1 && page.written() == report)
}

/// The report is the same where the bytes come one by one, and the input fails right behind the bad line.
fn is_settled(alloc: Global, record: &[u8], line: u32, report: &[u8]) -> Result<bool, Fault> {
    let Some(end) = line_end(record, line) else {
        return Ok(true);
    };
    let mut page = Page::new(alloc, REPORT, Vec::new(alloc), 0)?;
    let is_settled = is_reported(alloc, record, end, report, &mut page);
    drop(page);
    is_settled
}

/// Writes a line where the verdict is another than the report, or where a fault behind the bad line changes the report.
fn tell_verdict<W: Write>(
    alloc: Global,
    record: &[u8],
    judged: &Judged,
    report: &[u8],
    out: &mut W,
) -> Result<(), Fault> {
    if !is_report_of(judged, report) {
        out.write_all(b"the verdict in memory is another\n")?;
    }
    if let Judged::No { line, .. } = judged {
        if !is_settled(alloc, record, *line, report)? {
            out.write_all(b"a fault behind the bad line changes the report\n")?;
        }
    }
    Ok(())
}

/// Writes a line where the verdict on the record in memory is another than the report, where a fault behind the bad line
/// changes the report, or where reading and writing the record goes wrong.
///
/// Answers whether the record was read, and written back as the same bytes.
fn tell_judged<W: Write>(
    alloc: Global,
    record: &[u8],
    judged: &Judged,
    report: &[u8],
    out: &mut W,
) -> Result<bool, Fault> {
    tell_verdict(alloc, record, judged, report, out)?;
    let read = read_back(alloc, record)?;
    tell_breaches(judged, read, out)?;
    Ok(read == ReadBack::Same)
}

/// The same of the verdict on the record in memory.
fn tell_checks<W: Write>(
    alloc: Global,
    record: &[u8],
    report: &[u8],
    out: &mut W,
) -> Result<bool, Fault> {
    let judged = judge(alloc, record)?;
    let told = tell_judged(alloc, record, &judged, report, out);
    drop(judged);
    told
}

/// Audits one record on a page, and writes its name, the status and the report.
fn tell_report<W: Write>(
    alloc: Global,
    name: &[u8],
    record: &[u8],
    page: &mut Page,
    out: &mut W,
) -> Result<(), Fault> {
    let status = audited_in_pieces(alloc, record, REPORT, Vec::new(alloc), page)?;
    out.write_all(name)?;
    out.write_all(if status == 0 { b" 0\n" } else { b" 1\n" })?;
    out.write_all(page.written())?;
    Ok(())
}

/// Audits one record, and writes its name, the status and the report. Behind these a line says so where the verdict on the
/// record in memory is another, where a fault behind the bad line changes the report, or where reading and writing the
/// record goes wrong.
///
/// Answers whether the record was read, and written back as the same bytes.
pub(super) fn tell<W: Write>(
    alloc: Global,
    name: &[u8],
    record: &[u8],
    out: &mut W,
) -> Result<bool, Fault> {
    let mut page = Page::new(alloc, REPORT, Vec::new(alloc), 0)?;
    tell_report(alloc, name, record, &mut page, out)?;
    let told = tell_checks(alloc, record, page.written(), out);
    drop(page);
    told
}

/// Writes how many records were read, and written back as the same bytes.
pub(super) fn tell_count<W: Write>(same: u32, out: &mut W) -> Result<(), Fault> {
    writeln!(out, "read and written back: {same}")?;
    Ok(())
}
