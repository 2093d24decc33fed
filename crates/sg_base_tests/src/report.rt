//! Each line of a report is one put.
use crate::plan_text::cut;
use sg_check::{Judged, Kind, Total};
use sg_outside::Page;
use sg_plan::Items;
use sg_report::write_report;
use std::alloc::Global;
use std::process::Abort;
use std::test::Fail;

/// Writes the report with this put failing after some bytes of its piece. It ends so, with these bytes written.
fn is_written(
    alloc: Global,
    judged: &Judged,
    call: u32,
    keeps: usize,
    is_whole: bool,
    written: &[u8],
) -> Result<bool, Fail> {
    let mut page = Page::new(alloc, 400, vec![in alloc; call]?, keeps)?;
    let is_put = write_report(&mut page, judged).is_ok();
    let same = page.written() == written;
    drop(page);
    Ok(is_put == is_whole && same)
}

/// Each put of the report fails in turn, and the lines before it and so many bytes of its own are written. So each line is a
/// put of its own.
fn expect_puts(
    rt: &impl Abort,
    alloc: Global,
    judged: &Judged,
    report: &str,
    keeps: usize,
) -> Result<(), Fail> {
    let mut call = 0u32;
    let mut begin = 0usize;
    let mut rest = report;
    for _ in 0..report.len() {
        if rest.is_empty() {
            break;
        }
        let (line, others) = cut(rest, '\n');
        let count = line.len().saturating_add(1);
        let end = begin.saturating_add(keeps.min(count)).min(report.len());
        let written = &report.as_bytes()[..end];
        assert!(rt; is_written(alloc, judged, call, keeps, false, written)?);
        begin = begin.saturating_add(count);
        call = call.saturating_add(1);
        rest = others;
    }
    assert!(rt; is_written(alloc, judged, call, keeps, true, report.as_bytes())?);
    Ok(())
}

/// The same where none, few or all bytes of the piece are kept.
fn expect_lines(rt: &impl Abort, alloc: Global, judged: &Judged, report: &str) -> Result<(), Fail> {
    for keeps in [0, 1, 5, 400] {
        expect_puts(rt, alloc, judged, report, keeps)?;
    }
    Ok(())
}

/// A report with many totals.
const YES: &str = "yes
total 0 0 0
total 0 1 20000
total 1 0 7
total 1 1 10
total 1 2 99
total 9 0 100
total 31 15 4294967295
";

/// These totals.
const TOTALS: [Total; 7] = [
    Total {
        race: 0,
        candidate: 0,
        count: 0,
    },
    Total {
        race: 0,
        candidate: 1,
        count: 20000,
    },
    Total {
        race: 1,
        candidate: 0,
        count: 7,
    },
    Total {
        race: 1,
        candidate: 1,
        count: 10,
    },
    Total {
        race: 1,
        candidate: 2,
        count: 99,
    },
    Total {
        race: 9,
        candidate: 0,
        count: 100,
    },
    Total {
        race: 31,
        candidate: 15,
        count: 4294967295,
    },
];

#[test]
fn each_total_is_one_put(rt: HostRuntime) -> Result<(), Fail> {
    let alloc = rt.alloc();
    let mut totals = Items::new(alloc);
    totals.extend(&TOTALS)?;
    let judged = Judged::Yes(totals);
    let written = expect_lines(&rt, alloc, &judged, YES);
    drop(judged);
    written
}

/// A line and a kind of fault, and the report of them.
const NOES: [(u32, Kind, &str); 11] = [
    (1, Kind::Form, "no 1 form\n"),
    (13, Kind::Seal, "no 13 seal\n"),
    (20, Kind::Opening, "no 20 opening\n"),
    (99, Kind::Side, "no 99 side\n"),
    (100, Kind::Pointer, "no 100 pointer\n"),
    (101, Kind::Flag, "no 101 flag\n"),
    (1_200_000, Kind::Path, "no 1200000 path\n"),
    (2, Kind::Total, "no 2 total\n"),
    (3, Kind::Print, "no 3 print\n"),
    (4, Kind::Rule, "no 4 rule\n"),
    (5, Kind::Dispute, "no 5 dispute\n"),
];

/// Each of these is one put.
fn expect_noes(rt: &impl Abort, alloc: Global, noes: &[(u32, Kind, &str)]) -> Result<(), Fail> {
    for (line, kind, report) in noes {
        let (line, kind) = (*line, *kind);
        expect_lines(rt, alloc, &Judged::No { line, kind }, report)?;
    }
    Ok(())
}

#[test]
fn each_no_is_one_put(rt: HostRuntime) -> Result<(), Fail> {
    expect_noes(&rt, rt.alloc(), &NOES)
}
