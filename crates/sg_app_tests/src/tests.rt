//! The program on whole records, with the report and the status that the rules give.
ghost use Rattle.std.specs.Prelude.{◌≡◌, IfOk, false, is_some};

use records::{Case, Change, FIRST, FIRST_CASES, TWO_VOTES, TWO_VOTES_CASES};
use sg_app::run;
use sg_keeper::{MemoryKeeper, Rows};
use sg_links::Calls;
use sg_outside::{Bytes, Page};
use sg_plan::{Items, NoMemory, Word};
use std::alloc::Global;
use std::process::Abort;
use std::test::Fail;

mod records;

/// The words, as the program is given them.
fn words_of(alloc: Global, texts: &[&'static [u8]]) -> Result<Items<Word>, NoMemory> {
    let mut words = Items::new(alloc);
    for text in texts {
        let mut word = Word::new(alloc);
        word.extend(text)?;
        words.push(word)?;
    }
    Ok(words)
}

/// A keeper without rows.
fn keeper_of(alloc: Global) -> MemoryKeeper {
    let rows = Rows {
        setup: None,
        ballots: Items::new(alloc),
        stages: Items::new(alloc),
        claims: Items::new(alloc),
        voids: Items::new(alloc),
        dones: Items::new(alloc),
    };
    MemoryKeeper::new(alloc, rows, Items::new(alloc))
}

/// Links without connections.
fn no_calls(alloc: Global) -> Result<Calls, Fail>
    ensures { IfOk result (λ calls. is_some calls.board.current ≡ false) }
{
    Ok(Calls::new(alloc, Vec::new(alloc), 0, 0, Vec::new(alloc))?)
}

/// Answers these words, where the input comes in pieces and these reads fail, and answers the status.
fn answer(
    texts: &[&'static [u8]],
    record: &[u8],
    piece: usize,
    fails: Vec<u32>,
    page: &mut Page,
    alloc: Global,
) -> Result<u8, Fail> {
    let words = words_of(alloc, texts)?;
    let mut input = Bytes::new(Vec::from_slice(alloc, record)?, piece.max(1), fails);
    let mut keeper = keeper_of(alloc);
    let mut links = no_calls(alloc)?;
    Ok(run(alloc, &words, &mut input, &mut keeper, &mut links, page))
}

/// Audits bytes that come in pieces, where these reads fail, and answers the status.
fn audit(
    record: &[u8],
    piece: usize,
    fails: Vec<u32>,
    page: &mut Page,
    alloc: Global,
) -> Result<u8, Fail> {
    answer(&[b"audit"], record, piece, fails, page, alloc)
}

/// The text that stands in the place of the line of this number, from 1.
fn changed(number: usize, changes: &[Change]) -> Option<&'static [u8]> {
    for change in changes {
        if change.line == number {
            return Some(change.text);
        }
    }
    None
}

/// The record after the changes.
fn patched(alloc: Global, record: &[u8], changes: &[Change]) -> Result<Vec<u8>, Fail> {
    let mut bytes = Vec::new(alloc);
    let mut number = 0usize;
    for line in record.split(|byte| *byte == b'\n') {
        if number > 0 {
            bytes.push(b'\n')?;
        }
        number = number.saturating_add(1);
        match changed(number, changes) {
            Some(text) => bytes.extend_from_slice(text)?,
            None => bytes.extend_from_slice(line)?,
        }
    }
    Ok(bytes)
}

/// Audits each case in pieces of several lengths.
fn expect_reports(
    rt: &impl Abort,
    alloc: Global,
    record: &[u8],
    cases: &[Case],
) -> Result<(), Fail> {
    for case in cases {
        let record = patched(alloc, record, case.changes)?;
        for piece in [1, 2, 3, 64, 20_000] {
            let mut page = Page::new(alloc, 100, Vec::new(alloc), 0)?;
            let status = audit(&record, piece, Vec::new(alloc), &mut page, alloc)?;
            assert_eq!(rt; page.written(), case.report);
            assert_eq!(rt; status, case.status);
        }
    }
    Ok(())
}

#[test]
fn reports_are_as_expected(rt: HostRuntime) -> Result<(), Fail> {
    expect_reports(&rt, rt.alloc(), FIRST, &FIRST_CASES)?;
    expect_reports(&rt, rt.alloc(), TWO_VOTES, &TWO_VOTES_CASES)
}

#[test]
fn lines_behind_the_end_get_no(rt: HostRuntime) -> Result<(), Fail> {
    let mut record = Vec::from_slice(rt.alloc(), FIRST)?;
    record.extend_from_slice(b"cast 1\n")?;
    let mut page = Page::new(rt.alloc(), 100, Vec::new(rt.alloc()), 0)?;
    assert_eq!(rt;
        audit(&record, 64, Vec::new(rt.alloc()), &mut page, rt.alloc())?,
        1
    );
    assert_eq!(rt; page.written(), b"no 25 form\n".as_slice());
    Ok(())
}

#[test]
fn cut_records_get_no(rt: HostRuntime) -> Result<(), Fail> {
    let mut line = 1u32;
    for cut in 0..FIRST.len() {
        let mut page = Page::new(rt.alloc(), 100, Vec::new(rt.alloc()), 0)?;
        let status = audit(
            &FIRST[..cut],
            20_000,
            Vec::new(rt.alloc()),
            &mut page,
            rt.alloc(),
        )?;
        let report = format!(in rt.alloc(); "no {line} form\n")?;
        assert_eq!(rt; page.written(), report.as_bytes());
        assert_eq!(rt; status, 1);
        if FIRST[cut] == b'\n' {
            line = line.saturating_add(1);
        }
    }
    Ok(())
}

#[test]
fn a_failed_read_writes_nothing(rt: HostRuntime) -> Result<(), Fail> {
    for call in 0..17 {
        let mut page = Page::new(rt.alloc(), 100, Vec::new(rt.alloc()), 0)?;
        let fails = Vec::from_slice(rt.alloc(), &[call])?;
        let status = audit(FIRST, 64, fails, &mut page, rt.alloc())?;
        assert_eq!(rt; status, 3);
        assert_eq!(rt; page.written(), b"".as_slice());
    }
    Ok(())
}

#[test]
fn the_last_byte_may_fail_to_come(rt: HostRuntime) -> Result<(), Fail> {
    let mut page = Page::new(rt.alloc(), 100, Vec::new(rt.alloc()), 0)?;
    let fails = Vec::from_slice(rt.alloc(), &[1020])?;
    let status = audit(FIRST, 1, fails, &mut page, rt.alloc())?;
    assert_eq!(rt; status, 3);
    assert_eq!(rt; page.written(), b"".as_slice());
    Ok(())
}

#[test]
fn a_failed_write_has_status_4(rt: HostRuntime) -> Result<(), Fail> {
    let fronts: [&[u8]; 3] = [b"yes\n", b"yes\ntotal", b"yes\ntotal 0 0 1\ntotal"];
    for call in 0..3u32 {
        let fails = Vec::from_slice(rt.alloc(), &[call])?;
        let keeps = if call == 0 { 4 } else { 5 };
        let mut page = Page::new(rt.alloc(), 100, fails, keeps)?;
        let status = audit(FIRST, 64, Vec::new(rt.alloc()), &mut page, rt.alloc())?;
        assert_eq!(rt; status, 4);
        assert_eq!(rt; page.written(), fronts[call as usize]);
    }
    Ok(())
}

#[test]
fn a_full_page_is_a_failed_write(rt: HostRuntime) -> Result<(), Fail> {
    for room in [0, 3, 4, 15, 27] {
        let mut page = Page::new(rt.alloc(), room, Vec::new(rt.alloc()), 0)?;
        let status = audit(FIRST, 64, Vec::new(rt.alloc()), &mut page, rt.alloc())?;
        assert_eq!(rt; status, 4);
        let report = b"yes\ntotal 0 0 1\ntotal 0 1 0\n".as_slice();
        assert_eq!(rt; page.written(), &report[..room.min(report.len())]);
    }
    Ok(())
}

#[test]
fn other_words_have_status_2(rt: HostRuntime) -> Result<(), Fail> {
    let lists: [&[&'static [u8]]; 5] = [
        &[],
        &[b"audit", b"now"],
        &[b"serve", b"08", b"1"],
        &[b"--help"],
        &[b"Audit"],
    ];
    for texts in lists {
        let mut page = Page::new(rt.alloc(), 100, Vec::new(rt.alloc()), 0)?;
        let fails = Vec::new(rt.alloc());
        let status = answer(texts, FIRST, 64, fails, &mut page, rt.alloc())?;
        assert_eq!(rt; status, 2);
        assert_eq!(rt; page.written(), b"".as_slice());
    }
    Ok(())
}
