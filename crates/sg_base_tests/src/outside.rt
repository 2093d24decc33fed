//! What no clause says: that the calls succeed, and that they mean what was meant.
use sg_outside::{Bytes, Got, Lines, Page, Sink};
use std::alloc::Global;
use std::process::Abort;
use std::test::Fail;

/// A text, how many bytes a line may have and how many a read gives at most, which read fails, and what is told: each answer as
/// a letter, the text behind it, and then the bytes held behind that in parentheses.
type Case = (&'static str, [usize; 2], u32, &'static str);

/// Texts of which no read fails.
const CASES: [Case; 8] = [
    ("", [8, 1], 99, "E()"),
    ("ab\n", [8, 1], 99, "Lab\n()Eab\n()"),
    ("ab\ncd\n", [3, 1], 99, "Lab\n()Lcd\n()Ecd\n()"),
    ("ab\n\n\nxy", [2, 1], 99, "Tab()"),
    ("ab\nxy", [3, 1], 99, "Lab\n()Pxy()"),
    ("abc\nx", [4, 1], 99, "Labc\n()Px()"),
    ("ab\nabcd\n", [4, 1], 99, "Lab\n()Tabcd()"),
    ("abcd", [4, 1], 99, "Tabcd()"),
];

/// Texts of which a read fails.
const FAULTS: [Case; 11] = [
    ("ab\nc", [8, 1], 0, "F()"),
    ("ab\nc", [8, 1], 1, "F(a)"),
    ("ab\nc", [8, 1], 2, "F(ab)"),
    ("ab\nc", [8, 1], 3, "Lab\n()Fab\n()"),
    ("ab\nc", [8, 1], 4, "Lab\n()Fab\n(c)"),
    ("ab\nc", [8, 1], 5, "Lab\n()Pc()"),
    ("a\nb\nc", [8, 9], 0, "F()"),
    ("a\nb\nc", [8, 9], 1, "La\n(b\nc)Lb\n(c)Fb\n(c)"),
    ("a\nb\nc", [8, 9], 2, "La\n(b\nc)Lb\n(c)Pc()"),
    ("abcdefg\nABCDEFG\n", [8, 7], 2, "Labcdefg\n()Fabcdefg\n()"),
    (
        "abcdefg\nABCDEFG\n",
        [8, 3],
        5,
        "Labcdefg\n()Fabcdefg\n(ABCDEF)",
    ),
];

fn letter(got: Got) -> u8 {
    match got {
        Got::Line => b'L',
        Got::Part => b'P',
        Got::Long => b'T',
        Got::End => b'E',
        Got::ReadFault => b'F',
    }
}

/// What is told behind the answer, where the answer is told first.
fn behind<'a>(told: &'a [u8], got: Got, lines: &Lines) -> Option<&'a [u8]> {
    told.strip_prefix([letter(got)].as_slice())?
        .strip_prefix(lines.text())?
        .strip_prefix(b"(".as_slice())?
        .strip_prefix(lines.held())?
        .strip_prefix(b")".as_slice())
}

/// Each answer up to the last is told, and behind it comes the end.
fn are_told(lines: &mut Lines, source: &mut Bytes, told: &str) -> bool {
    let mut told = told.as_bytes();
    for _ in 0..9 {
        let got = lines.next(source);
        let Some(rest) = behind(told, got, lines) else {
            return false;
        };
        told = rest;
        if got != Got::Line {
            break;
        }
    }
    told.is_empty() && lines.next(source) == Got::End
}

/// What is told of lines of at most so many bytes.
fn tells(alloc: Global, source: &mut Bytes, limit: usize, told: &str) -> Result<bool, Fail> {
    let mut lines = Lines::new(alloc, limit.max(1))?;
    let are_told = are_told(&mut lines, source, told);
    drop(lines);
    Ok(are_told)
}

/// A source of the text, which gives at most so many bytes a read. The read of this number fails.
fn source_of(alloc: Global, text: &str, piece: usize, call: u32) -> Result<Bytes, Fail> {
    let fails = vec![in alloc; call]?;
    match text.as_bytes().to_vec(alloc) {
        Ok(bytes) => Ok(Bytes::new(bytes, piece.max(1), fails)),
        Err(none) => {
            drop(fails);
            Err(none.into())
        }
    }
}

/// This is told of the text.
fn is_cut(
    alloc: Global,
    text: &str,
    [limit, piece]: [usize; 2],
    call: u32,
    told: &str,
) -> Result<bool, Fail> {
    let mut source = source_of(alloc, text, piece, call)?;
    let is_cut = tells(alloc, &mut source, limit, told);
    drop(source);
    is_cut
}

/// Each case is as it says.
fn expect_cuts(rt: &impl Abort, alloc: Global, cases: &[Case]) -> Result<(), Fail> {
    for (text, sizes, call, told) in cases {
        assert!(rt;
            is_cut(alloc, text, *sizes, *call, told)?,
            "{call} of {text}"
        );
    }
    Ok(())
}

#[test]
fn cuts_lines(rt: HostRuntime) -> Result<(), Fail> {
    expect_cuts(&rt, rt.alloc(), &CASES)
}

#[test]
fn meets_read_faults(rt: HostRuntime) -> Result<(), Fail> {
    expect_cuts(&rt, rt.alloc(), &FAULTS)
}

/// Whether each of three pieces is put.
fn puts(page: &mut Page) -> [bool; 3] {
    [
        page.put(b"abc").is_ok(),
        page.put(b"de").is_ok(),
        page.put(b"f").is_ok(),
    ]
}

/// Three pieces are put or not in a page with so much room. The put `call` fails and keeps so many bytes.
fn is_filled(
    alloc: Global,
    [room, keeps]: [usize; 2],
    call: u32,
    ended: [bool; 3],
    written: &[u8],
) -> Result<bool, Fail> {
    let mut page = Page::new(alloc, room, vec![in alloc; call]?, keeps)?;
    let is_ended = puts(&mut page) == ended;
    let is_written = page.written() == written;
    drop(page);
    Ok(is_ended && is_written)
}

#[test]
fn fills_pages(rt: HostRuntime) -> Result<(), Fail> {
    let alloc = rt.alloc();
    let are_filled = [
        is_filled(alloc, [9, 0], 9, [true, true, true], b"abcdef")?,
        is_filled(alloc, [9, 1], 1, [true, false, true], b"abcdf")?,
        is_filled(alloc, [9, 7], 0, [false, true, true], b"abcdef")?,
        is_filled(alloc, [4, 0], 9, [true, false, false], b"abcd")?,
        is_filled(alloc, [4, 2], 1, [true, false, false], b"abcd")?,
    ];
    assert!(rt; are_filled == [true; 5]);
    Ok(())
}
