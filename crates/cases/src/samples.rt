//! The summary of each sample run that a line of the input asks for, by a number for its seed and a number of ballots, or
//! `none` where the line asks for no sample. Behind the word `posted` it is the SHA-256 hash and the last line of the
//! record that is posted of the run's story, which is made without the office's machine.
//!
//! What is wanted comes from another implementation.
mod election;
mod posted;

ghost use Rattle.std.specs.Prelude.{◌≤◌, IfSome};

use crate::fault::Fault;
use posted::tell_posted;
use sg_lines::Parts;
use sg_outside::{Outcome, Page};
use sg_sample::{Sample, sample, sample_of};
use std::alloc::Global;
use std::io::Write;

/// Room for a summary, in bytes: the longest has 223.
const ROOM: usize = 1_000;

/// The sample that two words ask for.
fn asked(line: &[u8]) -> Option<Sample>
    ensures some { IfSome result (λ sample. 1 ≤ sample.ballots) }
    ensures few { IfSome result (λ sample. sample.ballots ≤ 9000) }
{
    let mut words = Parts::new(b' ', line);
    let seed = words.part()?;
    let ballots = words.part()?;
    match words.part() {
        None => sample_of(seed, ballots),
        Some(_) => None,
    }
}

/// Runs a sample, whose summary comes on a page, and writes it.
fn tell_page<W: Write>(
    alloc: Global,
    asked: Sample,
    page: &mut Page,
    out: &mut W,
) -> Result<(), Fault>
    requires some { 1 ≤ asked.ballots }
    requires few { asked.ballots ≤ 9000 }
{
    match sample(alloc, asked, page) {
        Outcome::Done => Ok(out.write_all(page.written())?),
        Outcome::NoMemory => Err(Fault::Outside),
        _ => Err(Fault::Case),
    }
}

/// Writes the summary of a sample.
fn tell_summary<W: Write>(alloc: Global, asked: Sample, out: &mut W) -> Result<(), Fault>
    requires some { 1 ≤ asked.ballots }
    requires few { asked.ballots ≤ 9000 }
{
    let mut page = Page::new(alloc, ROOM, Vec::new(alloc), 0)?;
    let told = tell_page(alloc, asked, &mut page, out);
    drop(page);
    told
}

/// Writes what is said of a line.
fn tell_line<W: Write>(alloc: Global, line: &[u8], out: &mut W) -> Result<(), Fault> {
    if let Some(words) = line.strip_prefix(b"posted ") {
        return match asked(words) {
            Some(asked) => tell_posted(alloc, asked, out),
            None => Err(Fault::Case),
        };
    }
    match asked(line) {
        Some(asked) => tell_summary(alloc, asked, out),
        None => Ok(out.write_all(b"none\n")?),
    }
}

/// Writes what is said of each line, up to the first empty one.
pub(crate) fn tell<W: Write>(alloc: Global, text: &[u8], out: &mut W) -> Result<(), Fault> {
    for line in text.split(|byte| *byte == b'\n') {
        if line.is_empty() {
            return Ok(());
        }
        tell_line(alloc, line, out)?;
    }
    Ok(())
}
