//! Reads a record from memory, and writes it back where it is asked to, so that the work can be timed.
//!
//! The word is `copy` (the bytes are copied line by line), `read` (each line is read, and taken where it may stand),
//! `write` (each line that is read is written too, and must be the same bytes), `gather` (the record is read as a whole) or
//! `post` (it is written too, and must be the same bytes). The number of the lines is printed, or that of the blocks of
//! ballots.
ghost use Rattle.std.specs.Prelude.{◌≡◌, ◌≤◌, ◌⊎◌, length, true};
ghost use Rattle.sg_forms.specs.Said.{said};
ghost use Rattle.sg_forms.specs.Spelling.{IsInRange};
ghost use Rattle.sg_record.specs.Formed.{is_formed};
ghost use Rattle.sg_plan.specs.Limits.{longest_line};

use crate::stop::Stop;
use crate::task::Task;
use sg_outside::{Page, line_end};
use sg_plan::limits::LONGEST_LINE;
use sg_record::{Expect, Line, Record, Wrote, read_line, read_record, write_line, write_record};
use std::alloc::Global;
use std::io::Read;

/// The most lines of a record.
const MOST_LINES: u32 = 1_200_000;

/// What is done with each line.
#[derive(Clone, Copy, PartialEq, Eq)]
enum Work {
    /// Its bytes are copied.
    Copy,
    /// It is read, and taken where it may stand.
    Read,
    /// It is written too, and must be the same bytes.
    Write,
    /// All are read as a whole record.
    Gather,
    /// That record is written too, and must be the same bytes.
    Post,
}

/// The line is written as these bytes.
#[tactic(auto, using(sg_forms::proofs::Fits::in_range_fits))]
fn is_written(version: u32, line: &Line, bytes: &[u8], buffer: &mut [u8]) -> bool
    requires version { (version ≡ 1) ⊎ (version ≡ 2) }
    requires line { IsInRange version (said line.now) }
    requires room { longest_line ≤ length buffer.old }
    ensures { length buffer.new ≡ length buffer.old }
{
    let end = write_line(version, line, buffer);
    buffer.get(..end) == Some(bytes)
}

/// Reads the line of these bytes, and takes it where it may stand next.
fn take(expect: &mut Expect, bytes: &[u8], work: Work, buffer: &mut [u8]) -> Result<(), Stop>
    requires room { longest_line ≤ length buffer.old }
    ensures { length buffer.new ≡ length buffer.old }
{
    let Some(line) = read_line(expect, bytes) else {
        return Err(Stop::Line);
    };
    let version = expect.plan().version;
    if work == Work::Write && (version == 1 || version == 2) {
        if !is_written(version, &line, bytes, buffer) {
            return Err(Stop::Line);
        }
    }
    if expect.is_of_plan(&line) {
        expect.plan_step(&line)?;
    } else {
        expect.step(&line);
    }
    Ok(())
}

/// Takes each line of the record, and answers how many there are.
fn take_each(expect: &mut Expect, record: &[u8], work: Work, buffer: &mut [u8]) -> Result<u32, Stop>
    requires room { longest_line ≤ length buffer.old }
{
    let mut start = 0;
    for number in 0..MOST_LINES {
        if start >= record.len() {
            return Ok(number);
        }
        let end = line_end(record, start);
        take(expect, &record[start..end], work, buffer)?;
        start = end;
    }
    Err(Stop::Line)
}

/// Takes each line of the record, from the first one on, and answers how many there are.
fn take_all(alloc: Global, record: &[u8], work: Work, buffer: &mut [u8]) -> Result<u32, Stop>
    requires room { longest_line ≤ length buffer.old }
{
    let mut expect = Expect::start(alloc);
    let taken = take_each(&mut expect, record, work, buffer);
    drop(expect);
    taken
}

/// Copies each line of the record, and answers how many there are.
fn copy_all(record: &[u8], buffer: &mut [u8]) -> Result<u32, Stop> {
    let mut start = 0;
    for number in 0..MOST_LINES {
        if start >= record.len() {
            return Ok(number);
        }
        let end = line_end(record, start);
        let line = &record[start..end];
        let Some(place) = buffer.get_mut(..line.len()) else {
            return Err(Stop::Line);
        };
        place.copy_from_slice(line);
        start = end;
    }
    Err(Stop::Line)
}

/// A formed record is written on a page as these bytes.
fn is_written_on(alloc: Global, posted: &Record, bytes: &[u8], page: &mut Page) -> bool
    requires { is_formed posted.now ≡ true }
{
    let wrote = write_record(alloc, posted, page);
    wrote == Wrote::Written && page.written() == bytes
}

/// The record is written as these bytes.
fn is_posted(alloc: Global, posted: &Record, bytes: &[u8]) -> Result<bool, Stop> {
    if !posted.is_formed(alloc)? {
        return Ok(false);
    }
    let mut page = Page::new(alloc, bytes.len(), Vec::new(alloc), 0)?;
    let is_posted = is_written_on(alloc, posted, bytes, &mut page);
    drop(page);
    Ok(is_posted)
}

/// Writes a record back where it is asked to, and answers how many ballots have blocks.
fn count_blocks(alloc: Global, posted: &Record, bytes: &[u8], work: Work) -> Result<u32, Stop> {
    if work == Work::Post && !is_posted(alloc, posted, bytes)? {
        return Err(Stop::Line);
    }
    u32::try_from(posted.ballots.len()).map_err(|_| Stop::Line)
}

/// Reads the record as a whole, writes it back where it is asked to, and answers how many ballots have blocks.
fn gather(alloc: Global, bytes: &[u8], work: Work) -> Result<u32, Stop> {
    match read_record(alloc, bytes)? {
        Some(posted) => {
            let count = count_blocks(alloc, &posted, bytes, work);
            drop(posted);
            count
        }
        None => Err(Stop::Line),
    }
}

/// Does the work on the record, and answers how many lines or blocks it has.
fn go(alloc: Global, work: Work, record: &[u8]) -> Result<u32, Stop> {
    let mut buffer = vec![in alloc; 0; LONGEST_LINE]?;
    match work {
        Work::Copy => copy_all(record, &mut buffer),
        Work::Read => take_all(alloc, record, work, &mut buffer),
        Work::Write => take_all(alloc, record, work, &mut buffer),
        Work::Gather => gather(alloc, record, work),
        Work::Post => gather(alloc, record, work),
    }
}

/// Does the work on the record of the input, and answers how many lines or blocks it has.
fn read_and_go<R: Read>(alloc: Global, work: Work, input: &mut R) -> Result<u32, Stop> {
    let mut record = Vec::new(alloc);
    input.read_to_end(&mut record)?;
    go(alloc, work, &record)
}

/// The work that a word names.
fn work_of(word: &str) -> Option<Work> {
    match word {
        "copy" => Some(Work::Copy),
        "read" => Some(Work::Read),
        "write" => Some(Work::Write),
        "gather" => Some(Work::Gather),
        "post" => Some(Work::Post),
        _ => None,
    }
}

/// Does a work on the record of standard input, and says how many lines or blocks it has.
pub(crate) fn measure(rt: &HostRuntime, task: Task<'_>) -> Result<(), Stop> {
    let word = task.word;
    let Some(work) = work_of(word) else {
        return Ok(println!(rt; "usage: measures lines copy|read|write|gather|post")?);
    };
    let count = read_and_go(rt.alloc(), work, &mut rt.stdin())?;
    Ok(println!(rt; "{word} {count}")?)
}
