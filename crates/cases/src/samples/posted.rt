//! What is posted of a sample's story.
use super::election::{plan, seed, story};
use crate::digest::digest_of;
use crate::fault::Fault;
use crate::posting::{post, tables_of};
use sg_lines::write_hex;
use sg_outside::Page;
use sg_post::Story;
use sg_record::Wrote;
use sg_sample::Sample;
use sg_tables::Tables;
use std::alloc::Global;
use std::io::Write;

/// Room for a record, in bytes.
const ROOM: usize = 2_000_000;

/// The last line of a text.
fn last_line(text: &[u8]) -> &[u8] {
    match text.iter().rposition(|byte| *byte == b'\n') {
        None => text,
        Some(end) => match text[..end].iter().rposition(|byte| *byte == b'\n') {
            None => text,
            Some(before) => &text[before + 1..],
        },
    }
}

/// Writes the hash of a record, and its last line.
fn tell_written<W: Write>(record: &[u8], out: &mut W) -> Result<(), Fault> {
    let mut digits = [0; 64];
    write_hex(&digest_of(record).0, &mut digits);
    out.write_all(b"record ")?;
    out.write_all(&digits)?;
    out.write_all(b"\n")?;
    out.write_all(last_line(record))?;
    Ok(())
}

/// Posts a story into a page, and writes what is told of its record.
fn tell_page<W: Write>(
    alloc: Global,
    tables: &Tables,
    story: &Story,
    page: &mut Page,
    out: &mut W,
) -> Result<(), Fault> {
    match post(alloc, tables, story, page)? {
        Wrote::Written => tell_written(page.written(), out),
        Wrote::SinkFailed => Err(Fault::Case),
        Wrote::NoMemory => Err(Fault::Outside),
    }
}

/// The same, with room for the record.
fn tell_record<W: Write>(
    alloc: Global,
    tables: &Tables,
    story: &Story,
    out: &mut W,
) -> Result<(), Fault> {
    let mut page = Page::new(alloc, ROOM, Vec::new(alloc), 0)?;
    let told = tell_page(alloc, tables, story, &mut page, out);
    drop(page);
    told
}

/// Posts the story of a sample over its tables.
fn tell_story<W: Write>(
    alloc: Global,
    tables: &Tables,
    sample: Sample,
    out: &mut W,
) -> Result<(), Fault> {
    let story = story(alloc, tables, sample)?;
    let told = tell_record(alloc, tables, &story, out);
    drop(story);
    told
}

/// The tables of a sample.
fn tables_for(alloc: Global, sample: Sample) -> Result<Tables, Fault> {
    let plan = plan(alloc, sample.ballots)?;
    let tables = tables_of(alloc, &plan, &seed(sample.seed));
    drop(plan);
    tables
}

/// Writes the hash of the record that is posted of a sample's story, and its last line.
pub(super) fn tell_posted<W: Write>(
    alloc: Global,
    sample: Sample,
    out: &mut W,
) -> Result<(), Fault> {
    let tables = tables_for(alloc, sample)?;
    let told = tell_story(alloc, &tables, sample, out);
    drop(tables);
    told
}
