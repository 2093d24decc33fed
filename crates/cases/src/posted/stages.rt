//! The text of each stage of an election, beside its record.
use super::told::{put_claims, put_fates, stage_of};
use crate::fault::Fault;
use crate::posting::{post, tables_of};
use sg_outside::Page;
use sg_plan::{Items, Stage};
use sg_post::Story;
use sg_record::{Record, Wrote, read_record};
use sg_streams::Seed;
use sg_tables::Tables;
use std::alloc::Global;
use std::io::Write;

/// How long the text may be for which sinks fail at each call: the time rises with its square.
const MOST_WITH_FAULTS: usize = 9_000;

/// How many bytes a failing call keeps.
const KEPT: usize = 3;

/// What comes of posting a story.
#[derive(Clone, Copy, Debug)]
struct Came {
    /// How many bytes were written.
    length: usize,
    /// Those are a front of the record, and as much of it as the sink's faults allow.
    is_front: bool,
}

/// A record: what it says, and its bytes.
#[derive(Clone, Copy)]
struct Read<'a> {
    record: &'a Record,
    bytes: &'a [u8],
}

/// Posts a story into a page, of which a call may fail.
fn post_on(
    alloc: Global,
    tables: &Tables,
    story: &Story,
    bytes: &[u8],
    may_fail: bool,
    page: &mut Page,
) -> Result<Came, Fault> {
    let is_ended = match post(alloc, tables, story, page)? {
        Wrote::Written => !may_fail,
        Wrote::SinkFailed => may_fail,
        Wrote::NoMemory => return Err(Fault::Outside),
    };
    Ok(Came {
        length: page.written().len(),
        is_front: is_ended && bytes.starts_with(page.written()),
    })
}

/// Posts a story into a page where these calls fail.
fn came_of(
    alloc: Global,
    tables: &Tables,
    story: &Story,
    bytes: &[u8],
    fails: &[u32],
) -> Result<Came, Fault> {
    let fails_at = Vec::from_slice(alloc, fails)?;
    let mut page = Page::new(alloc, bytes.len(), fails_at, KEPT)?;
    let came = post_on(alloc, tables, story, bytes, !fails.is_empty(), &mut page);
    drop(page);
    came
}

/// How many lines the record has.
fn lines_of(record: &[u8]) -> u32 {
    let mut lines: u32 = 0;
    for byte in record.iter() {
        if *byte == b'\n' {
            lines = lines.saturating_add(1);
        }
    }
    lines
}

/// How many calls are tried: those of all lines, where they are few.
fn calls_of(record: &[u8]) -> u32 {
    if record.len() > MOST_WITH_FAULTS {
        return 0;
    }
    lines_of(record)
}

/// Posts the story into sinks that fail at one of so many calls each, and answers how many of them are left with a
/// front.
fn fronts_of(
    alloc: Global,
    tables: &Tables,
    story: &Story,
    bytes: &[u8],
    calls: u32,
) -> Result<u32, Fault> {
    let mut fronts: u32 = 0;
    for call in 0..calls {
        let came = came_of(alloc, tables, story, bytes, &[call])?;
        if came.is_front {
            fronts = fronts.saturating_add(1);
        }
    }
    Ok(fronts)
}

/// Writes how many sinks that fail at a call are left with a front.
fn tell_fronts<W: Write>(
    alloc: Global,
    tables: &Tables,
    story: &Story,
    bytes: &[u8],
    out: &mut W,
) -> Result<(), Fault> {
    let fronts = fronts_of(alloc, tables, story, bytes, calls_of(bytes))?;
    writeln!(out, " {fronts}")?;
    Ok(())
}

/// Posts a story, and writes how long its text is; of a drawn one, how many sinks are left with a front.
fn tell_story<W: Write>(
    alloc: Global,
    tables: &Tables,
    story: &Story,
    bytes: &[u8],
    out: &mut W,
) -> Result<(), Fault> {
    let came = came_of(alloc, tables, story, bytes, &[])?;
    let length = came.length;
    write!(out, " {length}")?;
    if !came.is_front {
        out.write_all(b" is no front")?;
    }
    match &story.stage {
        Stage::Drawn(_) => tell_fronts(alloc, tables, story, bytes, out),
        Stage::Voting => Ok(()),
        Stage::Closed => Ok(()),
    }
}

/// Puts what the record tells up to the story's stage: the fates, and behind the draw the claims.
fn put_story(
    alloc: Global,
    tables: &Tables,
    record: &Record,
    story: &mut Story,
) -> Result<(), Fault> {
    put_fates(alloc, tables, record, &mut story.fates)?;
    match &story.stage {
        Stage::Drawn(_) => put_claims(record, &mut story.claims),
        Stage::Voting => Ok(()),
        Stage::Closed => Ok(()),
    }
}

/// The story of the record up to a stage.
fn story_of(alloc: Global, tables: &Tables, record: &Record, stage: Stage) -> Result<Story, Fault> {
    let mut story = Story {
        fates: Items::new(alloc),
        stage,
        claims: Items::new(alloc),
    };
    put_story(alloc, tables, record, &mut story)?;
    Ok(story)
}

/// Posts the story up to a stage, and writes what comes of it.
fn tell_stage<W: Write>(
    alloc: Global,
    tables: &Tables,
    read: Read<'_>,
    stage: Stage,
    out: &mut W,
) -> Result<(), Fault> {
    let story = story_of(alloc, tables, read.record, stage)?;
    let told = tell_story(alloc, tables, &story, read.bytes, out);
    drop(story);
    told
}

/// Posts the stories of the stages, and writes how long their texts are, and how many sinks that fail at a call are
/// left with a front.
fn tell_stages<W: Write>(
    alloc: Global,
    tables: &Tables,
    read: Read<'_>,
    out: &mut W,
) -> Result<(), Fault> {
    tell_stage(alloc, tables, read, Stage::Voting, out)?;
    tell_stage(alloc, tables, read, Stage::Closed, out)?;
    tell_stage(alloc, tables, read, stage_of(alloc, read.record)?, out)
}

/// Posts the stories of a record, over the tables of its office.
fn tell_read<W: Write>(
    alloc: Global,
    seed: &Seed,
    read: Read<'_>,
    out: &mut W,
) -> Result<(), Fault> {
    let tables = tables_of(alloc, &read.record.plan, seed)?;
    let told = tell_stages(alloc, &tables, read, out);
    drop(tables);
    told
}

/// Posts the election of one record, and writes what came of it.
pub(super) fn tell_record<W: Write>(
    alloc: Global,
    seed: &Seed,
    bytes: &[u8],
    out: &mut W,
) -> Result<(), Fault> {
    match read_record(alloc, bytes)? {
        Some(record) => {
            let read = Read {
                record: &record,
                bytes,
            };
            let told = tell_read(alloc, seed, read, out);
            drop(record);
            told
        }
        None => Err(Fault::Case),
    }
}
