//! `record`: what the office posts so far.
ghost use Rattle.std.specs.Prelude.{◌≡◌, ◌≤◌};
ghost use Rattle.sg_outside.specs.Streams.{seen};
ghost use Rattle.sg_clerk.specs.Opening.{OfficeEnds};
ghost use Rattle.sg_clerk.specs.Shown.{ShowSays, posted_of};
ghost use Rattle.sg_clerk.specs.inside.Posted.{IsToldBy};
ghost use Rattle.sg_post.specs.Posting.{IsPosting};

use crate::office::open_office;
use sg_keeper::Keeper;
use sg_office::Office;
use sg_outside::{Outcome, Sink};
use sg_plan::NoMemory;
use sg_post::{Posting, Story, write_posted};
use sg_record::Wrote;
use std::alloc::Global;

/// Writes the text of a posting, each line in one put, and lets the posting go.
fn write_posting<O: Sink>(
    alloc: Global,
    office: &Office,
    story: &Story,
    posting: Posting,
    out: &mut O,
) -> Outcome
    requires story { IsToldBy story.now office.now }
    requires posting { IsPosting office.now.setup.plan office.now.setup.seed.0 story.now.fates posting }
    ensures { OfficeEnds posted_of result office.now (seen (O.written out.old) (O.faults out.old)) (seen (O.written out.new) (O.faults out.new)) }
{
    let wrote = write_posted(alloc, office.tables(), &posting, story, out);
    drop(posting);
    match wrote {
        Wrote::Written => Outcome::Done,
        Wrote::SinkFailed => Outcome::WriteFailed,
        Wrote::NoMemory => Outcome::NoMemory,
    }
}

/// Posts what the office tells.
fn post_story<O: Sink>(alloc: Global, office: &Office, story: &Story, out: &mut O) -> Outcome
    requires { IsToldBy story.now office.now }
    ensures { OfficeEnds posted_of result office.now (seen (O.written out.old) (O.faults out.old)) (seen (O.written out.new) (O.faults out.new)) }
{
    match Posting::make(alloc, office.tables(), story) {
        Ok(posting) => write_posting(alloc, office, story, posting, out),
        Err(NoMemory) => Outcome::NoMemory,
    }
}

/// Writes the text that the office posts at its stage: each line in one put.
fn write_story<O: Sink>(alloc: Global, office: &Office, out: &mut O) -> Outcome
    ensures { OfficeEnds posted_of result office.now (seen (O.written out.old) (O.faults out.old)) (seen (O.written out.new) (O.faults out.new)) }
{
    match office.story(alloc) {
        Ok(story) => {
            let shown = post_story(alloc, office, &story, out);
            drop(story);
            shown
        }
        Err(NoMemory) => Outcome::NoMemory,
    }
}

/// Writes what the office posts: section 1 of the record while voting goes on, sections 1 and 2 when it has ended, and
/// behind the draw the whole record with a block for each claim. The keeper's rows stay as they are.
pub fn record<K: Keeper, O: Sink>(alloc: Global, keeper: &mut K, out: &mut O) -> Outcome
    ensures says { ShowSays posted_of result (K.tells keeper.old) (K.rows keeper.old) (K.faults keeper.old) (K.faults keeper.new)
        (seen (O.written out.old) (O.faults out.old)) (seen (O.written out.new) (O.faults out.new)) }
    ensures told { K.tells keeper.old → K.tells keeper.new }
    ensures same { K.tells keeper.old → K.rows keeper.new ≡ K.rows keeper.old }
    ensures later { K.faults keeper.old ≤ K.faults keeper.new }
{
    match open_office(alloc, keeper, out) {
        Ok(office) => {
            let shown = write_story(alloc, &office, out);
            drop(office);
            shown
        }
        Err(how) => how,
    }
}
