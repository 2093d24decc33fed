//! The tables of an office, and the posting of a story.
ghost use Rattle.std.specs.Prelude.{◌≡◌, true, IfOk};
ghost use Rattle.sg_post.specs.Fits.{story_fits};

use crate::fault::Fault;
use sg_outside::Page;
use sg_plan::{BallotIndex, Plan};
use sg_post::{Posting, Story, write_posted};
use sg_record::Wrote;
use sg_streams::Seed;
use sg_tables::Tables;
use std::alloc::Global;

/// The tables of a plan, where it keeps its limits.
pub(crate) fn tables_of(alloc: Global, plan: &Plan, seed: &Seed) -> Result<Tables, Fault> {
    if plan.check().is_err() {
        return Err(Fault::Case);
    }
    let tables = Tables::make(alloc, plan, seed)?;
    Ok(tables)
}

/// Whether the story may be posted.
fn fits(alloc: Global, tables: &Tables, story: &Story) -> Result<bool, Fault>
    ensures { IfOk result (λ fits. fits ≡ story_fits tables.now.plan story.now) }
{
    let index = BallotIndex::make(alloc, tables.plan())?;
    let fits = story.fits(tables.plan(), &index);
    drop(index);
    Ok(fits)
}

/// Posts a story that may be posted.
fn post_fit(alloc: Global, tables: &Tables, story: &Story, page: &mut Page) -> Result<Wrote, Fault>
    requires { story_fits tables.now.plan story.now ≡ true }
{
    let posting = Posting::make(alloc, tables, story)?;
    let wrote = write_posted(alloc, tables, &posting, story, page);
    drop(posting);
    Ok(wrote)
}

/// Posts a story into a page, and answers how that ended.
pub(crate) fn post(
    alloc: Global,
    tables: &Tables,
    story: &Story,
    page: &mut Page,
) -> Result<Wrote, Fault> {
    if !fits(alloc, tables, story)? {
        return Err(Fault::Case);
    }
    post_fit(alloc, tables, story, page)
}
