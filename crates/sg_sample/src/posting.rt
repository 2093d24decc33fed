//! The record of a sample, in memory.
ghost use Rattle.std.specs.Prelude.{◌≡◌, IfOk, true};
ghost use Rattle.sg_post.specs.Fits.{story_fits};
ghost use Rattle.sg_post.specs.Posted.{posted_text};
ghost use Rattle.sg_post.specs.Posting.{IsPosting};

use crate::gathered::Gathered;
use sg_plan::{NoMemory, Word};
use sg_post::{Posting, Story, write_posted};
use sg_record::Wrote;
use sg_tables::Tables;
use std::alloc::Global;

/// The text that is posted of a story.
pub(crate) fn record_text(
    alloc: Global,
    tables: &Tables,
    posting: &Posting,
    story: &Story,
) -> Result<Word, NoMemory>
    requires fits { story_fits tables.now.plan story.now ≡ true }
    requires posting { IsPosting tables.now.plan tables.now.seed story.now.fates posting.now }
    ensures { IfOk result (λ text. text ≡ posted_text tables.now.plan tables.now.seed story.now) }
{
    let mut gathered = Gathered {
        text: Word::new(alloc),
        faults: 0,
    };
    match write_posted(alloc, tables, posting, story, &mut gathered) {
        Wrote::Written => Ok(gathered.text),
        Wrote::SinkFailed => Err(NoMemory),
        Wrote::NoMemory => Err(NoMemory),
    }
}
