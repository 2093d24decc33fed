//! The text of a story, written line by line.
ghost use Rattle.std.specs.Prelude.{◌≡◌, ◌≤◌, [], None, true};
ghost use Rattle.sg_outside.specs.Streams.{seen};
ghost use Rattle.sg_record.specs.Pens.{IsSealOf, Writes};
ghost use Rattle.sg_record.specs.Writing.{WriteEnds};
ghost use Rattle.sg_post.specs.Fits.{story_fits};
ghost use Rattle.sg_post.specs.Posted.{lines_at, posted_text};
ghost use Rattle.sg_post.specs.Posting.{IsPosting};
ghost use Rattle.sg_post.specs.inside.Ready.{draw_of};

use crate::openings::key_of;
use crate::poster::Poster;
use crate::posting::Posting;
use crate::story::Story;
use sg_outside::{Failed, Sink};
use sg_plan::{Draw, Stage};
use sg_record::{Pen, Wrote, put_stage};
use sg_tables::Tables;
use std::alloc::Global;

/// The draw at a stage: `full` before it is drawn.
fn draw_of<'a>(stage: &'a Stage, full: &'a Draw) -> &'a Draw
    requires { full.now ≡ Draw.Full }
    ensures { result.now ≡ draw_of stage.now }
{
    match stage {
        Stage::Voting => full,
        Stage::Closed => full,
        Stage::Drawn(draw) => draw,
    }
}

/// Writes all lines of a story.
fn put_story<O: Sink>(
    pen: &mut Pen,
    tables: &Tables,
    posting: &Posting,
    story: &Story,
    out: &mut O,
) -> Result<(), Failed>
    requires version { pen.old.version ≡ tables.now.plan.version }
    requires fits { story_fits tables.now.plan story.now ≡ true }
    requires posting { IsPosting tables.now.plan tables.now.seed story.now.fates posting.now }
    requires seal { IsSealOf pen.old.seal [] }
    ensures { Writes O.written O.faults pen.old out.old pen.new out.new result (lines_at tables.now.plan tables.now.seed story.now.fates story.now.claims story.now.stage) }
{
    let _ = tables.plan();
    let full = Draw::Full;
    let draw = draw_of(&story.stage, &full);
    let key = key_of(draw);
    let posted = Poster {
        tables,
        posting,
        story,
        draw,
        key,
    };
    put_stage(pen, &posted, &story.stage, &posting.index, out)
}

/// Writes what is posted of the story so far: section 1 while the ballots are voted on, section 2 too once they are
/// closed, and once sides are drawn section 3 and a block for each claim. Each line is written as one piece, and
/// nothing of the record is kept but a line and the running seal.
///
/// `Written`: the whole text was appended. `SinkFailed`: a front of it was appended, and the sink has counted a fault.
/// `NoMemory`: nothing was written. Memory is wanted for one line alone, before the first is written.
#[tactic(auto, unfolding(crate::specs::Posted::posted_text))]
pub fn write_posted<O: Sink>(
    alloc: Global,
    tables: &Tables,
    posting: &Posting,
    story: &Story,
    out: &mut O,
) -> Wrote
    requires fits { story_fits tables.now.plan story.now ≡ true }
    requires posting { IsPosting tables.now.plan tables.now.seed story.now.fates posting.now }
    ensures ends { WriteEnds result (seen (O.written out.old) (O.faults out.old)) (seen (O.written out.new) (O.faults out.new)) (posted_text tables.now.plan tables.now.seed story.now) }
    ensures later { O.faults out.old ≤ O.faults out.new }
    ensures quiet { result ≡ Wrote.NoMemory → out.new ≡ out.old }
{
    let Ok(mut pen) = Pen::sealing(alloc, tables.plan().version) else {
        return Wrote::NoMemory;
    };
    match put_story(&mut pen, tables, posting, story, out) {
        Ok(()) => Wrote::Written,
        Err(Failed) => Wrote::SinkFailed,
    }
}
