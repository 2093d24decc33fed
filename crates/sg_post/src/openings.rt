//! Section 3 of what is posted: the draw and the openings.
ghost use Rattle.std.specs.Prelude.{◌≡◌, ◌<◌, ◌+◌, true, length};
ghost use Rattle.sg_plan.specs.Ballots.{entries_of};
ghost use Rattle.sg_record.specs.Formed.{is_draw};
ghost use Rattle.sg_record.specs.Pens.{Writes};
ghost use Rattle.sg_post.specs.Marks.{is_entry_audited};
ghost use Rattle.sg_post.specs.Posted.{opened_row};
ghost use Rattle.sg_post.specs.Posting.{IsPosting};
ghost use Rattle.sg_post.specs.inside.Lines.{instance_openings, row_opening};
ghost use Rattle.sg_post.specs.inside.Ready.{IsCoinKey};
ghost use Rattle.sg_post.specs.inside.Walks.{AreDrawn};

use crate::counts::count_entries;
use crate::poster::Poster;
use crate::posting::Posting;
use crate::story::Story;
use sg_outside::{Failed, Sink};
use sg_plan::{Draw, Side};
use sg_record::{Pen, RowOpening, put_row};
use sg_streams::{Coins, Seed, coin_key};
use sg_tables::{RowOpenings, Tables};

/// The seed of the coins: of no use, where each row is opened whole.
pub fn key_of(draw: &Draw) -> Seed
    requires { is_draw draw.now ≡ true }
    ensures { IsCoinKey draw.now result.0 }
{
    match draw {
        Draw::Full => Seed([0; 32]),
        Draw::Public(bytes) => coin_key(bytes.bytes()),
    }
}

/// Whether an entry is one of an audited ballot.
fn is_audited(tables: &Tables, posting: &Posting, story: &Story, race: u32, entry: u32) -> bool
    requires posting { IsPosting tables.now.plan tables.now.seed story.now.fates posting.now }
    requires race { race < length tables.now.plan.races }
    requires entry { entry < entries_of tables.now.plan race }
    ensures { result ≡ is_entry_audited tables.now.plan story.now.fates race entry }
{
    let candidates = tables.plan().candidates(race) as u32;
    let row = entry / candidates;
    let ballot = posting.index.ballot(race, row);
    *posting.audited.get(ballot as usize)
}

/// A walk over the openings of an instance's rows, and one over the coins that say which side is opened.
#[derive(Drop)]
struct DrawnRows<'a> {
    openings: RowOpenings<'a>,
    coins: Coins,
}

/// What is opened of the row that the walks have come to: both sides where each row is opened whole or its entry is of
/// an audited ballot, else the coin's side. The walks then go on by one.
///
/// Both sides are taken, as a block of keys is computed once for many rows.
#[tactic(auto, unfolding(crate::specs::Posted::opened_row))]
fn open_row(
    posted: &Poster<'_>,
    walks: &mut DrawnRows<'_>,
    race: u32,
    instance: u32,
    row: u32,
) -> RowOpening
    requires posting { IsPosting posted.now.tables.now.plan posted.now.tables.now.seed posted.now.story.now.fates posted.now.posting.now }
    requires key { IsCoinKey posted.now.draw.now posted.now.key.0 }
    requires race { race < length posted.now.tables.now.plan.races }
    requires instance { instance < posted.now.tables.now.plan.instances }
    requires row { row < entries_of posted.now.tables.now.plan race }
    requires walks { AreDrawn posted.now.tables.now posted.now.key.0 race instance row walks.old.openings walks.old.coins }
    ensures opening { result ≡ opened_row posted.now.tables.now.plan posted.now.tables.now.seed posted.now.story.now.fates posted.now.draw.now race instance row }
    ensures walks { AreDrawn posted.now.tables.now posted.now.key.0 race instance (row + 1) walks.new.openings walks.new.coins }
{
    let side = walks.coins.next();
    let (left, right) = walks.openings.next();
    match posted.draw {
        Draw::Full => RowOpening::Both(left, right),
        Draw::Public(_) => {
            let (entry, _) = posted.tables.r_row(race, instance, row);
            if is_audited(posted.tables, posted.posting, posted.story, race, entry) {
                return RowOpening::Both(left, right);
            }
            match side {
                Side::Left => RowOpening::Left(left),
                Side::Right => RowOpening::Right(right),
            }
        }
    }
}

/// Writes what is opened of the row that the walks have come to. The walks then go on by one.
fn put_opening<O: Sink>(
    pen: &mut Pen,
    posted: &Poster<'_>,
    walks: &mut DrawnRows<'_>,
    race: u32,
    instance: u32,
    row: u32,
    out: &mut O,
) -> Result<(), Failed>
    requires posting { IsPosting posted.now.tables.now.plan posted.now.tables.now.seed posted.now.story.now.fates posted.now.posting.now }
    requires key { IsCoinKey posted.now.draw.now posted.now.key.0 }
    requires race { race < length posted.now.tables.now.plan.races }
    requires instance { instance < posted.now.tables.now.plan.instances }
    requires row { row < entries_of posted.now.tables.now.plan race }
    requires walks { AreDrawn posted.now.tables.now posted.now.key.0 race instance row walks.old.openings walks.old.coins }
    ensures writes { Writes O.written O.faults pen.old out.old pen.new out.new result (row_opening posted.now.tables.now.plan posted.now.tables.now.seed posted.now.story.now.fates posted.now.draw.now race instance row) }
    ensures walks { AreDrawn posted.now.tables.now posted.now.key.0 race instance (row + 1) walks.new.openings walks.new.coins }
{
    let opening = open_row(posted, walks, race, instance, row);
    put_row(pen, &opening, out)
}

/// Writes what is opened of an instance's rows.
pub fn put_instance_rows<O: Sink>(
    pen: &mut Pen,
    posted: &Poster<'_>,
    race: u32,
    instance: u32,
    out: &mut O,
) -> Result<(), Failed>
    requires posting { IsPosting posted.now.tables.now.plan posted.now.tables.now.seed posted.now.story.now.fates posted.now.posting.now }
    requires key { IsCoinKey posted.now.draw.now posted.now.key.0 }
    requires race { race < length posted.now.tables.now.plan.races }
    requires instance { instance < posted.now.tables.now.plan.instances }
    ensures { Writes O.written O.faults pen.old out.old pen.new out.new result (instance_openings posted.now.tables.now.plan posted.now.tables.now.seed posted.now.story.now.fates posted.now.draw.now race instance) }
{
    let mut walks = DrawnRows {
        openings: posted.tables.row_openings(race, instance, 0),
        coins: Coins::at(&posted.key, race, instance, 0),
    };
    for row in 0..count_entries(posted.tables, race) {
        put_opening(pen, posted, &mut walks, race, instance, row, out)?;
    }
    Ok(())
}
