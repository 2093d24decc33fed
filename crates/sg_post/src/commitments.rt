//! Section 1 of what is posted: the commitments.
ghost use Rattle.std.specs.Prelude.{◌≡◌, ◌<◌, ◌+◌, length};
ghost use Rattle.sg_plan.specs.Ballots.{entries_of};
ghost use Rattle.sg_record.specs.Pens.{Writes};
ghost use Rattle.sg_post.specs.Posted.{code_commit_of, row_commit_of};
ghost use Rattle.sg_post.specs.inside.Lines.{entry_commit, instance_row_commits, race_commits, row_commit};
ghost use Rattle.sg_post.specs.inside.Walks.{row_walk};

use crate::counts::{count_entries, count_races};
use sg_commit::{CommitKind, Digest, commit};
use sg_outside::{Failed, Sink};
use sg_record::{Pen, RowCommit, put_code_commit, put_row_commit};
use sg_tables::{QOpenings, RowOpenings, Tables};

/// The commitment to the code of the entry that the walk has come to. The walk then goes on by one.
#[tactic(auto, unfolding(crate::specs::Posted::code_commit_of))]
fn code_commit(tables: &Tables, walk: &mut QOpenings<'_>, race: u32, entry: u32) -> Digest
    requires race { race < length tables.now.plan.races }
    requires entry { entry < entries_of tables.now.plan race }
    requires walk { walk.old ≡ record { plan = tables.now.plan; seed = tables.now.seed; race = race; entry = entry } }
    ensures digest { result ≡ code_commit_of tables.now.plan tables.now.seed race entry }
    ensures walk { walk.new ≡ record { plan = tables.now.plan; seed = tables.now.seed; race = race; entry = entry + 1 } }
{
    let _ = count_races(tables);
    let opening = walk.next();
    commit(CommitKind::Q, race, 0, entry, &opening)
}

/// Writes the commitment to the code of the entry that the walk has come to. The walk then goes on by one.
fn put_entry_commit<O: Sink>(
    pen: &mut Pen,
    tables: &Tables,
    walk: &mut QOpenings<'_>,
    race: u32,
    entry: u32,
    out: &mut O,
) -> Result<(), Failed>
    requires race { race < length tables.now.plan.races }
    requires entry { entry < entries_of tables.now.plan race }
    requires walk { walk.old ≡ record { plan = tables.now.plan; seed = tables.now.seed; race = race; entry = entry } }
    ensures writes { Writes O.written O.faults pen.old out.old pen.new out.new result (entry_commit tables.now.plan tables.now.seed race entry) }
    ensures walk { walk.new ≡ record { plan = tables.now.plan; seed = tables.now.seed; race = race; entry = entry + 1 } }
{
    let digest = code_commit(tables, walk, race, entry);
    put_code_commit(pen, race, &digest, out)
}

/// Writes the commitments to the codes of a race.
pub fn put_race_commits<O: Sink>(
    pen: &mut Pen,
    tables: &Tables,
    race: u32,
    out: &mut O,
) -> Result<(), Failed>
    requires race { race < length tables.now.plan.races }
    ensures { Writes O.written O.faults pen.old out.old pen.new out.new result (race_commits tables.now.plan tables.now.seed race) }
{
    let mut walk = tables.q_openings(race, 0);
    for entry in 0..count_entries(tables, race) {
        put_entry_commit(pen, tables, &mut walk, race, entry, out)?;
    }
    Ok(())
}

/// The commitments to the pointers of the row that the walk has come to. The walk then goes on by one.
#[tactic(auto, unfolding(crate::specs::Posted::row_commit_of))]
fn row_commits(
    tables: &Tables,
    walk: &mut RowOpenings<'_>,
    race: u32,
    instance: u32,
    row: u32,
) -> RowCommit
    requires race { race < length tables.now.plan.races }
    requires instance { instance < tables.now.plan.instances }
    requires row { row < entries_of tables.now.plan race }
    requires walk { walk.old ≡ row_walk tables.now race instance row }
    ensures digests { result ≡ row_commit_of tables.now.plan tables.now.seed race instance row }
    ensures walk { walk.new ≡ row_walk tables.now race instance (row + 1) }
{
    let _ = count_races(tables);
    let (left, right) = walk.next();
    RowCommit {
        left: commit(CommitKind::L, race, instance, row, &left),
        right: commit(CommitKind::R, race, instance, row, &right),
    }
}

/// Writes the commitments to the pointers of the row that the walk has come to. The walk then goes on by one.
fn put_row<O: Sink>(
    pen: &mut Pen,
    tables: &Tables,
    walk: &mut RowOpenings<'_>,
    race: u32,
    instance: u32,
    row: u32,
    out: &mut O,
) -> Result<(), Failed>
    requires race { race < length tables.now.plan.races }
    requires instance { instance < tables.now.plan.instances }
    requires row { row < entries_of tables.now.plan race }
    requires walk { walk.old ≡ row_walk tables.now race instance row }
    ensures writes { Writes O.written O.faults pen.old out.old pen.new out.new result (row_commit tables.now.plan tables.now.seed race instance row) }
    ensures walk { walk.new ≡ row_walk tables.now race instance (row + 1) }
{
    let digests = row_commits(tables, walk, race, instance, row);
    put_row_commit(pen, race, instance, &digests, out)
}

/// Writes the commitments to the pointers of an instance's rows.
pub fn put_instance_commits<O: Sink>(
    pen: &mut Pen,
    tables: &Tables,
    race: u32,
    instance: u32,
    out: &mut O,
) -> Result<(), Failed>
    requires race { race < length tables.now.plan.races }
    requires instance { instance < tables.now.plan.instances }
    ensures { Writes O.written O.faults pen.old out.old pen.new out.new result (instance_row_commits tables.now.plan tables.now.seed race instance) }
{
    let mut walk = tables.row_openings(race, instance, 0);
    for row in 0..count_entries(tables, race) {
        put_row(pen, tables, &mut walk, race, instance, row, out)?;
    }
    Ok(())
}
