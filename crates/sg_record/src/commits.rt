//! Section 1 of a record, written: the plan and the commitments.
ghost use Rattle.std.specs.Prelude.{◌≡◌, ◌≤◌, ◌<◌, ◌∷◌, [], length, slice_index_or, true};
ghost use Rattle.sg_forms.specs.Said.Said.{CodeCommit, RowCommit as Commits};
ghost use Rattle.sg_record.specs.Formed.{is_formed};
ghost use Rattle.sg_record.specs.Lines.{first_lines};
ghost use Rattle.sg_record.specs.Tree.{as_line, indexed, race_code_commit_tree, race_row_commit_tree};
ghost use Rattle.sg_record.specs.Pens.{SealsWhere, Writes};

use crate::head::put_plan;
use crate::pen::Pen;
use crate::posts::{Posts, count_instances, count_races};
use crate::record::RowCommit;
use sg_commit::Digest;
use sg_forms::Line;
use sg_outside::{Failed, Sink};

/// Writes the commitment of an entry's code.
pub fn put_code_commit<O: Sink>(
    pen: &mut Pen,
    race: u32,
    digest: &Digest,
    out: &mut O,
) -> Result<(), Failed>
    ensures { Writes O.written O.faults pen.old out.old pen.new out.new result (CodeCommit race digest.now ∷ []) }
{
    let digest = *digest;
    pen.put_line(&Line::CodeCommit { race, digest }, out)
}

/// Writes the commitments of a row's two pointers.
pub fn put_row_commit<O: Sink>(
    pen: &mut Pen,
    race: u32,
    instance: u32,
    digests: &RowCommit,
    out: &mut O,
) -> Result<(), Failed>
    ensures { Writes O.written O.faults pen.old out.old pen.new out.new result (Commits race instance digests.now.left digests.now.right ∷ []) }
{
    let line = Line::RowCommit {
        race,
        instance,
        left: digests.left,
        right: digests.right,
    };
    pen.put_line(&line, out)
}

/// Writes the commitments of the codes of all races.
fn put_code_commits<P: Posts, O: Sink>(pen: &mut Pen, posted: &P, out: &mut O) -> Result<(), Failed>
    requires ready { P.is_ready posted.now }
    requires formed { is_formed (P.posted posted.now) ≡ true }
    ensures { Writes O.written O.faults pen.old out.old pen.new out.new result (indexed (race_code_commit_tree as_line) 0 (P.posted posted.now).code_commits) }
{
    for race in 0..count_races(posted) {
        posted.put_race_codes(pen, race, out)?;
    }
    Ok(())
}

/// Writes the commitments of the rows of a race.
fn put_race_commits<P: Posts, O: Sink>(
    pen: &mut Pen,
    posted: &P,
    race: u32,
    out: &mut O,
) -> Result<(), Failed>
    requires ready { P.is_ready posted.now }
    requires formed { is_formed (P.posted posted.now) ≡ true }
    requires race { race < length (P.posted posted.now).plan.races }
    ensures { Writes O.written O.faults pen.old out.old pen.new out.new result (race_row_commit_tree as_line race (slice_index_or (P.posted posted.now).row_commits race [])) }
{
    for instance in 0..count_instances(posted) {
        posted.put_instance_commits(pen, race, instance, out)?;
    }
    Ok(())
}

/// Writes the commitments of the rows of all races.
fn put_row_commits<P: Posts, O: Sink>(pen: &mut Pen, posted: &P, out: &mut O) -> Result<(), Failed>
    requires ready { P.is_ready posted.now }
    requires formed { is_formed (P.posted posted.now) ≡ true }
    ensures { Writes O.written O.faults pen.old out.old pen.new out.new result (indexed (race_row_commit_tree as_line) 0 (P.posted posted.now).row_commits) }
{
    for race in 0..count_races(posted) {
        put_race_commits(pen, posted, race, out)?;
    }
    Ok(())
}

/// Writes the plan, the commitments of all races, and the seal.
pub(crate) fn put_first<P: Posts, O: Sink>(
    pen: &mut Pen,
    posted: &P,
    out: &mut O,
) -> Result<(), Failed>
    requires version { pen.old.version ≡ (P.posted posted.now).plan.version }
    requires ready { P.is_ready posted.now }
    requires formed { is_formed (P.posted posted.now) ≡ true }
    requires seal { SealsWhere P.wants_seal pen.old.seal [] }
    ensures { Writes O.written O.faults pen.old out.old pen.new out.new result (first_lines (P.posted posted.now)) }
{
    put_plan(pen, posted.plan(), out)?;
    put_code_commits(pen, posted, out)?;
    put_row_commits(pen, posted, out)?;
    posted.put_seal(pen, 1, out)
}
