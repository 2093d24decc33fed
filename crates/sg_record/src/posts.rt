//! What the writer of a record asks of what is posted.
ghost use Rattle.std.specs.Prelude.{◌≡◌, ◌<◌, ◌≤◌, [], length, slice_index_or, true};
ghost use Rattle.std.specs.List.{flat_map};
ghost use Rattle.sg_record.specs.Formed.{is_formed};
ghost use Rattle.sg_record.specs.Lines.{lines_before};
ghost use Rattle.sg_record.specs.Tree.{as_line, block_tree, dispute_tree, instance_row_commit_tree, instance_row_tree, race_code_commit_tree, seal_tree};
ghost use Rattle.sg_record.specs.Pens.{SealsWhere, Writes};
ghost use Rattle.sg_record.specs.Writing.{text_in};
ghost use Rattle.sg_record.specs.declared.record.Record.{Record};

use crate::pen::Pen;
use sg_outside::{Failed, Sink};
use sg_plan::{BallotIndex, Draw, Items, Plan};

/// What is posted. It stands for a record, keeps its results as lists, and writes the rest of it list by list.
///
/// Its meaning is `posted`, the record that it stands for; `is_ready`, what is so of it where it does; and `wants_seal`,
/// that its seals are those of the running seal of the pen.
pub trait Posts {
    ghost posted: { Self → Record };

    ghost is_ready: { Self → Type 0 };

    ghost wants_seal: { Type 0 };

    /// The plan.
    fn plan(&self) -> &Plan
        ensures { result.now ≡ (posted self.now).plan };

    /// The draw.
    fn draw(&self) -> &Draw
        ensures { result.now ≡ (posted self.now).draw };

    /// The flags of all rows, by race and instance.
    fn flags(&self) -> &Items<Items<Items<bool>>>
        requires { is_ready self.now }
        ensures { result.now ≡ (posted self.now).flags };

    /// Which places are set, by race.
    fn places(&self) -> &Items<Items<bool>>
        requires { is_ready self.now }
        ensures { result.now ≡ (posted self.now).places };

    /// The votes of each candidate, by race.
    fn totals(&self) -> &Items<Items<u32>>
        requires { is_ready self.now }
        ensures { result.now ≡ (posted self.now).totals };

    /// Writes the commitments of the codes of a race.
    fn put_race_codes<O: Sink>(&self, pen: &mut Pen, race: u32, out: &mut O) -> Result<(), Failed>
        requires ready { is_ready self.now }
        requires race { race < length (posted self.now).plan.races }
        ensures { Writes O.written O.faults pen.old out.old pen.new out.new result (race_code_commit_tree as_line race (slice_index_or (posted self.now).code_commits race [])) };

    /// Writes the commitments of the rows of an instance.
    fn put_instance_commits<O: Sink>(
        &self,
        pen: &mut Pen,
        race: u32,
        instance: u32,
        out: &mut O,
    ) -> Result<(), Failed>
        requires ready { is_ready self.now }
        requires race { race < length (posted self.now).plan.races }
        requires instance { instance < (posted self.now).plan.instances }
        ensures { Writes O.written O.faults pen.old out.old pen.new out.new result (instance_row_commit_tree as_line race instance (slice_index_or (slice_index_or (posted self.now).row_commits race []) instance [])) };

    /// Writes the blocks of all ballots.
    fn put_blocks<O: Sink>(
        &self,
        pen: &mut Pen,
        index: &BallotIndex,
        out: &mut O,
    ) -> Result<(), Failed>
        requires version { pen.old.version ≡ (posted self.now).plan.version }
        requires ready { is_ready self.now }
        requires index { index.now ≡ (posted self.now).plan }
        ensures { Writes O.written O.faults pen.old out.old pen.new out.new result (flat_map (block_tree as_line (posted self.now).plan) (posted self.now).ballots) };

    /// Writes what is opened of the rows of an instance.
    fn put_instance_rows<O: Sink>(
        &self,
        pen: &mut Pen,
        race: u32,
        instance: u32,
        out: &mut O,
    ) -> Result<(), Failed>
        requires ready { is_ready self.now }
        requires race { race < length (posted self.now).plan.races }
        requires instance { instance < (posted self.now).plan.instances }
        ensures { Writes O.written O.faults pen.old out.old pen.new out.new result (instance_row_tree as_line race instance (slice_index_or (slice_index_or (posted self.now).rows race []) instance [])) };

    /// Writes the blocks of all disputes.
    fn put_disputes<O: Sink>(
        &self,
        pen: &mut Pen,
        index: &BallotIndex,
        out: &mut O,
    ) -> Result<(), Failed>
        requires version { pen.old.version ≡ (posted self.now).plan.version }
        requires ready { is_ready self.now }
        requires index { index.now ≡ (posted self.now).plan }
        ensures { Writes O.written O.faults pen.old out.old pen.new out.new result (flat_map (dispute_tree as_line) (posted self.now).disputes) };

    /// Writes the seal of a section, behind all lines before it.
    fn put_seal<O: Sink>(&self, pen: &mut Pen, section: u32, out: &mut O) -> Result<(), Failed>
        requires first { 1 ≤ section }
        requires last { section ≤ 3 }
        requires seal { SealsWhere wants_seal pen.old.seal (text_in (posted self.now).plan.version (lines_before section (posted self.now))) }
        ensures { Writes O.written O.faults pen.old out.old pen.new out.new result (seal_tree as_line section (posted self.now).seals) };
}

/// How many races the plan has.
pub(crate) fn count_races<P: Posts>(posted: &P) -> u32
    requires { is_formed (P.posted posted.now) ≡ true }
    ensures { result ≡ length (P.posted posted.now).plan.races }
{
    posted.plan().races.len() as u32
}

/// How many instances of table R each race has.
pub(crate) fn count_instances<P: Posts>(posted: &P) -> u32
    ensures { result ≡ (P.posted posted.now).plan.instances }
{
    posted.plan().instances
}
