//! The text of a record, written line by line.
ghost use Rattle.std.specs.Prelude.{◌≡◌, ◌≤◌, [], IfOk, true, None};
ghost use Rattle.sg_plan.specs.Limits.{fault_of};
ghost use Rattle.sg_record.specs.Formed.{is_formed};
ghost use Rattle.sg_record.specs.Lines.{lines_in, plan_lines, second_lines, stage_lines, text_of};
ghost use Rattle.sg_record.specs.Pens.{SealsWhere, Writes};
ghost use Rattle.sg_outside.specs.Streams.{seen};
ghost use Rattle.sg_record.specs.Writing.{WriteEnds, text_in};

use crate::commits::put_first;
use crate::head::put_plan;
use crate::openings::put_openings;
use crate::pen::Pen;
use crate::posts::Posts;
use crate::record::Record;
use crate::results::put_closed;
use sg_outside::{Failed, Sink};
use sg_plan::{BallotIndex, Plan, Stage};
use std::alloc::Global;

/// How the writing of a record ended.
#[derive(Clone, Copy, Debug, PartialEq, Eq)]
pub enum Wrote {
    /// The text was written whole.
    Written,
    /// The sink failed, behind a front of the text.
    SinkFailed,
    /// No memory was left. A front of the text was written.
    NoMemory,
}

/// Writes the lines of a formed record up to the end of section 2.
fn put_second<P: Posts, O: Sink>(
    pen: &mut Pen,
    posted: &P,
    index: &BallotIndex,
    out: &mut O,
) -> Result<(), Failed>
    requires version { pen.old.version ≡ (P.posted posted.now).plan.version }
    requires ready { P.is_ready posted.now }
    requires formed { is_formed (P.posted posted.now) ≡ true }
    requires index { index.now ≡ (P.posted posted.now).plan }
    requires seal { SealsWhere P.wants_seal pen.old.seal [] }
    ensures { Writes O.written O.faults pen.old out.old pen.new out.new result (second_lines (P.posted posted.now)) }
{
    put_first(pen, posted, out)?;
    put_closed(pen, posted, index, out)
}

/// Writes all lines of a formed record.
fn put_record<P: Posts, O: Sink>(
    pen: &mut Pen,
    posted: &P,
    index: &BallotIndex,
    out: &mut O,
) -> Result<(), Failed>
    requires version { pen.old.version ≡ (P.posted posted.now).plan.version }
    requires ready { P.is_ready posted.now }
    requires formed { is_formed (P.posted posted.now) ≡ true }
    requires index { index.now ≡ (P.posted posted.now).plan }
    requires seal { SealsWhere P.wants_seal pen.old.seal [] }
    ensures { Writes O.written O.faults pen.old out.old pen.new out.new result (lines_in (P.posted posted.now)) }
{
    put_second(pen, posted, index, out)?;
    put_openings(pen, posted, out)?;
    posted.put_disputes(pen, index, out)
}

/// Writes as much of what is posted as stands at a stage: section 1 while ballots are voted on, section 2 too once they are
/// closed, and all of it once sides are drawn. Each line is written as one piece.
pub fn put_stage<P: Posts, O: Sink>(
    pen: &mut Pen,
    posted: &P,
    stage: &Stage,
    index: &BallotIndex,
    out: &mut O,
) -> Result<(), Failed>
    requires version { pen.old.version ≡ (P.posted posted.now).plan.version }
    requires ready { P.is_ready posted.now }
    requires formed { is_formed (P.posted posted.now) ≡ true }
    requires index { index.now ≡ (P.posted posted.now).plan }
    requires seal { SealsWhere P.wants_seal pen.old.seal [] }
    ensures { Writes O.written O.faults pen.old out.old pen.new out.new result (stage_lines stage.now (P.posted posted.now)) }
{
    match stage {
        Stage::Voting => put_first(pen, posted, out),
        Stage::Closed => put_second(pen, posted, index, out),
        Stage::Drawn(_) => put_record(pen, posted, index, out),
    }
}

/// Writes the lines of a plan into the sink: one piece for each line. It ends as [`write_record`] does.
pub fn write_plan<O: Sink>(alloc: Global, plan: &Plan, out: &mut O) -> Wrote
    requires { fault_of plan.now ≡ None }
    ensures ends { WriteEnds result (seen (O.written out.old) (O.faults out.old)) (seen (O.written out.new) (O.faults out.new)) (text_in plan.now.version (plan_lines plan.now)) }
    ensures later { O.faults out.old ≤ O.faults out.new }
{
    let Ok(mut pen) = Pen::new(alloc, plan.version) else {
        return Wrote::NoMemory;
    };
    match put_plan(&mut pen, plan, out) {
        Ok(()) => Wrote::Written,
        Err(Failed) => Wrote::SinkFailed,
    }
}

/// Writes the text of a record into the sink: one piece for each line.
///
/// `Written`: the whole text was appended. `SinkFailed`: a front of it was appended, and the sink has counted a fault.
/// `NoMemory`: a front of it was appended. Memory is wanted for one line and for an index of the plan's ballots, before the
/// first line is written.
#[tactic(auto, unfolding(crate::specs::Lines::text_of))]
pub fn write_record<O: Sink>(alloc: Global, posted: &Record, out: &mut O) -> Wrote
    requires { is_formed posted.now ≡ true }
    ensures ends { WriteEnds result (seen (O.written out.old) (O.faults out.old)) (seen (O.written out.new) (O.faults out.new)) (text_of posted.now) }
    ensures later { O.faults out.old ≤ O.faults out.new }
{
    let Ok(mut pen) = Pen::new(alloc, posted.plan.version) else {
        return Wrote::NoMemory;
    };
    let Ok(index) = BallotIndex::make(alloc, &posted.plan) else {
        return Wrote::NoMemory;
    };
    match put_record(&mut pen, posted, &index, out) {
        Ok(()) => Wrote::Written,
        Err(Failed) => Wrote::SinkFailed,
    }
}
