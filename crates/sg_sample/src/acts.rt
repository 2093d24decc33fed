//! What is done with each ballot of a sample.
ghost use Rattle.std.specs.Prelude.{◌≡◌, ◌≤◌, IfOk};
ghost use Rattle.sg_plan.specs.Ballots.{ballots_of};
ghost use Rattle.sg_sample.specs.SampleRun.{ballot_act, mark as mark_of, sample_draw, sample_marks};

use crate::papers::paper;
use sg_acts::Act;
use sg_plan::{BallotIndex, Draw, Items, Mark, NoMemory, Word};
use sg_tables::Tables;
use std::alloc::Global;

/// The marks of a ballot that is scanned.
#[tactic(auto, unfolding(crate::specs::SampleRun::sample_marks))]
fn sample_marks(alloc: Global, ballot: u32) -> Result<Items<Mark>, NoMemory>
    requires { ballot ≤ 9000 }
    ensures { IfOk result (λ marks. marks ≡ sample_marks ballot) }
{
    let mut marks = Items::with_room(alloc, 4)?;
    marks.push(mark(0, ballot % 3))?;
    marks.push(mark(1, ballot % 4))?;
    marks.push(mark(1, (ballot + 1) % 4))?;
    if ballot % 10 == 1 {
        marks.push(mark(1, (ballot + 2) % 4))?;
    }
    Ok(marks)
}

/// A mark beside a candidate of a race.
fn mark(race: u32, candidate: u32) -> Mark
    ensures { result ≡ mark_of race candidate }
{
    Mark { race, candidate }
}

/// The act for a ballot of the plan: nothing where it is not used.
pub(crate) fn ballot_act(
    alloc: Global,
    tables: &Tables,
    index: &BallotIndex,
    ballot: u32,
) -> Result<Option<Act>, NoMemory>
    requires index { index.now ≡ tables.now.plan }
    requires first { 1 ≤ ballot }
    requires last { ballot ≤ ballots_of tables.now.plan }
    requires few { ballot ≤ 9000 }
    ensures { IfOk result (λ act. act ≡ ballot_act tables.now.plan tables.now.seed ballot) }
{
    match ballot % 10 {
        0 => Ok(Some(Act::Spoil(ballot))),
        5 => Ok(Some(Act::Audit(ballot, paper(alloc, tables, index, ballot)?))),
        7 => Ok(None),
        _ => Ok(Some(Act::Scan(ballot, sample_marks(alloc, ballot)?))),
    }
}

/// The draw: the number as four bytes, the highest first.
pub(crate) fn sample_draw(alloc: Global, number: u32) -> Result<Draw, NoMemory>
    ensures { IfOk result (λ draw. draw ≡ sample_draw number) }
{
    let mut bytes = Word::with_room(alloc, 4)?;
    bytes.extend(&number.to_be_bytes())?;
    Ok(Draw::Public(bytes))
}
