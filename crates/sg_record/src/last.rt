//! The last block of a record, while its lines come.
//!
//! A line that the last block has no room for adds nothing to it.
ghost use Rattle.std.specs.Prelude.{◌≡◌, IfOk, OnOk};
ghost use Rattle.sg_forms.specs.Said.{said};
ghost use Rattle.sg_record.specs.inside.Gathering.{begun, dispute_with, last_with, with_cast, with_code, with_paper};
ghost use Rattle.sg_record.specs.inside.Growing.{change_of};

use crate::record::{BallotBlock, BlockFate, CastLine, DisputeBlock};
use sg_forms::{CodeLine, Line};
use sg_plan::{ClaimWord, Items, NoMemory};
use std::alloc::Global;

/// What the first line of a ballot's block says of it.
pub(crate) fn begin_fate(alloc: Global, line: &Line) -> BlockFate
    ensures { result ≡ begun (said line.now) }
{
    match *line {
        Line::Spoiled(_) => BlockFate::Spoiled,
        Line::Audited(_) => BlockFate::Audited(Items::new(alloc), Items::new(alloc)),
        Line::Voided(_) => BlockFate::Voided,
        _ => BlockFate::Cast(Items::new(alloc)),
    }
}

/// Puts a line behind those of a cast ballot.
fn push_cast(fate: &mut BlockFate, line: CastLine) -> Result<(), NoMemory>
    ensures { OnOk result (fate.new ≡ with_cast line fate.old) }
{
    match fate {
        BlockFate::Cast(lines) => lines.push(line),
        _ => Ok(()),
    }
}

/// Puts a code behind those of an audited ballot.
fn push_code(fate: &mut BlockFate, code: CodeLine) -> Result<(), NoMemory>
    ensures { OnOk result (fate.new ≡ with_code code fate.old) }
{
    match fate {
        BlockFate::Audited(_, codes) => codes.push(code),
        _ => Ok(()),
    }
}

/// Puts a race's codes behind those read from the paper of an audited ballot.
fn push_paper(alloc: Global, fate: &mut BlockFate, codes: &[u16]) -> Result<(), NoMemory>
    ensures { OnOk result (fate.new ≡ with_paper codes.now fate.old) }
{
    match fate {
        BlockFate::Audited(papers, _) => {
            let mut list = Items::new(alloc);
            list.extend(codes)?;
            papers.push(list)
        }
        _ => Ok(()),
    }
}

/// What a line adds to the last block.
#[derive(Clone, Copy, Debug)]
pub(crate) enum Addition<'a> {
    /// A line, to a cast ballot.
    Cast(CastLine),
    /// A code, to an audited ballot.
    Code(CodeLine),
    /// The codes of a race read from the paper, to an audited ballot.
    Paper(&'a [u16]),
}

/// Puts this behind what the fate has.
fn push(alloc: Global, fate: &mut BlockFate, more: Addition) -> Result<(), NoMemory>
    ensures { OnOk result (fate.new ≡ change_of more.entry fate.old) }
{
    match more {
        Addition::Cast(line) => push_cast(fate, line),
        Addition::Code(code) => push_code(fate, code),
        Addition::Paper(codes) => push_paper(alloc, fate, codes),
    }
}

/// A block that stands where the last one is taken out.
fn no_block() -> BallotBlock {
    BallotBlock {
        ballot: 0,
        fate: BlockFate::Spoiled,
    }
}

/// Puts this behind what the last block has.
#[tactic(auto, using(crate::proofs::Appending::changing))]
pub(crate) fn push_last(
    alloc: Global,
    blocks: &mut Items<BallotBlock>,
    more: Addition,
) -> Result<(), NoMemory>
    ensures { OnOk result (blocks.new ≡ last_with (change_of more.entry) blocks.old) }
{
    let count = blocks.len();
    if count == 0 {
        return Ok(());
    }
    let mut block = blocks.replace(count - 1, no_block());
    push(alloc, &mut block.fate, more)?;
    blocks.replace(count - 1, block);
    Ok(())
}

/// A dispute that stands where the last one is taken out.
fn no_dispute(alloc: Global) -> DisputeBlock {
    DisputeBlock {
        ballot: 0,
        race: 0,
        code: 0,
        word: ClaimWord::Absent,
        codes: Items::new(alloc),
    }
}

/// Puts a code behind those of the last dispute.
#[tactic(auto, using(crate::proofs::Appending::changing))]
pub(crate) fn push_dispute_code(
    alloc: Global,
    blocks: &mut Items<DisputeBlock>,
    code: CodeLine,
) -> Result<(), NoMemory>
    ensures { OnOk result (blocks.new ≡ dispute_with code blocks.old) }
{
    let count = blocks.len();
    if count == 0 {
        return Ok(());
    }
    let mut block = blocks.replace(count - 1, no_dispute(alloc));
    block.codes.push(code)?;
    blocks.replace(count - 1, block);
    Ok(())
}
