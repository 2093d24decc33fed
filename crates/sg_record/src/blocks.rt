//! Section 2 of a record, written: the blocks of ballots. The blocks of disputes are written likewise.
ghost use Rattle.std.specs.Prelude.{◌≡◌, ◌≤◌, ◌∷◌, [], length, map, All, true};
ghost use Rattle.std.specs.List.{flat_map};
ghost use Rattle.sg_forms.specs.Said.Said.{Code, Paper as PaperLine};
ghost use Rattle.sg_forms.specs.Spelling.{IsCode};
ghost use Rattle.sg_record.specs.Formed.{is_fate};
ghost use Rattle.sg_record.specs.Tree.{as_line, block_tree, cast_said, dispute_tree, fate_tree};
ghost use Rattle.sg_plan.specs.Ballots.{races_of_ballot};
ghost use Rattle.sg_record.specs.declared.record.BlockFate.TheVariants as fate;
ghost use Rattle.sg_record.specs.Pens.{Writes};
ghost use Rattle.sg_record.specs.Writing.{HaveCodes};
ghost use Rattle.sg_record.specs.inside.Parts.{ArePapers, HaveClaims, HaveFates, paper_lines};

use crate::one_line::{OneLine, put_lines};
use crate::pen::Pen;
use crate::record::{BallotBlock, BlockFate, CastLine, DisputeBlock};
use sg_forms::{CodeLine, Line};
use sg_outside::{Failed, Sink};
use sg_plan::limits::MOST_CANDIDATES;
use sg_plan::{BallotIndex, Items, Paper};

impl OneLine for CodeLine {
    ghost told = { Code };

    fn put<O: Sink>(&self, pen: &mut Pen, out: &mut O) -> Result<(), Failed> {
        pen.put_line(&Line::Code(*self), out)
    }
}

impl OneLine for CastLine {
    ghost told = { cast_said };

    fn put<O: Sink>(&self, pen: &mut Pen, out: &mut O) -> Result<(), Failed> {
        pen.put_line(&self.line(), out)
    }
}

/// Writes codes.
fn put_codes<O: Sink>(pen: &mut Pen, codes: &Items<CodeLine>, out: &mut O) -> Result<(), Failed>
    requires codes { HaveCodes pen.old.version codes.now }
    ensures { Writes O.written O.faults pen.old out.old pen.new out.new result (map Code codes.now) }
{
    put_lines(pen, codes, out)
}

/// Writes the codes of a race's paper.
fn put_paper<O: Sink>(
    pen: &mut Pen,
    race: u32,
    list: &Items<u16>,
    out: &mut O,
) -> Result<(), Failed>
    requires codes { All (IsCode pen.old.version) list.now }
    requires some { 1 ≤ length list.now }
    requires most { length list.now ≤ 16 }
    ensures { Writes O.written O.faults pen.old out.old pen.new out.new result (PaperLine race list.now ∷ []) }
{
    let mut codes = [0; MOST_CANDIDATES];
    codes[..list.len()].copy_from_slice(list.as_slice());
    let paper = Line::Paper {
        race,
        codes,
        count: list.len() as u32,
    };
    pen.put_line(&paper, out)
}

/// Writes the papers of a ballot with these races.
pub fn put_papers<O: Sink>(
    pen: &mut Pen,
    races: &[u32],
    papers: &Paper,
    out: &mut O,
) -> Result<(), Failed>
    requires len { length papers.now ≡ length races.now }
    requires papers { ArePapers pen.old.version races.now papers.now }
    ensures { Writes O.written O.faults pen.old out.old pen.new out.new result (paper_lines races.now papers.now) }
{
    for at in 0..papers.len() {
        put_paper(pen, races[at], papers.get(at), out)?;
    }
    Ok(())
}

/// Writes the block of a cast ballot.
fn put_cast<O: Sink>(
    pen: &mut Pen,
    index: &BallotIndex,
    ballot: u32,
    lines: &Items<CastLine>,
    out: &mut O,
) -> Result<(), Failed>
    requires version { pen.old.version ≡ index.now.version }
    requires fate { is_fate index.now ballot (fate.Cast lines.now) ≡ true }
    ensures { Writes O.written O.faults pen.old out.old pen.new out.new result (fate_tree as_line index.now ballot (fate.Cast lines.now)) }
{
    pen.put_line(&Line::Cast(ballot), out)?;
    put_lines(pen, lines, out)
}

/// Writes the block of an audited ballot with these races.
fn put_audited<O: Sink>(
    pen: &mut Pen,
    index: &BallotIndex,
    ballot: u32,
    races: &[u32],
    papers: &Paper,
    codes: &Items<CodeLine>,
    out: &mut O,
) -> Result<(), Failed>
    requires version { pen.old.version ≡ index.now.version }
    requires races { races.now ≡ races_of_ballot index.now ballot }
    requires fate { is_fate index.now ballot (fate.Audited papers.now codes.now) ≡ true }
    ensures { Writes O.written O.faults pen.old out.old pen.new out.new result (fate_tree as_line index.now ballot (fate.Audited papers.now codes.now)) }
{
    // An indexed plan has no fault, so each of the ballot's races has candidates.
    let _ = index.plan();
    pen.put_line(&Line::Audited(ballot), out)?;
    put_papers(pen, races, papers, out)?;
    put_codes(pen, codes, out)
}

/// Writes what the block of a ballot with these races says of it.
fn put_fate<O: Sink>(
    pen: &mut Pen,
    index: &BallotIndex,
    ballot: u32,
    races: &[u32],
    fate: &BlockFate,
    out: &mut O,
) -> Result<(), Failed>
    requires version { pen.old.version ≡ index.now.version }
    requires races { races.now ≡ races_of_ballot index.now ballot }
    requires fate { is_fate index.now ballot fate.now ≡ true }
    ensures { Writes O.written O.faults pen.old out.old pen.new out.new result (fate_tree as_line index.now ballot fate.now) }
{
    match fate {
        BlockFate::Cast(lines) => put_cast(pen, index, ballot, lines, out),
        BlockFate::Spoiled => pen.put_line(&Line::Spoiled(ballot), out),
        BlockFate::Audited(papers, codes) => {
            put_audited(pen, index, ballot, races, papers, codes, out)
        }
        BlockFate::Voided => pen.put_line(&Line::Voided(ballot), out),
    }
}

/// Writes the block of a ballot of the plan with these races, in a record of the plan's version.
fn put_block<O: Sink>(
    pen: &mut Pen,
    index: &BallotIndex,
    races: &[u32],
    block: &BallotBlock,
    out: &mut O,
) -> Result<(), Failed>
    requires version { pen.old.version ≡ index.now.version }
    requires races { races.now ≡ races_of_ballot index.now block.now.ballot }
    requires fate { is_fate index.now block.now.ballot block.now.fate ≡ true }
    ensures { Writes O.written O.faults pen.old out.old pen.new out.new result (block_tree as_line index.now block.now) }
{
    put_fate(pen, index, block.ballot, races, &block.fate, out)
}

/// Writes the blocks of all ballots.
pub(crate) fn put_blocks<O: Sink>(
    pen: &mut Pen,
    index: &BallotIndex,
    blocks: &Items<BallotBlock>,
    out: &mut O,
) -> Result<(), Failed>
    requires version { pen.old.version ≡ index.now.version }
    requires fates { HaveFates index.now 0 blocks.now }
    ensures { Writes O.written O.faults pen.old out.old pen.new out.new result (flat_map (block_tree as_line index.now) blocks.now) }
{
    for at in 0..blocks.len() {
        let block = blocks.get(at);
        let races = index.races(block.ballot);
        put_block(pen, index, races, block, out)?;
    }
    Ok(())
}

/// Writes the block of a dispute, whose codes are of the record's version.
pub fn put_dispute<O: Sink>(pen: &mut Pen, one: &DisputeBlock, out: &mut O) -> Result<(), Failed>
    requires code { IsCode pen.old.version one.now.code }
    requires codes { HaveCodes pen.old.version one.now.codes }
    ensures { Writes O.written O.faults pen.old out.old pen.new out.new result (dispute_tree as_line one.now) }
{
    let claim = Line::Dispute {
        ballot: one.ballot,
        race: one.race,
        code: one.code,
        word: one.word,
    };
    pen.put_line(&claim, out)?;
    put_codes(pen, &one.codes, out)
}

/// Writes the blocks of all disputes.
pub(crate) fn put_disputes<O: Sink>(
    pen: &mut Pen,
    disputes: &Items<DisputeBlock>,
    out: &mut O,
) -> Result<(), Failed>
    requires codes { HaveClaims pen.old.version disputes.now }
    ensures { Writes O.written O.faults pen.old out.old pen.new out.new result (flat_map (dispute_tree as_line) disputes.now) }
{
    for at in 0..disputes.len() {
        put_dispute(pen, disputes.get(at), out)?;
    }
    Ok(())
}
