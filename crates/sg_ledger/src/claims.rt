//! The claim that is under dispute.
ghost use Rattle.std.specs.Prelude.{◌≡◌};
ghost use Rattle.std.specs.Option.{option_map};
ghost use Rattle.sg_grammar.specs.Lines.{is_dispute};
ghost use Rattle.sg_check.specs.Kinds.{is_right};
ghost use Rattle.sg_ledger.specs.inside.Steps.{with_shown};

use sg_grammar::Block;
use sg_plan::ClaimWord;

/// A claim, its answer, and what its block has shown so far.
#[derive(Clone, Copy, Debug)]
pub struct Claimed {
    /// The code that is claimed.
    pub code: u16,
    /// The office's answer.
    pub answer: ClaimWord,
    /// The block shows the code.
    pub shown: bool,
}

/// The claim, where a block shows a code.
pub fn with_shown(claim: Option<Claimed>, block: Block, code: u16) -> Option<Claimed>
    ensures { result ≡ option_map (with_shown block code) claim }
{
    let Some(kept) = claim else {
        return None;
    };
    Some(Claimed {
        code: kept.code,
        answer: kept.answer,
        shown: kept.shown || (is_dispute(block) && code == kept.code),
    })
}

/// The block is that of a dispute.
pub fn is_dispute(block: Block) -> bool
    ensures { result ≡ is_dispute block }
{
    match block {
        Block::Cast => false,
        Block::Audited => false,
        Block::Dispute => true,
    }
}

/// The answer is right of a code that is marked, or shown among the ballot's codes.
pub fn is_right(answer: ClaimWord, marked: bool, shown: bool) -> bool
    ensures { result ≡ is_right answer marked shown }
{
    match answer {
        ClaimWord::Posted => marked,
        ClaimWord::Unposted => !marked && shown,
        ClaimWord::Absent => !marked && !shown,
    }
}
