//! A public record, as lists by race, instance and row.
ghost use Rattle.std.specs.Prelude.{◌≡◌, ℕ};
ghost use Rattle.sg_forms.specs.Said.{said};
ghost use Rattle.sg_grammar.specs.Coordinates.{placed};
ghost use Rattle.sg_plan.specs.Ballots.{races_of_ballot};
ghost use Rattle.sg_record.specs.Tree.{behind_cast, cast_at, cast_said};

use crate::formed::{behind_code, behind_race};
use sg_commit::Digest;
use sg_forms::{CodeLine, Line, RowOpening};
use sg_grammar::{Block, PlacedLine};
use sg_plan::{BallotIndex, ClaimWord, Draw, Items, Paper, Plan};

/// The commitments of a row's two pointers.
#[derive(Clone, Copy, Debug, PartialEq, Eq)]
pub struct RowCommit {
    /// The commitment of the left pointer.
    pub left: Digest,
    /// The commitment of the right pointer.
    pub right: Digest,
}

/// A line of a cast ballot's block.
#[derive(Clone, Copy, Debug, PartialEq, Eq)]
pub enum CastLine {
    /// The code of a mark.
    Code(CodeLine),
    /// The race is over: it has more marks than a voter has votes in it, and none of them counts.
    Over(u32),
}

impl CastLine {
    /// What the line says.
    pub(crate) fn line(&self) -> Line<'_>
        ensures { said result ≡ cast_said self.now }
    {
        match self {
            CastLine::Code(code) => Line::Code(*code),
            CastLine::Over(race) => Line::Over(*race),
        }
    }

    /// The line that stands in this place, if the place is one of a cast ballot.
    pub(crate) fn at(place: &PlacedLine) -> Option<CastLine>
        ensures { result ≡ cast_at (placed place.now) }
    {
        match *place {
            PlacedLine::Code {
                block: Block::Cast,
                code,
                ..
            } => Some(CastLine::Code(code)),
            PlacedLine::Over { race, .. } => Some(CastLine::Over(race)),
            _ => None,
        }
    }

    /// The race and the column from which on the next line of a cast ballot with these races is, behind this one. `None`
    /// where it may not stand from this race and column on.
    pub(crate) fn behind(
        &self,
        index: &BallotIndex,
        races: &[u32],
        race: u32,
        column: u32,
    ) -> Option<(u32, u32)>
        ensures { (ballot : ℕ) → races.now ≡ races_of_ballot index.now ballot → result ≡ behind_cast index.now ballot race column self.now }
    {
        match self {
            CastLine::Code(code) => behind_code(index, races, race, column, code),
            CastLine::Over(over) => behind_race(index, races, race, *over),
        }
    }
}

/// What a ballot's block says of it.
#[derive(Debug, Drop)]
pub enum BlockFate {
    /// It was cast: the codes of its marks, and which races are over on it, by race and column.
    Cast(Items<CastLine>),
    /// It was spoiled.
    Spoiled,
    /// It was audited: the codes read from its paper, and then its codes, by race and column.
    Audited(Paper, Items<CodeLine>),
    /// It was voided. Only version 2 has such blocks.
    Voided,
}

/// The block of a ballot.
#[derive(Debug, Drop)]
pub struct BallotBlock {
    /// The ballot's number, from 1.
    pub ballot: u32,
    /// What was done with it.
    pub fate: BlockFate,
}

/// The block of a dispute.
#[derive(Debug, Drop)]
pub struct DisputeBlock {
    /// The ballot's number, from 1.
    pub ballot: u32,
    /// The race's number.
    pub race: u32,
    /// The code that is claimed.
    pub code: u16,
    /// The office's answer.
    pub word: ClaimWord,
    /// The ballot's codes in the race, by column.
    pub codes: Items<CodeLine>,
}

/// A public record. Its lists nest by race and then by instance.
#[derive(Debug, Drop)]
pub struct Record {
    /// The plan of the election.
    pub plan: Plan,
    /// The commitment of each entry's code.
    pub code_commits: Items<Items<Digest>>,
    /// The commitments of each row's pointers.
    pub row_commits: Items<Items<Items<RowCommit>>>,
    /// The seals of the three sections.
    pub seals: [Digest; 3],
    /// The blocks of ballots, by rising ballots. A ballot without one is unused.
    pub ballots: Items<BallotBlock>,
    /// The flag of each row.
    pub flags: Items<Items<Items<bool>>>,
    /// Whether each place is set.
    pub places: Items<Items<bool>>,
    /// The votes of each candidate.
    pub totals: Items<Items<u32>>,
    /// The draw.
    pub draw: Draw,
    /// What is opened of each row.
    pub rows: Items<Items<Items<RowOpening>>>,
    /// The blocks of disputes: at most 10,000.
    pub disputes: Items<DisputeBlock>,
}
