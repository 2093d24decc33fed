//! A line of a record in its place.
ghost use Rattle.std.specs.Prelude.{◌≡◌};
ghost use Rattle.sg_grammar.specs.Coordinates.{placed};
ghost use Rattle.sg_grammar.specs.Placed.{ballot_on};

use crate::state::Block;
use sg_commit::Digest;
use sg_forms::{CodeLine, RowOpening};
use sg_plan::ClaimWord;
use sg_plan::limits::MOST_CANDIDATES;

/// A line behind the plan in its place: its coordinates, and what it says there.
///
/// `Expect::stand` gives it of a line. A line is decoded there, and nowhere behind.
#[derive(Clone, Copy, Debug)]
pub enum PlacedLine<'a> {
    /// The commitment of an entry's code.
    CodeCommit {
        /// The race.
        race: u32,
        /// The entry.
        entry: u32,
        /// The commitment.
        digest: Digest,
    },
    /// The commitments of a row's pointers.
    RowCommit {
        /// The race.
        race: u32,
        /// The instance.
        instance: u32,
        /// The row.
        row: u32,
        /// That of the left pointer.
        left: Digest,
        /// That of the right pointer.
        right: Digest,
    },
    /// A seal.
    Seal {
        /// The section that it ends: 1 to 3.
        number: u32,
        /// The hash of all bytes before it.
        digest: Digest,
    },
    /// The first line of a ballot's block.
    Begun {
        /// The ballot.
        ballot: u32,
    },
    /// A code in a block.
    Code {
        /// The kind of block.
        block: Block,
        /// The ballot.
        ballot: u32,
        /// The race.
        race: u32,
        /// The column of the ballot row.
        column: u32,
        /// The code, under its key.
        code: CodeLine,
    },
    /// The line which says that a race is over on a cast ballot.
    Over {
        /// The ballot.
        ballot: u32,
        /// The race.
        race: u32,
    },
    /// The codes read from the paper of an audited ballot.
    Paper {
        /// The ballot.
        ballot: u32,
        /// The race.
        race: u32,
        /// The codes by candidate, in the first so many places.
        codes: [u16; MOST_CANDIDATES],
        /// How many codes there are.
        count: u32,
    },
    /// Flags of an instance.
    Flags {
        /// The race.
        race: u32,
        /// The instance.
        instance: u32,
        /// The row of the first flag.
        from: u32,
        /// The flags, `0` or `1` each.
        bits: &'a [u8],
    },
    /// Bits of the places of a race.
    Places {
        /// The race.
        race: u32,
        /// The place of the first bit.
        from: u32,
        /// The bits, `0` or `1` each.
        bits: &'a [u8],
    },
    /// The total of a candidate.
    Total {
        /// The race.
        race: u32,
        /// The candidate.
        candidate: u32,
        /// The votes.
        count: u32,
    },
    /// The draw that opens both sides of each row.
    DrawFull,
    /// The draw by public bytes.
    DrawPublic {
        /// The bytes, two lower-case hexadecimal digits each.
        digits: &'a [u8],
    },
    /// What is opened of a row.
    Row {
        /// The race.
        race: u32,
        /// The instance.
        instance: u32,
        /// The row.
        row: u32,
        /// What is opened.
        opening: RowOpening,
    },
    /// The first line of a dispute's block.
    Dispute {
        /// The ballot.
        ballot: u32,
        /// The race.
        race: u32,
        /// The code that is claimed.
        code: u16,
        /// The office's answer.
        word: ClaimWord,
    },
}

impl PlacedLine<'_> {
    /// The ballot that the line is about: that of its block, or of the block of a dispute about it. None, if it is about
    /// no ballot.
    pub fn ballot(&self) -> Option<u32>
        ensures { result ≡ ballot_on (placed self.now) }
    {
        match *self {
            PlacedLine::CodeCommit { .. } => None,
            PlacedLine::RowCommit { .. } => None,
            PlacedLine::Seal { .. } => None,
            PlacedLine::Begun { ballot } => Some(ballot),
            PlacedLine::Code { ballot, .. } => Some(ballot),
            PlacedLine::Over { ballot, .. } => Some(ballot),
            PlacedLine::Paper { ballot, .. } => Some(ballot),
            PlacedLine::Flags { .. } => None,
            PlacedLine::Places { .. } => None,
            PlacedLine::Total { .. } => None,
            PlacedLine::DrawFull => None,
            PlacedLine::DrawPublic { .. } => None,
            PlacedLine::Row { .. } => None,
            PlacedLine::Dispute { ballot, .. } => Some(ballot),
        }
    }
}
