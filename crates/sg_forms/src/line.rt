//! The forms of a line of the public record, as values.
use sg_commit::{Digest, Key, Opening};
use sg_plan::ClaimWord;
use sg_plan::limits::{MOST_CANDIDATES, MOST_RACES};

/// What a `code` line says: the code beside a candidate, under its key.
#[derive(Clone, Copy, Debug, PartialEq, Eq)]
pub struct CodeLine {
    /// The race's number.
    pub race: u32,
    /// The column of the ballot row, from 0.
    pub column: u32,
    /// The key that opens the commitment of the entry.
    pub key: Key,
    /// The code.
    pub code: u16,
}

/// What a `row-commit` line says: the commitments of a row's pointers.
#[derive(Clone, Copy, Debug, PartialEq, Eq)]
pub struct RowCommitLine {
    /// The race's number.
    pub race: u32,
    /// The instance's number.
    pub instance: u32,
    /// The commitment of the left pointer.
    pub left: Digest,
    /// The commitment of the right pointer.
    pub right: Digest,
}

/// What is opened of a row: the left pointer, the right one, or both, the left one first.
#[derive(Clone, Copy, Debug, PartialEq, Eq)]
pub enum RowOpening {
    /// The pointer to an entry.
    Left(Opening),
    /// The pointer to a place.
    Right(Opening),
    /// Both pointers.
    Both(Opening, Opening),
}

/// A line of the public record. Names, bits and digits are those of the bytes read.
///
/// Elements of an array from index `count` on are 0.
#[derive(Clone, Copy, Debug)]
pub enum Line<'a> {
    /// `scantegrity2 V`
    Version(u32),
    /// `election NAME`
    Election(&'a [u8]),
    /// `instances M`
    Instances(u32),
    /// `race NAME K W`
    Race {
        /// The race's name.
        name: &'a [u8],
        /// How many candidates it has.
        candidates: u32,
        /// How many of them a voter may mark.
        votes: u32,
    },
    /// `cand NAME`
    Cand(&'a [u8]),
    /// `style NAME R ..`
    Style {
        /// The style's name.
        name: &'a [u8],
        /// The numbers of its races.
        races: [u32; MOST_RACES],
        /// How many races it has.
        count: u32,
    },
    /// `ballots S COUNT`
    Ballots {
        /// The style's number.
        style: u32,
        /// How many ballots follow of it.
        count: u32,
    },
    /// `code-commit R HEX`
    CodeCommit {
        /// The race's number.
        race: u32,
        /// The commitment.
        digest: Digest,
    },
    /// `row-commit R I HEX HEX`
    RowCommit {
        /// The race's number.
        race: u32,
        /// The instance's number.
        instance: u32,
        /// The commitment of the left pointer.
        left: Digest,
        /// The commitment of the right pointer.
        right: Digest,
    },
    /// `seal N HEX`
    Seal {
        /// The section that it ends: 1 to 3.
        number: u32,
        /// SHA-256 of all bytes before the line.
        digest: Digest,
    },
    /// `cast B`
    Cast(u32),
    /// `spoiled B`
    Spoiled(u32),
    /// `audited B`
    Audited(u32),
    /// `code R C KEY CODE`
    Code(CodeLine),
    /// `over R`
    Over(u32),
    /// `paper R CODE ..`
    Paper {
        /// The race's number.
        race: u32,
        /// The codes read from the paper, by candidate.
        codes: [u16; MOST_CANDIDATES],
        /// How many codes there are.
        count: u32,
    },
    /// `flags R I BITS`
    Flags {
        /// The race's number.
        race: u32,
        /// The instance's number.
        instance: u32,
        /// A `0` or a `1` for each row.
        bits: &'a [u8],
    },
    /// `places R BITS`
    Places {
        /// The race's number.
        race: u32,
        /// A `0` or a `1` for each place.
        bits: &'a [u8],
    },
    /// `total R J COUNT`
    Total {
        /// The race's number.
        race: u32,
        /// The candidate's number.
        candidate: u32,
        /// The votes counted.
        count: u32,
    },
    /// `draw full`
    DrawFull,
    /// `draw HEX`
    DrawPublic {
        /// The public bytes in lower-case hexadecimal.
        digits: &'a [u8],
    },
    /// `left KEY Q`, `right KEY S` or `both KEY Q KEY S`
    Row(RowOpening),
    /// `dispute B R CODE WORD`
    Dispute {
        /// The ballot's number.
        ballot: u32,
        /// The race's number.
        race: u32,
        /// The code that is claimed.
        code: u16,
        /// The office's answer.
        word: ClaimWord,
    },
    /// `voided B`
    Voided(u32),
}
