//! The state of a record between two lines: what stands, what is due, and what may begin.
/// Which of the plan's lines stand already, and so which may come next.
#[derive(Clone, Copy, Debug, PartialEq, Eq)]
pub enum Head {
    /// Nothing stands: the version is due.
    Version,
    /// The election's name is due.
    Election,
    /// The number of instances is due.
    Instances,
    /// A race may come, or the first style where there is a race.
    Races,
    /// So many candidates of the last race are due: at least 1.
    Candidates {
        /// How many are due.
        left: u32,
    },
    /// A style may come, or the first run of ballots.
    Styles,
    /// A run of ballots may come, or the first commitment.
    Runs,
    /// The plan is whole, and a line behind it stands.
    Whole,
}

/// A line that is due, with its place in the record.
#[derive(Clone, Copy, Debug, PartialEq, Eq)]
pub enum Slot {
    /// The commitment of an entry's code.
    CodeCommit {
        /// The race.
        race: u32,
        /// The entry.
        entry: u32,
    },
    /// The commitments of a row's pointers.
    RowCommit {
        /// The race.
        race: u32,
        /// The instance.
        instance: u32,
        /// The row.
        row: u32,
    },
    /// A seal.
    Seal {
        /// The section that it ends: 1 to 3.
        number: u32,
    },
    /// The codes read from the paper of an audited ballot.
    Paper {
        /// The ballot.
        ballot: u32,
        /// The race.
        race: u32,
        /// How many codes stand on it: one for each candidate.
        count: u32,
    },
    /// A code in the block of an audited ballot or of a dispute.
    Code {
        /// The kind of block.
        block: Block,
        /// The ballot.
        ballot: u32,
        /// The race.
        race: u32,
        /// The column of the ballot row.
        column: u32,
    },
    /// Flags of an instance, 64 on a line and the rest on the last.
    Flags {
        /// The race.
        race: u32,
        /// The instance.
        instance: u32,
        /// The number of the line, from 0.
        line: u32,
        /// How many flags stand on it.
        count: u32,
    },
    /// Places of a race, 64 on a line and the rest on the last.
    Places {
        /// The race.
        race: u32,
        /// The number of the line, from 0.
        line: u32,
        /// How many places stand on it.
        count: u32,
    },
    /// The total of a candidate.
    Total {
        /// The race.
        race: u32,
        /// The candidate.
        candidate: u32,
    },
    /// The draw.
    Draw,
    /// The opening of a row.
    Row {
        /// The race.
        race: u32,
        /// The instance.
        instance: u32,
        /// The row.
        row: u32,
    },
}

/// What may begin where no line is due.
#[derive(Clone, Copy, Debug, PartialEq, Eq)]
pub enum Part {
    /// The block of a ballot behind `last`, or the first of the results.
    Ballots {
        /// The last ballot that has a block, or 0.
        last: u32,
    },
    /// A code of the block of a cast ballot, from this race and column on, or a note of such a race; or what
    /// `Ballots` allows.
    Cast {
        /// The ballot.
        ballot: u32,
        /// The least race.
        race: u32,
        /// The least column in that race.
        column: u32,
    },
    /// A further dispute. The record is whole.
    Disputes {
        /// How many disputes stand.
        count: u32,
    },
}

/// The kind of block that a `code` line stands in.
#[derive(Clone, Copy, Debug, PartialEq, Eq)]
pub enum Block {
    /// The marks of a cast ballot.
    Cast,
    /// All codes of an audited ballot.
    Audited,
    /// All codes of a race of a disputed ballot.
    Dispute,
}
