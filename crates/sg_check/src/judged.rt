use sg_plan::Items;

/// What a line can be bad in. Where a line is bad in several, the first of them counts.
#[derive(Clone, Copy, Debug, PartialEq, Eq)]
pub enum Kind {
    /// The line may not stand there.
    Form,
    /// The seal is not SHA-256 of all bytes before it.
    Seal,
    /// What is opened does not open its commitment.
    Opening,
    /// The row is not opened on the side that was drawn.
    Side,
    /// The pointer is out of range, or stands twice.
    Pointer,
    /// The row's flag disagrees with an entry's mark or with a place's bit.
    Flag,
    /// The entry leads where another entry of its ballot leads.
    Path,
    /// The total is not the number of set places.
    Total,
    /// A print audit disagrees.
    Print,
    /// The ballot has too many marks, or a code twice.
    Rule,
    /// The office's answer to a claim is wrong.
    Dispute,
}

impl Kind {
    ghost use Rattle.std.specs.Prelude.{◌≡◌, ◌≤◌, length};
    ghost use Rattle.sg_check.specs.Kinds.{kind_word};

    /// The kind's word in a report: a lower-case word of at most seven letters.
    pub fn word(self) -> &'static [u8]
        ensures word { result.now ≡ kind_word self }
        ensures bound { length result.now ≤ 7 }
    {
        match self {
            Kind::Form => b"form",
            Kind::Seal => b"seal",
            Kind::Opening => b"opening",
            Kind::Side => b"side",
            Kind::Pointer => b"pointer",
            Kind::Flag => b"flag",
            Kind::Path => b"path",
            Kind::Total => b"total",
            Kind::Print => b"print",
            Kind::Rule => b"rule",
            Kind::Dispute => b"dispute",
        }
    }
}

/// The votes that a record posts for a candidate.
#[derive(Clone, Copy, Debug, PartialEq, Eq)]
pub struct Total {
    /// The race's number.
    pub race: u32,
    /// The candidate's number in the race.
    pub candidate: u32,
    /// The votes.
    pub count: u32,
}

/// The verdict on a record.
#[derive(Debug, Drop)]
pub enum Judged {
    /// The record is good, and these are its totals, by race and candidate.
    Yes(Items<Total>),
    /// The record is bad, and this line, counted from 1, is the first at which it is.
    No {
        /// The number of the line.
        line: u32,
        /// What it is bad in.
        kind: Kind,
    },
}
