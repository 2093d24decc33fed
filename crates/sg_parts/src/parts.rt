//! A record with a printing and a completion, and what may be wrong with them.
ghost use Rattle.std.specs.Prelude.{◌≡◌};

use sg_check::Kind;
use sg_commit::Opening;
use sg_plan::{BallotIndex, Items, NoMemory};
use sg_record::Record;
use std::marker::Model;

/// The codes of a printing, by race, ballot row and candidate.
#[derive(Debug, Drop)]
pub struct Printing {
    /// The codes.
    pub codes: Items<Items<Items<u16>>>,
}

/// What is given of a row.
#[derive(Clone, Copy, Debug, PartialEq, Eq)]
pub struct RowGiven {
    /// The opening of the left half.
    pub left: Option<Opening>,
    /// The opening of the right half.
    pub right: Option<Opening>,
}

/// The openings of a completion, by race, instance and row.
#[derive(Debug, Drop)]
pub struct Completion {
    /// The rows.
    pub rows: Items<Items<Items<RowGiven>>>,
}

/// A record whose verdict is yes, a printing that stands with it, and a completion that opens no commitment twice.
#[derive(Debug, Drop)]
pub struct Parts {
    pub(crate) posted: Record,
    /// The index of its plan's ballots.
    pub(crate) index: BallotIndex,
    pub(crate) printing: Printing,
    pub(crate) completion: Completion,
}

impl Model for Parts {
    ghost use Rattle.std.specs.Prelude.{◌≡◌};
    ghost use Rattle.sg_parts.specs.Given.{AreParts, Given};

    ghost Value = { Given };

    ghost view = { λ p. record { posted = p.posted; codes = p.printing.codes; rows = p.completion.rows } };

    ghost invariant = { λ p. AreParts (record { posted = p.posted; codes = p.printing.codes; rows = p.completion.rows }) × (p.index ≡ p.posted.plan) };
}

impl Parts {
    ghost use Rattle.sg_parts.specs.Given.{AreParts};

    /// The record.
    pub fn posted(&self) -> &Record
        ensures posted { result.now ≡ self.now.posted }
        ensures parts { AreParts self.now }
    {
        &self.posted
    }

    /// The index of the ballots of the record's plan.
    pub fn index(&self) -> &BallotIndex
        ensures { result.now ≡ self.now.posted.plan }
    {
        &self.index
    }

    /// The printing.
    pub fn printing(&self) -> &Printing
        ensures { result.now.codes ≡ self.now.codes }
    {
        &self.printing
    }

    /// The completion.
    pub fn completion(&self) -> &Completion
        ensures { result.now.rows ≡ self.now.rows }
    {
        &self.completion
    }
}

/// Why an input is none of a recount. The lines of the input are counted from 1.
#[derive(Clone, Copy, Debug, PartialEq, Eq)]
pub enum RecountFault {
    /// The record's verdict is no.
    Record {
        /// The number of the line.
        line: u32,
        /// What it is bad in.
        kind: Kind,
    },
    /// This line isn't the sheet's, or has a code twice.
    Printing(u32),
    /// The printing doesn't stand with the record.
    Stand {
        /// The race's number.
        race: u32,
        /// The instance's number.
        instance: u32,
        /// The row's number.
        row: u32,
    },
    /// This line isn't the completion's, or is one too many.
    Completion(u32),
    /// An opening doesn't open its half.
    Opening {
        /// The race's number.
        race: u32,
        /// The instance's number.
        instance: u32,
        /// The row's number.
        row: u32,
    },
    /// A posted half has no opening, or another one.
    Posted {
        /// The race's number.
        race: u32,
        /// The instance's number.
        instance: u32,
        /// The row's number.
        row: u32,
    },
    /// Memory was wanted and not found.
    NoMemory,
}

impl From<NoMemory> for RecountFault {
    ghost use Rattle.std.specs.Prelude.{◌≡◌};
    ghost use Rattle.sg_parts.specs.declared.parts.RecountFault.TheVariants.{NoMemory};

    ghost from_gives = { λ _ e. e ≡ NoMemory };

    fn from(_: NoMemory) -> RecountFault {
        RecountFault::NoMemory
    }
}
