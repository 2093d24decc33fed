//! The tables of a ledger in which nothing is told yet.
ghost use Rattle.std.specs.Prelude.{IfOk};
ghost use Rattle.sg_ledger.specs.inside.Blank.{IsBlank};

use crate::audits::Audits;
use crate::bits::Bits;
use crate::book::{Sizes, count_rows, measure};
use crate::codes::Codes;
use crate::commitments::Commitments;
use crate::pointers::Pointers;
use crate::totals::Totals;
use sg_plan::limits::{MOST_CANDIDATES, MOST_INSTANCES};
use sg_plan::{BallotIndex, Items, NoMemory};
use std::alloc::Global;

/// How many places the table of votes has for each race: the most candidates of a race.
pub const CANDIDATES: usize = MOST_CANDIDATES;

/// How many places the count of rows opened on both sides has for each race: the most instances.
pub const INSTANCES: usize = MOST_INSTANCES as usize;

/// What a ledger takes memory for, beside the index of its plan.
#[derive(Drop)]
pub struct Blank {
    pub sizes: Sizes,
    pub commitments: Commitments,
    pub codes: Codes,
    pub bits: Bits,
    pub pointers: Pointers,
    pub paths: Items<Option<u32>>,
    pub audits: Audits,
    pub totals: Totals,
}

impl Blank {
    /// Blank tables for the plan.
    pub fn make(alloc: Global, index: &BallotIndex) -> Result<Blank, NoMemory>
        ensures { IfOk result (IsBlank index.now) }
    {
        let races = index.plan().races.len();
        let sizes = measure(alloc, index)?;
        let entries = sizes.all as usize;
        let rows = count_rows(index, &sizes);
        let commitments = Commitments::make(alloc, entries, rows)?;
        let codes = Codes::make(alloc, entries)?;
        let bits = Bits::make(alloc, entries, rows, CANDIDATES * races)?;
        let pointers = Pointers::make(alloc, rows)?;
        let paths = Items::filled(alloc, None, entries)?;
        let audits = Audits::make(alloc, entries, races, INSTANCES * races)?;
        let totals = Totals::make(alloc)?;
        Ok(Blank {
            sizes,
            commitments,
            codes,
            bits,
            pointers,
            paths,
            audits,
            totals,
        })
    }
}
