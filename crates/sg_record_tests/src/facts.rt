//! The codes of a small record, made by a program of another language.
ghost use Rattle.std.specs.Prelude.{◌≡◌, true};
ghost use Rattle.sg_record.specs.Formed.{is_formed};

use sg_facts::{known_codes, marked_codes};
use sg_plan::{BallotIndex, Items, NoMemory};
use sg_record::Record;
use std::alloc::Global;

/// The codes of the cast mark; and with these those of the claim and of the audited paper.
const MARKED: [Option<u16>; 6] = [Some(100), None, None, None, None, None];

const KNOWN: [Option<u16>; 6] = [Some(100), Some(200), Some(300), Some(400), None, None];

/// The table has these codes of its one race.
fn is_table(table: &Items<Items<Option<u16>>>, expected: &[Option<u16>]) -> bool {
    match table.as_slice() {
        [codes] => codes.as_slice() == expected,
        _ => false,
    }
}

/// The tables of the marked and of the known codes of the record are these.
fn are_tables(alloc: Global, posted: &Record, index: &BallotIndex) -> Result<bool, NoMemory>
    requires formed { is_formed posted.now ≡ true }
    requires index { index.now ≡ posted.now.plan }
{
    let marked = marked_codes(alloc, posted, index)?;
    let known = known_codes(alloc, posted, index)?;
    Ok(is_table(&marked, &MARKED) && is_table(&known, &KNOWN))
}

/// The same, with an index of the ballots.
pub(crate) fn has_codes(alloc: Global, posted: &Record) -> Result<bool, NoMemory>
    requires { is_formed posted.now ≡ true }
{
    if posted.plan.check().is_err() {
        return Ok(false);
    }
    let index = BallotIndex::make(alloc, &posted.plan)?;
    are_tables(alloc, posted, &index)
}
