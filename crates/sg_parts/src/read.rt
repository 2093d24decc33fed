//! Whether the printing stands with the record, and all parts where each row of the completion is right.
ghost use Rattle.std.specs.Prelude.{◌≡◌, ◌^◌, ◌<◌, IfErr, IfOk, true};
ghost use Rattle.sg_check.specs.Printings.{StandsWith};
ghost use Rattle.sg_parts.specs.Given.{AreOpenings, ArePrinted, IsAccepted, printing_of};
ghost use Rattle.sg_parts.specs.inside.Reading.{AreRight, IsRowsFault, Judges, row_fault};
ghost use Rattle.sg_record.specs.Formed.{has_rows};
ghost use Rattle.sg_record.specs.Places.{places_in};

use crate::checks::{At, row_opens, unstanding, wrong};
use crate::parts::{Completion, Parts, Printing, RecountFault, RowGiven};
use sg_facts::known_codes;
use sg_plan::{BallotIndex, Items, NoMemory};
use sg_record::Record;
use std::alloc::Global;

/// The fault of the printing, if it doesn't stand with the record.
pub(crate) fn check_standing(
    alloc: Global,
    posted: &Record,
    index: &BallotIndex,
    lists: &Items<Items<Items<u16>>>,
) -> Result<Option<RecountFault>, NoMemory>
    requires accepted { IsAccepted posted.now }
    requires index { index.now ≡ posted.now.plan }
    ensures { IfOk result (Judges posted.now lists.now) }
{
    let known = known_codes(alloc, posted, index)?;
    match unstanding(posted, index, &known, lists) {
        Some(at) => Ok(Some(RecountFault::Stand {
            race: at.race,
            instance: at.instance,
            row: at.row,
        })),
        None => Ok(None),
    }
}

/// Whether each row of the completion opens its halves and keeps what is posted.
fn check_rows(
    posted: &Record,
    index: &BallotIndex,
    rows: &Items<Items<Items<RowGiven>>>,
) -> Result<(), RecountFault>
    requires { index.now ≡ posted.now.plan }
    ensures ok { IfOk result (λ _. AreRight posted.now rows.now) }
    ensures err { IfErr result (λ fault. IsRowsFault posted.now rows.now fault) }
{
    sg_plan::laws::bounds_law();
    let _ = index.plan();
    match wrong(posted, index, rows) {
        Some(at) => Err(row_fault(posted, rows, &at)),
        None => Ok(()),
    }
}

/// What is wrong with a row.
fn row_fault(posted: &Record, rows: &Items<Items<Items<RowGiven>>>, at: &At) -> RecountFault
    requires race { at.now.race < 2 ^ 16 }
    requires instance { at.now.instance < 2 ^ 16 }
    ensures { result ≡ row_fault posted.now rows.now at.now }
{
    if row_opens(posted, rows, at.race, at.instance, at.row) {
        RecountFault::Posted {
            race: at.race,
            instance: at.instance,
            row: at.row,
        }
    } else {
        RecountFault::Opening {
            race: at.race,
            instance: at.instance,
            row: at.row,
        }
    }
}

/// All parts, where each row of the completion is right.
pub(crate) fn whole_parts(
    posted: Record,
    index: BallotIndex,
    lists: Items<Items<Items<u16>>>,
    rows: Items<Items<Items<RowGiven>>>,
) -> Result<Parts, RecountFault>
    requires accepted { IsAccepted posted }
    requires index { index ≡ posted.plan }
    requires printed { ArePrinted posted.plan lists }
    requires stands { StandsWith posted.plan (places_in posted) (printing_of lists) }
    requires rows { has_rows posted.plan rows ≡ true }
    requires openings { AreOpenings rows }
    ensures ok { IfOk result (λ parts. (parts.posted ≡ posted) × (parts.codes ≡ lists) × (parts.rows ≡ rows)) }
    ensures err { IfErr result (λ fault. IsRowsFault posted rows fault) }
{
    match check_rows(&posted, &index, &rows) {
        Ok(()) => Ok(Parts {
            posted,
            index,
            printing: Printing { codes: lists },
            completion: Completion { rows },
        }),
        Err(fault) => {
            drop(rows);
            drop(lists);
            drop(index);
            drop(posted);
            Err(fault)
        }
    }
}
