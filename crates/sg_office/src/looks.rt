//! What anybody may look at.
ghost use Rattle.std.specs.Prelude.{◌≡◌, ◌≤◌, IfOk};
ghost use Rattle.sg_plan.specs.Ballots.{ballots_of};
ghost use Rattle.sg_histories.specs.Answers.{receipt_of};

use crate::slots::fate_word;
use sg_acts::Receipt;
use sg_desks::posted_codes;
use sg_plan::{BallotIndex, Fate, Items, NoMemory};
use sg_tables::Tables;
use std::alloc::Global;

/// What is posted of a ballot with this fate.
pub fn receipt(
    alloc: Global,
    tables: &Tables,
    index: &BallotIndex,
    ballot: u32,
    fate: &Fate,
) -> Result<Receipt, NoMemory>
    requires index { index.now ≡ tables.now.plan }
    requires first { 1 ≤ ballot }
    requires last { ballot ≤ ballots_of tables.now.plan }
    ensures { IfOk result (λ receipt. receipt ≡ receipt_of tables.now.plan tables.now.seed ballot fate.now) }
{
    let codes = posted_codes(alloc, tables, index, ballot, fate)?;
    let over = tables.void_races(alloc, fate)?;
    Ok(Receipt {
        ballot,
        fate: fate_word(fate),
        codes,
        over,
    })
}

/// The same totals.
pub fn copy_totals(alloc: Global, totals: &Items<Items<u32>>) -> Result<Items<Items<u32>>, NoMemory>
    ensures { IfOk result (λ copy. copy ≡ totals.now) }
{
    let mut copy = Items::with_room(alloc, totals.len())?;
    for race in 0..totals.len() {
        copy.push(totals.get(race).copy(alloc)?)?;
    }
    Ok(copy)
}
