//! A table with a place for each entry, by race.
ghost use Rattle.std.specs.Prelude.{◌≡◌, ℕ, ◌<◌, ◌==◌, ◌&&◌, if◌then◌else◌, IfOk, IsSome, None, length};
ghost use Rattle.std.specs.Option.{option_map};
ghost use Rattle.sg_facts.specs.Items.{item_in};
ghost use Rattle.sg_facts.specs.Tables.{HasTable};
ghost use Rattle.sg_facts.specs.inside.Putting.{or_code, with_first};

use sg_plan::{BallotIndex, Items, NoMemory};
use std::alloc::Global;

/// A table in which nothing stands yet.
#[tactic(auto, using(sg_record::proofs::Limits::few_races))]
pub(crate) fn blank_table(
    alloc: Global,
    index: &BallotIndex,
) -> Result<Items<Items<Option<u16>>>, NoMemory>
    ensures { IfOk result (λ table. HasTable index.now table (λ _ _. None)) }
{
    let plan = index.plan();
    let mut table = Items::with_room(alloc, plan.races.len())?;
    for race in 0..plan.races.len() {
        let entries = plan.entries(race as u32) as usize;
        table.push(Items::filled(alloc, None, entries)?)?;
    }
    Ok(table)
}

/// Puts the code at a place, unless one stands there.
fn put_first(codes: &mut Items<Option<u16>>, entry: usize, code: u16)
    requires { entry < length codes.old }
    ensures { codes.new ≡ with_first codes.old entry code }
{
    if codes.get(entry).is_none() {
        codes.replace(entry, Some(code));
    }
}

/// Puts the code of an entry, unless it has one. It takes no memory.
#[tactic(auto, using(crate::proofs::Tabling::put_back))]
pub(crate) fn put_code(
    alloc: Global,
    table: &mut Items<Items<Option<u16>>>,
    race: usize,
    entry: usize,
    code: u16,
)
    requires { IsSome (item_in table.old race entry) }
    ensures { (r e : ℕ) → item_in table.new r e ≡ (if race == r && entry == e then option_map (or_code code) (item_in table.old r e) else item_in table.old r e) }
{
    let mut codes = table.replace(race, Items::new(alloc));
    put_first(&mut codes, entry, code);
    table.replace(race, codes);
}
