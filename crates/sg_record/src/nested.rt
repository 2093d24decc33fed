//! Lists of lists, which grow by their inner lists.
//!
//! A place that a list does not have takes nothing.
ghost use Rattle.std.specs.Prelude.{◌≡◌, [], ◌∷◌, ◌++◌, IfOk, OnOk, replicate};
ghost use Rattle.sg_record.specs.inside.Gathering.{append_at, append_in, bits_of};

use sg_plan::{Items, NoMemory};
use std::alloc::Global;

/// So many empty lists.
#[tactic(auto, using(crate::proofs::Appending::appending))]
pub(crate) fn empty_lists<T: Drop>(alloc: Global, count: usize) -> Result<Items<Items<T>>, NoMemory>
    ensures { IfOk result (λ lists. lists ≡ replicate count []) }
{
    let mut lists = Items::new(alloc);
    for _at in 0..count {
        lists.push(Items::new(alloc))?;
    }
    Ok(lists)
}

/// So many lists of so many empty lists.
#[tactic(auto, using(crate::proofs::Appending::appending))]
pub(crate) fn empty_tables<T: Drop>(
    alloc: Global,
    count: usize,
    inner: usize,
) -> Result<Items<Items<Items<T>>>, NoMemory>
    ensures { IfOk result (λ tables. tables ≡ replicate count (replicate inner [])) }
{
    let mut tables = Items::new(alloc);
    for _at in 0..count {
        tables.push(empty_lists(alloc, inner)?)?;
    }
    Ok(tables)
}

/// Puts an item behind those of the list at this place.
#[tactic(auto, using(crate::proofs::Appending::appending))]
pub(crate) fn push_at<T: Drop>(
    alloc: Global,
    lists: &mut Items<Items<T>>,
    at: u32,
    item: T,
) -> Result<(), NoMemory>
    ensures { OnOk result (lists.new ≡ append_at lists.old at (item ∷ [])) }
{
    let at = at as usize;
    if at >= lists.len() {
        return Ok(());
    }
    let mut list = lists.replace(at, Items::new(alloc));
    list.push(item)?;
    lists.replace(at, list);
    Ok(())
}

/// Puts an item behind those of an instance of a race.
#[tactic(auto, using(crate::proofs::Appending::appending))]
pub(crate) fn push_in<T: Drop>(
    alloc: Global,
    tables: &mut Items<Items<Items<T>>>,
    race: u32,
    instance: u32,
    item: T,
) -> Result<(), NoMemory>
    ensures { OnOk result (tables.new ≡ append_in tables.old race instance (item ∷ [])) }
{
    let race = race as usize;
    if race >= tables.len() {
        return Ok(());
    }
    let mut instances = tables.replace(race, Items::new(alloc));
    push_at(alloc, &mut instances, instance, item)?;
    tables.replace(race, instances);
    Ok(())
}

/// Puts a bit for each sign behind the others: a `1` is set, and any other sign is not.
fn push_bits(bits: &mut Items<bool>, signs: &[u8]) -> Result<(), NoMemory>
    ensures { OnOk result (bits.new ≡ bits.old ++ bits_of signs.now) }
{
    for at in 0..signs.len() {
        bits.push(signs[at] == b'1')?;
    }
    Ok(())
}

/// Puts a bit for each sign behind those of the list at this place.
#[tactic(auto, using(crate::proofs::Appending::appending))]
pub(crate) fn push_bits_at(
    alloc: Global,
    lists: &mut Items<Items<bool>>,
    at: u32,
    signs: &[u8],
) -> Result<(), NoMemory>
    ensures { OnOk result (lists.new ≡ append_at lists.old at (bits_of signs.now)) }
{
    let at = at as usize;
    if at >= lists.len() {
        return Ok(());
    }
    let mut bits = lists.replace(at, Items::new(alloc));
    push_bits(&mut bits, signs)?;
    lists.replace(at, bits);
    Ok(())
}

/// Puts a bit for each sign behind those of an instance of a race.
#[tactic(auto, using(crate::proofs::Appending::appending))]
pub(crate) fn push_bits_in(
    alloc: Global,
    tables: &mut Items<Items<Items<bool>>>,
    race: u32,
    instance: u32,
    signs: &[u8],
) -> Result<(), NoMemory>
    ensures { OnOk result (tables.new ≡ append_in tables.old race instance (bits_of signs.now)) }
{
    let race = race as usize;
    if race >= tables.len() {
        return Ok(());
    }
    let mut instances = tables.replace(race, Items::new(alloc));
    push_bits_at(alloc, &mut instances, instance, signs)?;
    tables.replace(race, instances);
    Ok(())
}
