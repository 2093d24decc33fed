//! Flags and places, made from marks.
ghost use Rattle.std.specs.Prelude.{◌≡◌, ◌<◌, ◌≤◌, if◌then◌else◌, true, length, map, slice_set, IfOk};
ghost use Rattle.sg_plan.specs.Ballots.{entries_of};
ghost use Rattle.sg_streams.specs.Numbers.{numbers_below};
ghost use Rattle.sg_post.specs.inside.Making.{HaveEntries, flags_by, places_by, race_flags_by, race_places_by};

use crate::counts::{count_entries, count_instances, count_races};
use sg_plan::{Items, NoMemory};
use sg_tables::Tables;
use std::alloc::Global;

/// The flags of all races, by their marks.
pub fn flag_races(
    alloc: Global,
    tables: &Tables,
    marks: &Items<Items<bool>>,
) -> Result<Items<Items<Items<bool>>>, NoMemory>
    requires { HaveEntries tables.now.plan marks.now }
    ensures { IfOk result (λ flags. flags ≡ map (race_flags_by tables.now.plan tables.now.seed marks.now) (numbers_below (length tables.now.plan.races))) }
{
    let count = count_races(tables);
    let mut flags = Items::with_room(alloc, count as usize)?;
    for race in 0..count {
        flags.push(flag_instances(alloc, tables, race, marks.get(race as usize))?)?;
    }
    Ok(flags)
}

/// The flags of the instances of a race with these marks.
fn flag_instances(
    alloc: Global,
    tables: &Tables,
    race: u32,
    marks: &Items<bool>,
) -> Result<Items<Items<bool>>, NoMemory>
    requires race { race < length tables.now.plan.races }
    requires marks { length marks.now ≡ entries_of tables.now.plan race }
    ensures { IfOk result (λ flags. flags ≡ map (flags_by tables.now.plan tables.now.seed race marks.now) (numbers_below tables.now.plan.instances)) }
{
    let count = count_instances(tables);
    let mut flags = Items::with_room(alloc, count as usize)?;
    for instance in 0..count {
        flags.push(flag_rows(alloc, tables, race, instance, marks)?)?;
    }
    Ok(flags)
}

/// The flags of an instance's rows.
fn flag_rows(
    alloc: Global,
    tables: &Tables,
    race: u32,
    instance: u32,
    marks: &Items<bool>,
) -> Result<Items<bool>, NoMemory>
    requires race { race < length tables.now.plan.races }
    requires instance { instance < tables.now.plan.instances }
    requires marks { length marks.now ≡ entries_of tables.now.plan race }
    ensures { IfOk result (λ flags. flags ≡ flags_by tables.now.plan tables.now.seed race marks.now instance) }
{
    let rows = count_entries(tables, race);
    let mut flags = Items::with_room(alloc, rows as usize)?;
    for row in 0..rows {
        let (entry, _) = tables.r_row(race, instance, row);
        flags.push(*marks.get(entry as usize))?;
    }
    Ok(flags)
}

/// The places of all races, by their marks.
pub fn place_races(
    alloc: Global,
    tables: &Tables,
    marks: &Items<Items<bool>>,
) -> Result<Items<Items<bool>>, NoMemory>
    requires { HaveEntries tables.now.plan marks.now }
    ensures { IfOk result (λ places. places ≡ map (race_places_by tables.now.plan tables.now.seed marks.now) (numbers_below (length tables.now.plan.races))) }
{
    let count = count_races(tables);
    let mut places = Items::with_room(alloc, count as usize)?;
    for race in 0..count {
        places.push(place_entries(alloc, tables, race, marks.get(race as usize))?)?;
    }
    Ok(places)
}

/// The places to which the marked entries of a race lead.
fn place_entries(
    alloc: Global,
    tables: &Tables,
    race: u32,
    marks: &Items<bool>,
) -> Result<Items<bool>, NoMemory>
    requires race { race < length tables.now.plan.races }
    requires marks { length marks.now ≡ entries_of tables.now.plan race }
    ensures { IfOk result (λ places. places ≡ places_by tables.now.plan tables.now.seed race marks.now (entries_of tables.now.plan race)) }
{
    let entries = count_entries(tables, race);
    let mut places = Items::filled(alloc, false, entries as usize)?;
    for entry in 0..entries {
        let place = tables.path(race, entry);
        let is_marked = *marks.get(entry as usize);
        set_where(&mut places, place as usize, is_marked);
    }
    Ok(places)
}

/// Sets the bit where it is wanted.
pub fn set_where(bits: &mut Items<bool>, at: usize, is_wanted: bool)
    requires { at < length bits.old }
    ensures { bits.new ≡ (if is_wanted then slice_set bits.old at true else bits.old) }
{
    if is_wanted {
        bits.replace(at, true);
    }
}
