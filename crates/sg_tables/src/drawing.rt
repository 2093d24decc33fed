//! The lists of a race, drawn from the seed.
ghost use Rattle.std.specs.Prelude.{◌≡◌, ◌+◌, ◌*◌, ◌^◌, ◌<◌, ◌≤◌, ◌⊎◌, ◌++◌, length, map, take, OnOk, IfOk, None, ℕ};
ghost use Rattle.sg_plan.specs.Ballots.{candidates_of, entries_of, rows_of};
ghost use Rattle.sg_plan.specs.Limits.{fault_of};
ghost use Rattle.sg_streams.specs.Numbers.{numbers_below};
ghost use Rattle.sg_streams.specs.Order.{IsOneToOne, order_of};
ghost use Rattle.sg_streams.specs.Streams.{stream_number};
ghost use Rattle.sg_tables.specs.inside.Kept.{KeepsRace, KeepRaces, inverse, kept_codes, kept_columns, kept_shown};

use crate::purposes::{CODES, COLUMNS, PLACES, ROWS};
use crate::race_lists::RaceLists;
use sg_plan::limits::MOST_CANDIDATES;
use sg_plan::{Items, NoMemory, Plan};
use sg_streams::{Seed, codes, order, short_order, stream};
use std::alloc::Global;

/// The lists of each race.
pub fn draw_races(alloc: Global, plan: &Plan, seed: &Seed) -> Result<Items<RaceLists>, NoMemory>
    requires { fault_of plan.now ≡ None }
    ensures many { IfOk result (λ races. length races ≡ length plan.now.races) }
    ensures each { IfOk result (KeepRaces plan.now seed.now.0) }
{
    let mut races = Items::new(alloc);
    for race in 0..plan.races.len() {
        races.push(draw_race(alloc, plan, seed, race as u32)?)?;
    }
    Ok(races)
}

/// The lists of a race.
fn draw_race(alloc: Global, plan: &Plan, seed: &Seed, race: u32) -> Result<RaceLists, NoMemory>
    requires limits { fault_of plan.now ≡ None }
    requires race { race < length plan.now.races }
    ensures { IfOk result (KeepsRace plan.now seed.now.0 race) }
{
    let rows = plan.rows(race);
    let candidates = plan.candidates(race) as u32;
    let codes = draw_codes(alloc, plan, seed, race, rows)?;
    let entries = draw_entries(alloc, plan, seed, race, rows)?;
    let place_rows = draw_orders(alloc, seed, PLACES, race, candidates, rows)?;
    let lefts = draw_orders(alloc, seed, ROWS, race, plan.instances, rows * candidates)?;
    Ok(RaceLists {
        candidates,
        codes,
        shown: entries.shown,
        columns: entries.columns,
        place_rows,
        lefts,
    })
}

/// The codes of each ballot row of a race, one row after another.
fn draw_codes(
    alloc: Global,
    plan: &Plan,
    seed: &Seed,
    race: u32,
    rows: u32,
) -> Result<Items<u16>, NoMemory>
    requires known_version { (plan.now.version ≡ 1) ⊎ (plan.now.version ≡ 2) }
    requires small_race { race < 2 ^ 16 }
    requires few { candidates_of plan.now race ≤ 16 }
    ensures { IfOk result (λ list. list ≡ kept_codes plan.now seed.now.0 race rows) }
{
    let candidates = plan.candidates(race) as u32;
    let mut list = Items::new(alloc);
    for row in 0..rows {
        let row_codes = codes(plan.version, seed, stream(CODES, race, row), candidates);
        list.extend(&row_codes[..candidates as usize])?;
    }
    Ok(list)
}

/// What the entries of a race show, and the inverse of it.
#[derive(Drop)]
struct Entries {
    shown: Items<u32>,
    columns: Items<u32>,
}

/// The candidates that each ballot row shows by column, and its columns by candidate, one row after another.
fn draw_entries(
    alloc: Global,
    plan: &Plan,
    seed: &Seed,
    race: u32,
    rows: u32,
) -> Result<Entries, NoMemory>
    requires small_race { race < 2 ^ 16 }
    requires few { candidates_of plan.now race ≤ 16 }
    ensures shown { IfOk result (λ entries. entries.shown ≡ kept_shown plan.now seed.now.0 race rows) }
    ensures columns { IfOk result (λ entries. entries.columns ≡ kept_columns plan.now seed.now.0 race rows) }
{
    let candidates = plan.candidates(race) as u32;
    let mut shown = Items::new(alloc);
    let mut columns = Items::new(alloc);
    for row in 0..rows {
        let order = short_order(seed, stream(COLUMNS, race, row), candidates);
        let order = &order[..candidates as usize];
        shown.extend(order)?;
        columns.extend(&inverse_of(order)[..candidates as usize])?;
    }
    Ok(Entries { shown, columns })
}

/// The place of each number in an order of the first numbers, at most 16 of them. The rest of the array is 0.
fn inverse_of(order: &[u32]) -> [u32; MOST_CANDIDATES]
    requires few { length order.now ≤ 16 }
    requires one_to_one { IsOneToOne (length order.now) order.now }
    ensures { take (length order.now) result ≡ inverse order.now }
{
    let mut places = [0; MOST_CANDIDATES];
    for at in 0..order.len() {
        places[order[at] as usize] = at as u32;
    }
    places
}

/// The orders of the first streams of a purpose, `count` of them, each of `n` numbers.
fn draw_orders(
    alloc: Global,
    seed: &Seed,
    purpose: u32,
    race: u32,
    count: u32,
    n: u32,
) -> Result<Items<Items<u32>>, NoMemory>
    requires known_purpose { (1 ≤ purpose) × (purpose ≤ 7) }
    requires small_race { race < 2 ^ 16 }
    ensures { IfOk result (λ lists. lists ≡ map (λ index. order_of seed.now.0 (stream_number purpose race index) n) (numbers_below count)) }
{
    let mut lists = Items::new(alloc);
    for index in 0..count {
        lists.push(order(alloc, seed, stream(purpose, race, index), n)?)?;
    }
    Ok(lists)
}
