//! What an office posts, as the lists of a record.
use super::election::{RACE, is_marked, plan_of, put_blocks};
use super::tables::{CANDIDATES, ENTRIES, INSTANCES, code_of, key_of, left_pointer, place_of};
use super::{Exchange, Office};
use sg_commit::{CommitKind, Digest, Opening, commit};
use sg_plan::{Draw, Items, NoMemory, Plan, Side, Word};
use sg_record::{Record, RowCommit, RowOpening};
use sg_streams::{Seed, coin, coin_key};
use std::alloc::Global;

/// What stands for a seal before the record is sealed.
const NO_SEAL: Digest = Digest([0; 32]);

/// What a record says of the rows of an instance.
#[derive(Drop)]
struct Rows {
    commits: Items<RowCommit>,
    flags: Items<bool>,
    openings: Items<RowOpening>,
}

/// The commitment of each entry's code.
fn code_commits(alloc: Global) -> Result<Items<Digest>, NoMemory> {
    let mut commits = Items::new(alloc);
    for entry in 0..ENTRIES {
        let opening = Opening {
            key: key_of(CommitKind::Q, 0, entry),
            value: u32::from(code_of(entry)),
        };
        commits.push(commit(CommitKind::Q, RACE, 0, entry, &opening))?;
    }
    Ok(commits)
}

/// The opening of a row's left pointer.
fn left_opening(instance: u16, row: u32) -> Opening {
    Opening {
        key: key_of(CommitKind::L, instance, row),
        value: left_pointer(instance, row),
    }
}

/// The opening of a row's right pointer: the place to which the office leads the entry of the left one.
fn right_opening(exchange: Exchange, instance: u16, row: u32) -> Opening {
    Opening {
        key: key_of(CommitKind::R, instance, row),
        value: place_of(exchange, instance, left_pointer(instance, row)),
    }
}

/// Puts a row of an instance. Its flag is whether its entry is marked, and the coin's side is opened.
fn put_row(
    rows: &mut Rows,
    exchange: Exchange,
    coins: &Seed,
    instance: u16,
    row: u32,
) -> Result<(), NoMemory> {
    let number = u32::from(instance);
    let left = left_opening(instance, row);
    let right = right_opening(exchange, instance, row);
    rows.commits.push(RowCommit {
        left: commit(CommitKind::L, RACE, number, row, &left),
        right: commit(CommitKind::R, RACE, number, row, &right),
    })?;
    rows.flags.push(is_marked(left.value))?;
    rows.openings.push(match coin(coins, RACE, number, row) {
        Side::Left => RowOpening::Left(left),
        Side::Right => RowOpening::Right(right),
    })
}

/// Puts the rows of an instance.
fn put_rows(
    rows: &mut Rows,
    exchange: Exchange,
    coins: &Seed,
    instance: u16,
) -> Result<(), NoMemory> {
    for row in 0..ENTRIES {
        put_row(rows, exchange, coins, instance, row)?;
    }
    Ok(())
}

/// The rows of an instance.
fn rows_of(
    alloc: Global,
    exchange: Exchange,
    coins: &Seed,
    instance: u16,
) -> Result<Rows, NoMemory> {
    let mut rows = Rows {
        commits: Items::new(alloc),
        flags: Items::new(alloc),
        openings: Items::new(alloc),
    };
    put_rows(&mut rows, exchange, coins, instance)?;
    Ok(rows)
}

/// What a record says of the rows of all instances.
#[derive(Drop)]
struct Instances {
    commits: Items<Items<RowCommit>>,
    flags: Items<Items<bool>>,
    openings: Items<Items<RowOpening>>,
}

/// Puts the rows of an instance.
fn put_instance(instances: &mut Instances, rows: Rows) -> Result<(), NoMemory> {
    let Rows {
        commits,
        flags,
        openings,
    } = rows;
    instances.commits.push(commits)?;
    instances.flags.push(flags)?;
    instances.openings.push(openings)
}

/// Puts the rows of all instances.
fn put_instances(
    alloc: Global,
    instances: &mut Instances,
    office: &Office,
) -> Result<(), NoMemory> {
    let coins = coin_key(&office.public);
    for instance in 0..INSTANCES {
        put_instance(
            instances,
            rows_of(alloc, office.exchange, &coins, instance)?,
        )?;
    }
    Ok(())
}

/// The rows of all instances.
fn instances_of(alloc: Global, office: &Office) -> Result<Instances, NoMemory> {
    let mut instances = Instances {
        commits: Items::new(alloc),
        flags: Items::new(alloc),
        openings: Items::new(alloc),
    };
    put_instances(alloc, &mut instances, office)?;
    Ok(instances)
}

/// Whether each place is set: a marked entry leads there in instance 0.
fn places_of(alloc: Global, exchange: Exchange) -> Result<Items<bool>, NoMemory> {
    let mut places = Items::filled(alloc, false, ENTRIES as usize)?;
    for entry in 0..ENTRIES {
        let place = place_of(exchange, 0, entry) as usize;
        if is_marked(entry) && place < places.len() {
            places.replace(place, true);
        }
    }
    Ok(places)
}

/// How many places of a candidate are set.
fn total_of(places: &Items<bool>, candidate: u32) -> u32 {
    let mut total: u32 = 0;
    for (place, is_set) in places.as_slice().iter().enumerate() {
        if *is_set && place % CANDIDATES as usize == candidate as usize {
            total = total.saturating_add(1);
        }
    }
    total
}

/// The votes of each candidate.
fn totals_of(alloc: Global, places: &Items<bool>) -> Result<Items<u32>, NoMemory> {
    let mut totals = Items::new(alloc);
    for candidate in 0..CANDIDATES {
        totals.push(total_of(places, candidate))?;
    }
    Ok(totals)
}

/// A record with nothing in its lists.
fn empty_record(alloc: Global, plan: Plan, draw: Draw) -> Record {
    Record {
        plan,
        code_commits: Items::new(alloc),
        row_commits: Items::new(alloc),
        seals: [NO_SEAL; 3],
        ballots: Items::new(alloc),
        flags: Items::new(alloc),
        places: Items::new(alloc),
        totals: Items::new(alloc),
        draw,
        rows: Items::new(alloc),
        disputes: Items::new(alloc),
    }
}

/// Puts the rows of all instances of the race.
fn put_race(posted: &mut Record, instances: Instances) -> Result<(), NoMemory> {
    let Instances {
        commits,
        flags,
        openings,
    } = instances;
    posted.row_commits.push(commits)?;
    posted.flags.push(flags)?;
    posted.rows.push(openings)
}

/// Puts the places and the totals.
fn put_places(alloc: Global, posted: &mut Record, exchange: Exchange) -> Result<(), NoMemory> {
    let places = places_of(alloc, exchange)?;
    posted.totals.push(totals_of(alloc, &places)?)?;
    posted.places.push(places)
}

/// Puts what an office posts.
fn put_record(alloc: Global, posted: &mut Record, office: &Office) -> Result<(), NoMemory> {
    posted.code_commits.push(code_commits(alloc)?)?;
    put_race(posted, instances_of(alloc, office)?)?;
    put_places(alloc, posted, office.exchange)?;
    put_blocks(alloc, &mut posted.ballots)
}

/// The office's draw.
fn draw_of(alloc: Global, office: &Office) -> Result<Draw, NoMemory> {
    let mut public = Word::new(alloc);
    public.extend(&office.public)?;
    Ok(Draw::Public(public))
}

/// The record that an office posts, not sealed yet.
pub(super) fn record_of(alloc: Global, office: &Office) -> Result<Record, NoMemory> {
    let draw = draw_of(alloc, office)?;
    let plan = plan_of(alloc)?;
    let mut posted = empty_record(alloc, plan, draw);
    put_record(alloc, &mut posted, office)?;
    Ok(posted)
}
