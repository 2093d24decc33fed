//! Makes the tables of a plan from a seed of zeros, or sorts as many pairs, so that the work can be timed.
ghost use Rattle.std.specs.Prelude.{◌≤◌, length};

use crate::stop::Stop;
use crate::task::Task;
use sg_plan::limits::MOST_BALLOTS;
use sg_plan::{Items, NoMemory, Plan, Race, Run, Style, Word};
use sg_streams::{Seed, Words, stream};
use sg_tables::Tables;
use std::alloc::Global;

const SEED: Seed = Seed([0; 32]);

/// A name: the letter of a number.
fn letter(alloc: Global, at: u32) -> Result<Word, NoMemory> {
    let mut word = Word::new(alloc);
    word.push(b'A' + (at % 26) as u8)?;
    Ok(word)
}

/// Puts so many candidates.
fn put_candidates(alloc: Global, race: &mut Race, count: u32) -> Result<(), NoMemory> {
    for candidate in 0..count {
        race.candidates.push(letter(alloc, candidate)?)?;
    }
    Ok(())
}

/// A race with so many candidates.
fn race_of(alloc: Global, at: u32, count: u32) -> Result<Race, NoMemory> {
    let mut race = Race {
        name: letter(alloc, at)?,
        candidates: Items::new(alloc),
        votes: 1,
    };
    put_candidates(alloc, &mut race, count)?;
    Ok(race)
}

/// Puts races with so many candidates, and their numbers on the one style.
fn put_races(
    alloc: Global,
    candidates: &[u32],
    plan: &mut Plan,
    style: &mut Style,
) -> Result<(), NoMemory>
    requires { length candidates.now ≤ 2 }
{
    for race in 0..candidates.len() {
        plan.races
            .push(race_of(alloc, race as u32, candidates[race])?)?;
        style.races.push(race as u32)?;
    }
    Ok(())
}

/// Puts the one style, with races that have so many candidates.
fn put_style(alloc: Global, candidates: &[u32], plan: &mut Plan) -> Result<(), NoMemory>
    requires { length candidates.now ≤ 2 }
{
    let mut style = Style {
        name: letter(alloc, 0)?,
        races: Items::new(alloc),
    };
    put_races(alloc, candidates, plan, &mut style)?;
    plan.styles.push(style)
}

/// A plan with five instances and one style, whose races have so many candidates.
fn plan_of(alloc: Global, candidates: &[u32], ballots: u32) -> Result<Plan, NoMemory>
    requires { length candidates.now ≤ 2 }
{
    let mut plan = Plan {
        version: 1,
        name: letter(alloc, 0)?,
        instances: 5,
        races: Items::new(alloc),
        styles: Items::new(alloc),
        runs: Items::new(alloc),
    };
    plan.runs.push(Run {
        style: 0,
        count: ballots,
    })?;
    put_style(alloc, candidates, &mut plan)?;
    Ok(plan)
}

/// The number of the row to which the first entry of the first race leads.
fn path_of(tables: &Tables) -> Result<u32, Stop> {
    if tables.plan().races.len() == 0 || tables.plan().entries(0) == 0 {
        return Err(Stop::Plan);
    }
    Ok(tables.path(0, 0))
}

/// The same, from the tables of a plan.
fn path_in(alloc: Global, plan: &Plan) -> Result<u32, Stop> {
    if plan.check().is_err() {
        return Err(Stop::Plan);
    }
    let tables = Tables::make(alloc, plan, &SEED)?;
    let path = path_of(&tables);
    drop(tables);
    path
}

/// The same, where the races of the plan have so many candidates.
fn make(alloc: Global, candidates: &[u32], ballots: u32) -> Result<u32, Stop>
    requires { length candidates.now ≤ 2 }
{
    let plan = plan_of(alloc, candidates, ballots)?;
    let path = path_in(alloc, &plan);
    drop(plan);
    path
}

/// The number of the least of `count` pairs with scattered keys.
fn sort(alloc: Global, count: u32) -> Result<u32, Stop> {
    let mut pairs = Vec::new(alloc);
    let mut key = 1_u64;
    for number in 0..count {
        key = key
            .wrapping_mul(6_364_136_223_846_793_005)
            .wrapping_add(1_442_695_040_888_963_407);
        if pairs.push((key, number)).is_err() {
            return Err(Stop::NoMemory);
        }
    }
    pairs.sort_unstable();
    match pairs.first() {
        Some((_, number)) => Ok(*number),
        None => Ok(0),
    }
}

/// The last of the first words of `count` streams.
fn start(count: u32) -> u32 {
    let mut word = 0;
    for index in 0..count {
        word = Words::at(&SEED, stream(1, 0, index), 0).next();
    }
    word
}

/// The number that a work says.
fn number_of(alloc: Global, word: &str, count: u32) -> Result<Option<u32>, Stop> {
    match word {
        "town" => Ok(Some(make(alloc, [4, 3].as_slice(), 1_700)?)),
        "largest" => Ok(Some(make(alloc, [2].as_slice(), MOST_BALLOTS)?)),
        "sort" => Ok(Some(sort(alloc, count)?)),
        "start" => Ok(Some(start(count))),
        _ => Ok(None),
    }
}

/// Does a work, and says its number.
pub(crate) fn measure(rt: &HostRuntime, task: Task<'_>) -> Result<(), Stop> {
    let [count, ..] = task.numbers;
    match number_of(rt.alloc(), task.word, count)? {
        Some(number) => Ok(println!(rt; "{number}")?),
        None => Ok(println!(rt; "usage: measures tables town|largest|sort|start [COUNT]")?),
    }
}
