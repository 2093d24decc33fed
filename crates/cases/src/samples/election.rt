//! The election of a sample run and what becomes of its ballots, made without the office's machine.
use crate::fault::Fault;
use sg_plan::limits::MOST_CANDIDATES;
use sg_plan::{Draw, Fate, Items, Mark, NoMemory, Paper, Plan, Race, Run, Stage, Style, Word};
use sg_post::{Story, Told};
use sg_sample::Sample;
use sg_streams::Seed;
use sg_tables::Tables;
use std::alloc::Global;

/// The races of the one style.
const RACES: [u32; 2] = [0, 1];

/// A word of these bytes.
fn word(alloc: Global, bytes: &[u8]) -> Result<Word, NoMemory> {
    let mut word = Word::new(alloc);
    word.extend(bytes)?;
    Ok(word)
}

/// Puts the candidates of a race.
fn put_candidates(alloc: Global, race: &mut Race, names: &[&[u8]]) -> Result<(), NoMemory> {
    for name in names.iter() {
        race.candidates.push(word(alloc, name)?)?;
    }
    Ok(())
}

/// A race with these candidates.
fn race(alloc: Global, name: &[u8], candidates: &[&[u8]], votes: u32) -> Result<Race, NoMemory> {
    let mut race = Race {
        name: word(alloc, name)?,
        candidates: Items::new(alloc),
        votes,
    };
    put_candidates(alloc, &mut race, candidates)?;
    Ok(race)
}

/// Puts the two races.
fn put_races(alloc: Global, plan: &mut Plan) -> Result<(), NoMemory> {
    let mayor = race(alloc, b"Mayor", &[b"Ada", b"Ben", b"Cy"], 1)?;
    plan.races.push(mayor)?;
    let council = race(alloc, b"Council", &[b"Dan", b"Eve", b"Fay", b"Gus"], 2)?;
    plan.races.push(council)
}

/// The one style of paper.
fn style(alloc: Global) -> Result<Style, NoMemory> {
    let mut style = Style {
        name: word(alloc, b"All")?,
        races: Items::new(alloc),
    };
    style.races.extend(&RACES)?;
    Ok(style)
}

/// Puts the races, the style and the ballots.
fn put_plan(alloc: Global, plan: &mut Plan, ballots: u32) -> Result<(), NoMemory> {
    put_races(alloc, plan)?;
    plan.styles.push(style(alloc)?)?;
    plan.runs.push(Run {
        style: 0,
        count: ballots,
    })
}

/// The plan for so many ballots.
pub(super) fn plan(alloc: Global, ballots: u32) -> Result<Plan, NoMemory> {
    let mut plan = Plan {
        version: 1,
        name: word(alloc, b"Sample")?,
        instances: 3,
        races: Items::new(alloc),
        styles: Items::new(alloc),
        runs: Items::new(alloc),
    };
    put_plan(alloc, &mut plan, ballots)?;
    Ok(plan)
}

/// The seed: zeros, and the number as the last four bytes, the highest first.
pub(super) fn seed(number: u32) -> Seed {
    let mut bytes = [0; 32];
    bytes[28..].copy_from_slice(&number.to_be_bytes());
    Seed(bytes)
}

/// Puts the marks on a ballot that is cast: one in the first race, and two or three beside each other in the second.
fn put_marks(ballot: u32, marks: &mut Items<Mark>) -> Result<(), NoMemory> {
    marks.push(Mark {
        race: 0,
        candidate: ballot % 3,
    })?;
    let count = if ballot % 10 == 1 { 3 } else { 2 };
    for behind in 0..count {
        marks.push(Mark {
            race: 1,
            candidate: (ballot % 4 + behind) % 4,
        })?;
    }
    Ok(())
}

/// The fate of a ballot that is cast.
fn cast(alloc: Global, ballot: u32) -> Result<Fate, NoMemory> {
    let mut marks = Items::new(alloc);
    put_marks(ballot, &mut marks)?;
    Ok(Fate::Cast(marks))
}

/// Puts the codes that are printed on a ballot in a race: each ballot has one row in each race.
fn put_codes(tables: &Tables, race: u32, ballot: u32, codes: &mut Items<u16>) -> Result<(), Fault> {
    if race as usize >= tables.plan().races.len() || ballot == 0 {
        return Err(Fault::Case);
    }
    if ballot > tables.plan().rows(race) {
        return Err(Fault::Case);
    }
    let candidates = tables.plan().candidates(race);
    if candidates > MOST_CANDIDATES {
        return Err(Fault::Case);
    }
    for candidate in 0..candidates as u32 {
        codes.push(tables.code(race, ballot - 1, candidate))?;
    }
    Ok(())
}

/// Puts the list of a race's codes on a ballot.
fn put_list(
    alloc: Global,
    tables: &Tables,
    race: u32,
    ballot: u32,
    paper: &mut Paper,
) -> Result<(), Fault> {
    let mut codes = Items::new(alloc);
    put_codes(tables, race, ballot, &mut codes)?;
    paper.push(codes)?;
    Ok(())
}

/// The fate of a ballot whose paper is audited.
fn audited(alloc: Global, tables: &Tables, ballot: u32) -> Result<Fate, Fault> {
    let mut paper = Items::new(alloc);
    put_list(alloc, tables, RACES[0], ballot, &mut paper)?;
    put_list(alloc, tables, RACES[1], ballot, &mut paper)?;
    Ok(Fate::Audited(paper))
}

/// What becomes of a ballot, by the last digit of its number.
fn fate(alloc: Global, tables: &Tables, ballot: u32) -> Result<Fate, Fault> {
    match ballot % 10 {
        0 => Ok(Fate::Spoiled),
        5 => audited(alloc, tables, ballot),
        7 => Ok(Fate::Unused),
        _ => Ok(cast(alloc, ballot)?),
    }
}

/// Puts the fates of the ballots that are used.
fn put_fates(
    alloc: Global,
    tables: &Tables,
    ballots: u32,
    fates: &mut Items<Told>,
) -> Result<(), Fault> {
    for ballot in 1..=ballots {
        match fate(alloc, tables, ballot)? {
            Fate::Unused => {}
            fate => fates.push(Told { ballot, fate })?,
        }
    }
    Ok(())
}

/// The last stage, with the number of the seed as the draw.
fn stage(alloc: Global, sample: Sample) -> Result<Stage, NoMemory> {
    let mut drawn = Word::new(alloc);
    drawn.extend(&sample.seed.to_be_bytes())?;
    Ok(Stage::Drawn(Draw::Public(drawn)))
}

/// The story of the run, to its end.
pub(super) fn story(alloc: Global, tables: &Tables, sample: Sample) -> Result<Story, Fault> {
    let mut story = Story {
        fates: Items::new(alloc),
        stage: stage(alloc, sample)?,
        claims: Items::new(alloc),
    };
    put_fates(alloc, tables, sample.ballots, &mut story.fates)?;
    Ok(story)
}
