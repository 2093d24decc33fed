//! Posts an election of one race of two candidates in five instances, where each ballot is cast, so that the work can
//! be timed.
//!
//! The words are how far the work goes, the number of runs and the number of ballots of each. With `tables` the office's
//! tables are made, with `make` what the ballots make of them too, and with `post` the record is written into standard
//! output.
ghost use Rattle.std.specs.Prelude.{◌≡◌, true, IfOk};
ghost use Rattle.sg_post.specs.Fits.{story_fits};

mod out;

use crate::stop::Stop;
use crate::task::Task;
use out::Out;
use sg_plan::{
    BallotIndex, Draw, Fate, Items, Mark, NoMemory, Plan, Race, Run, Stage, Style, Word,
};
use sg_post::{Posting, Story, Told, write_posted};
use sg_record::Wrote;
use sg_streams::Seed;
use sg_tables::Tables;
use std::alloc::Global;

const SEED: Seed = Seed([0; 32]);

/// How far the work goes.
#[derive(Clone, Copy, Debug)]
enum Work {
    /// The tables are made.
    Tables,
    /// The posting is made too.
    Make,
    /// The record is written too.
    Post,
}

/// A name.
fn name_of(alloc: Global, letter: u8) -> Result<Word, NoMemory> {
    let mut word = Word::new(alloc);
    word.push(letter)?;
    Ok(word)
}

/// The race.
fn race_of(alloc: Global) -> Result<Race, NoMemory> {
    let mut race = Race {
        name: name_of(alloc, b'R')?,
        candidates: Items::new(alloc),
        votes: 1,
    };
    race.candidates.push(name_of(alloc, b'A')?)?;
    race.candidates.push(name_of(alloc, b'B')?)?;
    Ok(race)
}

/// The style.
fn style_of(alloc: Global) -> Result<Style, NoMemory> {
    let mut style = Style {
        name: name_of(alloc, b'S')?,
        races: Items::new(alloc),
    };
    style.races.push(0)?;
    Ok(style)
}

/// Puts so many runs of so many ballots.
fn put_runs(plan: &mut Plan, runs: u32, ballots: u32) -> Result<(), NoMemory> {
    for _run in 0..runs {
        plan.runs.push(Run {
            style: 0,
            count: ballots,
        })?;
    }
    Ok(())
}

/// Puts the race, the style, and so many runs of so many ballots.
fn put_plan(alloc: Global, plan: &mut Plan, runs: u32, ballots: u32) -> Result<(), NoMemory> {
    plan.races.push(race_of(alloc)?)?;
    plan.styles.push(style_of(alloc)?)?;
    put_runs(plan, runs, ballots)
}

/// A plan of so many runs of so many ballots.
fn plan_of(alloc: Global, runs: u32, ballots: u32) -> Result<Plan, NoMemory> {
    let mut plan = Plan {
        version: 1,
        name: name_of(alloc, b'E')?,
        instances: 5,
        races: Items::new(alloc),
        styles: Items::new(alloc),
        runs: Items::new(alloc),
    };
    put_plan(alloc, &mut plan, runs, ballots)?;
    Ok(plan)
}

/// The fate of a ballot that is cast with a mark beside this candidate.
fn cast(alloc: Global, candidate: u32) -> Result<Fate, NoMemory> {
    let mut marks = Items::new(alloc);
    marks.push(Mark { race: 0, candidate })?;
    Ok(Fate::Cast(marks))
}

/// Public bytes.
fn draw_of(alloc: Global) -> Result<Draw, NoMemory> {
    Ok(Draw::Public(name_of(alloc, b'D')?))
}

/// Puts the fates of so many ballots, each of them cast.
fn put_fates(alloc: Global, story: &mut Story, ballots: u32) -> Result<(), NoMemory> {
    for ballot in 1..=ballots {
        story.fates.push(Told {
            ballot,
            fate: cast(alloc, ballot % 2)?,
        })?;
    }
    Ok(())
}

/// The story where each of so many ballots is cast.
fn story_of(alloc: Global, ballots: u32) -> Result<Story, NoMemory> {
    let mut story = Story {
        fates: Items::new(alloc),
        stage: Stage::Drawn(draw_of(alloc)?),
        claims: Items::new(alloc),
    };
    put_fates(alloc, &mut story, ballots)?;
    Ok(story)
}

/// Whether the story may be posted.
fn fits(alloc: Global, tables: &Tables, story: &Story) -> Result<bool, NoMemory>
    ensures { IfOk result (λ fits. fits ≡ story_fits tables.now.plan story.now) }
{
    let index = BallotIndex::make(alloc, tables.plan())?;
    let fits = story.fits(tables.plan(), &index);
    drop(index);
    Ok(fits)
}

/// Makes the posting of a story that may be posted.
fn make(alloc: Global, tables: &Tables, story: &Story) -> Result<(), Stop>
    requires { story_fits tables.now.plan story.now ≡ true }
{
    drop(Posting::make(alloc, tables, story)?);
    Ok(())
}

/// Posts a story that may be posted, and answers how that ended.
fn wrote(alloc: Global, tables: &Tables, story: &Story, out: &mut Out) -> Result<Wrote, NoMemory>
    requires { story_fits tables.now.plan story.now ≡ true }
{
    let posting = Posting::make(alloc, tables, story)?;
    let wrote = write_posted(alloc, tables, &posting, story, out);
    drop(posting);
    Ok(wrote)
}

/// Posts a story that may be posted.
fn post(alloc: Global, tables: &Tables, story: &Story, out: &mut Out) -> Result<(), Stop>
    requires { story_fits tables.now.plan story.now ≡ true }
{
    match wrote(alloc, tables, story, out)? {
        Wrote::Written => Ok(()),
        Wrote::SinkFailed => Err(Stop::Outside),
        Wrote::NoMemory => Err(Stop::NoMemory),
    }
}

/// Does the work behind the story.
fn work_on(
    alloc: Global,
    work: Work,
    tables: &Tables,
    story: &Story,
    out: &mut Out,
) -> Result<(), Stop> {
    if !fits(alloc, tables, story)? {
        return Err(Stop::Plan);
    }
    match work {
        Work::Tables => Ok(()),
        Work::Make => make(alloc, tables, story),
        Work::Post => post(alloc, tables, story, out),
    }
}

/// Does the work behind the tables, of so many ballots.
fn work_behind(
    alloc: Global,
    work: Work,
    tables: &Tables,
    ballots: u32,
    out: &mut Out,
) -> Result<(), Stop> {
    if let Work::Tables = work {
        return Ok(());
    }
    let story = story_of(alloc, ballots)?;
    let done = work_on(alloc, work, tables, &story, out);
    drop(story);
    done
}

/// The tables of the plan, where it keeps its limits.
fn tables_of(alloc: Global, plan: &Plan) -> Result<Tables, Stop> {
    if plan.check().is_err() {
        return Err(Stop::Plan);
    }
    let tables = Tables::make(alloc, plan, &SEED)?;
    Ok(tables)
}

/// Does the work of a plan, of so many ballots.
fn work_of_plan(
    alloc: Global,
    work: Work,
    plan: &Plan,
    ballots: u32,
    out: &mut Out,
) -> Result<(), Stop> {
    let tables = tables_of(alloc, plan)?;
    let done = work_behind(alloc, work, &tables, ballots, out);
    drop(tables);
    done
}

/// Does the work for an election of so many runs of so many ballots.
fn run(alloc: Global, work: Work, runs: u32, ballots: u32, out: &mut Out) -> Result<(), Stop> {
    let plan = plan_of(alloc, runs, ballots)?;
    let done = work_of_plan(alloc, work, &plan, runs.saturating_mul(ballots), out);
    drop(plan);
    done
}

/// Does the work, and writes what the buffer of the output still holds.
fn run_and_flush(
    alloc: Global,
    work: Work,
    runs: u32,
    ballots: u32,
    out: &mut Out,
) -> Result<(), Stop> {
    run(alloc, work, runs, ballots, out)?;
    Ok(out.flush()?)
}

/// Does the work over standard output.
fn run_out(rt: &HostRuntime, work: Work, runs: u32, ballots: u32) -> Result<(), Stop> {
    let mut out = Out::new(rt.alloc(), rt.stdout())?;
    let done = run_and_flush(rt.alloc(), work, runs, ballots, &mut out);
    drop(out);
    done
}

/// How far a word says that the work goes.
fn work_of(word: &str) -> Option<Work> {
    match word {
        "tables" => Some(Work::Tables),
        "make" => Some(Work::Make),
        "post" => Some(Work::Post),
        _ => None,
    }
}

/// Posts so many runs of so many ballots, as far as a word says.
pub(crate) fn measure(rt: &HostRuntime, task: Task<'_>) -> Result<(), Stop> {
    let [runs, ballots, _] = task.numbers;
    match work_of(task.word) {
        Some(work) => run_out(rt, work, runs, ballots),
        None => Ok(println!(rt; "usage: measures post tables|make|post RUNS BALLOTS")?),
    }
}
