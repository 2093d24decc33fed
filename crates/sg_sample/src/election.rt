//! The election of a sample: its plan, its seed and the secret of its station.
ghost use Rattle.std.specs.Prelude.{◌≡◌, ◌≤◌, IfOk};
ghost use Rattle.sg_keeper.specs.SetupText.{IsSetup};
ghost use Rattle.sg_sample.specs.SampleRun.{both_races, council, mayor, sample_plan, sample_seed, sample_setup};

use sg_keeper::Setup;
use sg_plan::{Items, NoMemory, Plan, Race, Run, Style, Word};
use sg_streams::Seed;
use std::alloc::Global;

/// The secret of the one station.
pub(crate) const SECRET: [u8; 16] = [0; 16];

/// A name of these bytes.
fn name(alloc: Global, bytes: &[u8]) -> Result<Word, NoMemory>
    ensures { IfOk result (λ word. word ≡ bytes.now) }
{
    let mut word = Word::with_room(alloc, bytes.len())?;
    word.extend(bytes)?;
    Ok(word)
}

/// The race with one vote and three candidates.
fn mayor(alloc: Global) -> Result<Race, NoMemory>
    ensures { IfOk result (λ race. race ≡ mayor) }
{
    let mut candidates = Items::with_room(alloc, 3)?;
    candidates.push(name(alloc, b"Ada")?)?;
    candidates.push(name(alloc, b"Ben")?)?;
    candidates.push(name(alloc, b"Cy")?)?;
    Ok(Race {
        name: name(alloc, b"Mayor")?,
        candidates,
        votes: 1,
    })
}

/// The race with two votes and four candidates.
fn council(alloc: Global) -> Result<Race, NoMemory>
    ensures { IfOk result (λ race. race ≡ council) }
{
    let mut candidates = Items::with_room(alloc, 4)?;
    candidates.push(name(alloc, b"Dan")?)?;
    candidates.push(name(alloc, b"Eve")?)?;
    candidates.push(name(alloc, b"Fay")?)?;
    candidates.push(name(alloc, b"Gus")?)?;
    Ok(Race {
        name: name(alloc, b"Council")?,
        candidates,
        votes: 2,
    })
}

/// The style with both races.
fn both_races(alloc: Global) -> Result<Style, NoMemory>
    ensures { IfOk result (λ style. style ≡ both_races) }
{
    let mut races = Items::with_room(alloc, 2)?;
    races.push(0)?;
    races.push(1)?;
    Ok(Style {
        name: name(alloc, b"All")?,
        races,
    })
}

/// The plan for so many ballots.
#[tactic(auto, unfolding(crate::specs::SampleRun::sample_plan))]
fn sample_plan(alloc: Global, ballots: u32) -> Result<Plan, NoMemory>
    ensures { IfOk result (λ plan. plan ≡ sample_plan ballots) }
{
    let mut races = Items::with_room(alloc, 2)?;
    races.push(mayor(alloc)?)?;
    races.push(council(alloc)?)?;
    let mut styles = Items::with_room(alloc, 1)?;
    styles.push(both_races(alloc)?)?;
    let mut runs = Items::with_room(alloc, 1)?;
    runs.push(Run {
        style: 0,
        count: ballots,
    })?;
    Ok(Plan {
        version: 1,
        name: name(alloc, b"Sample")?,
        instances: 3,
        races,
        styles,
        runs,
    })
}

/// The seed: 28 zero bytes, and the number as four bytes, the highest first.
#[tactic(auto, unfolding(crate::specs::SampleRun::sample_seed))]
fn sample_seed(number: u32) -> Seed
    ensures { result.0 ≡ sample_seed number }
{
    let mut bytes = [0; 32];
    bytes[28..].copy_from_slice(&number.to_be_bytes());
    Seed(bytes)
}

/// What the office is set up with. It refuses for want of memory alone.
pub(crate) fn sample_setup(alloc: Global, number: u32, ballots: u32) -> Result<Setup, NoMemory>
    requires some { 1 ≤ ballots }
    requires few { ballots ≤ 9000 }
    ensures is { IfOk result (λ setup. setup ≡ sample_setup number ballots) }
    ensures fits { IfOk result IsSetup }
{
    let plan = sample_plan(alloc, ballots)?;
    let mut secrets = Items::with_room(alloc, 1)?;
    secrets.push(SECRET)?;
    Ok(Setup {
        plan,
        seed: sample_seed(number),
        secrets,
    })
}
