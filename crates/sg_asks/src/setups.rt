//! The election file as JSON.
ghost use Rattle.std.specs.Prelude.{◌≡◌, Some};
ghost use Rattle.serde_json.specs.View.{view};
ghost use Rattle.sg_asks.specs.ElectionFile.{IsSetup, file_in, plan_in, race_in, run_in, seed_in, setup_in, style_in, with_lists, with_shape};
ghost use Rattle.sg_asks.specs.inside.Reading.{Reads};

use crate::kinds::{Kind, has_members, member};
use crate::reading::value_of;
use crate::unread::Unread;
use serde_json::Value;
use sg_keeper::Setup;
use sg_lines::read_digest;
use sg_plan::limits::MOST_STATIONS;
use sg_plan::{Plan, PlanFault, Race, Run, Style, Word};
use sg_streams::Seed;
use std::alloc::Global;

/// Why bytes are no election file.
#[derive(Clone, Copy, Debug, PartialEq, Eq)]
pub enum SetupFault {
    /// They are no UTF-8, or no JSON of depth at most 127.
    NotJson,
    /// The value has not the form of an election file.
    Shape,
    /// The plan breaks a limit.
    Plan(PlanFault),
    /// There is no secret, or there are more than 32.
    Secrets,
    /// Memory was wanted.
    NoMemory,
}

/// A race.
#[tactic(auto, unfolding(crate::specs::ElectionFile::race_in))]
fn race_of(alloc: Global, value: &Value) -> Result<Race, Unread>
    ensures { Reads result (race_in (view value.now)) }
{
    if !has_members(value, 3) {
        return Err(Unread::Shape);
    }
    let name = member(alloc, value, "name")?;
    let candidates = member(alloc, value, "candidates")?;
    let votes = member(alloc, value, "votes")?;
    Ok(Race {
        name,
        candidates,
        votes,
    })
}

impl Kind for Race {
    ghost kind = { race_in };

    fn read(alloc: Global, value: &Value) -> Result<Race, Unread> {
        race_of(alloc, value)
    }
}

/// A style.
#[tactic(auto, unfolding(crate::specs::ElectionFile::style_in))]
fn style_of(alloc: Global, value: &Value) -> Result<Style, Unread>
    ensures { Reads result (style_in (view value.now)) }
{
    if !has_members(value, 2) {
        return Err(Unread::Shape);
    }
    let name = member(alloc, value, "name")?;
    let races = member(alloc, value, "races")?;
    Ok(Style { name, races })
}

impl Kind for Style {
    ghost kind = { style_in };

    fn read(alloc: Global, value: &Value) -> Result<Style, Unread> {
        style_of(alloc, value)
    }
}

/// A run of ballots of one style.
#[tactic(auto, unfolding(crate::specs::ElectionFile::run_in))]
fn run_of(alloc: Global, value: &Value) -> Result<Run, Unread>
    ensures { Reads result (run_in (view value.now)) }
{
    if !has_members(value, 2) {
        return Err(Unread::Shape);
    }
    let style = member(alloc, value, "style")?;
    let count = member(alloc, value, "ballots")?;
    Ok(Run { style, count })
}

impl Kind for Run {
    ghost kind = { run_in };

    fn read(alloc: Global, value: &Value) -> Result<Run, Unread> {
        run_of(alloc, value)
    }
}

/// The plan with these first members, and with its lists.
fn with_lists(
    alloc: Global,
    value: &Value,
    version: u32,
    name: Word,
    instances: u32,
) -> Result<Plan, Unread>
    ensures { Reads result (with_lists (view value.now) version name instances) }
{
    let races = member(alloc, value, "races")?;
    let styles = member(alloc, value, "styles")?;
    let runs = member(alloc, value, "runs")?;
    Ok(Plan {
        version,
        name,
        instances,
        races,
        styles,
        runs,
    })
}

/// A plan.
#[tactic(auto, unfolding(crate::specs::ElectionFile::plan_in))]
fn plan_of(alloc: Global, value: &Value) -> Result<Plan, Unread>
    ensures { Reads result (plan_in (view value.now)) }
{
    if !has_members(value, 6) {
        return Err(Unread::Shape);
    }
    let version = member(alloc, value, "version")?;
    let name = member(alloc, value, "name")?;
    let instances = member(alloc, value, "instances")?;
    with_lists(alloc, value, version, name, instances)
}

impl Kind for Plan {
    ghost kind = { plan_in };

    fn read(alloc: Global, value: &Value) -> Result<Plan, Unread> {
        plan_of(alloc, value)
    }
}

/// A seed: 64 lower-case hexadecimal digits.
#[tactic(auto, unfolding(crate::specs::ElectionFile::seed_in))]
fn seed_of(value: &Value) -> Result<Seed, Unread>
    ensures { Reads result (seed_in (view value.now)) }
{
    let Some(text) = value.as_str() else {
        return Err(Unread::Shape);
    };
    match read_digest(text.as_bytes()) {
        Some(bytes) => Ok(Seed(bytes)),
        None => Err(Unread::Shape),
    }
}

impl Kind for Seed {
    ghost kind = { seed_in };

    fn read(_: Global, value: &Value) -> Result<Seed, Unread> {
        seed_of(value)
    }
}

/// The form of an election file.
#[tactic(auto, unfolding(crate::specs::ElectionFile::file_in))]
fn file_of(alloc: Global, value: &Value) -> Result<Setup, Unread>
    ensures { Reads result (file_in (view value.now)) }
{
    if !has_members(value, 3) {
        return Err(Unread::Shape);
    }
    let plan = member(alloc, value, "plan")?;
    let seed = member(alloc, value, "seed")?;
    let secrets = member(alloc, value, "secrets")?;
    Ok(Setup {
        plan,
        seed,
        secrets,
    })
}

/// A setup of the right form, or its first fault.
fn checked(setup: Setup) -> Result<Setup, SetupFault>
    ensures { result ≡ with_shape (Some setup) }
{
    if let Err(broken) = setup.plan.check() {
        return Err(SetupFault::Plan(broken));
    }
    if setup.secrets.len() < 1 {
        return Err(SetupFault::Secrets);
    }
    if setup.secrets.len() > MOST_STATIONS {
        return Err(SetupFault::Secrets);
    }
    Ok(setup)
}

/// Reads an election file: a JSON object in UTF-8 with the plan, the seed of 64 and the secrets of 32 lower-case
/// hexadecimal digits, of 1 to 32 stations.
///
/// An object has exactly its members, in any order; of a name that comes twice the last value stands. Numbers are
/// whole, from 0 to 4,294,967,295, without fraction and exponent. The first of the faults is answered.
#[tactic(auto, unfolding(crate::specs::ElectionFile::setup_in))]
pub fn setup_of(alloc: Global, bytes: &[u8]) -> Result<Setup, SetupFault>
    ensures { IsSetup result (setup_in bytes.now) }
{
    let Ok(found) = value_of(alloc, bytes) else {
        return Err(SetupFault::NoMemory);
    };
    let Some(value) = found else {
        return Err(SetupFault::NotJson);
    };
    match file_of(alloc, &value) {
        Ok(setup) => checked(setup),
        Err(Unread::Shape) => Err(SetupFault::Shape),
        Err(Unread::NoMemory) => Err(SetupFault::NoMemory),
    }
}
