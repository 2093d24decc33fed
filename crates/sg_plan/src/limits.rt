//! The limits of an election, and the first fault of a plan.
ghost use Rattle.std.specs.Prelude.{◌≡◌, ℕ, ◌<◌, ◌+◌, ◌^◌, ◌≤◌, [], None, Some, MatchResult, length, nat_lt, nat_le, ◌&&◌};
ghost use Rattle.sg_plan.specs.Ballots.{ballot_styles, candidates_of, r_rows};
ghost use Rattle.sg_plan.specs.Limits.{each_keeps, fault_of, first_bad, most_ballots, most_candidates, most_instances, most_races, race_fault, race_fits, race_head_keeps, race_keeps, races_have, rises, run_fault, run_keeps, style_fault, style_fits, style_keeps, styles_have};
ghost use Rattle.sg_plan.specs.Names.{name_keeps};

use crate::ballots::count_all_entries;
use crate::items::Items;
use crate::names::{is_name, is_new_name};
use crate::plan::{Plan, Race, Run, Style};
use crate::word::Word;

/// What is at fault in a plan that does not keep its limits.
#[derive(Clone, Copy, Debug, PartialEq, Eq)]
pub enum PlanFault {
    /// The version is neither 1 nor 2.
    Version,
    /// The election's name is not a name.
    Name,
    /// The number of instances is not 1 to 16.
    Instances,
    /// The first race at fault.
    Race(u32),
    /// The first style at fault.
    Style(u32),
    /// The first run at fault.
    Run(u32),
    /// More than 200,000 rows of table R, over all races and instances: their number.
    TooLarge(u64),
}

/// The most races of an election. It has one or more.
pub const MOST_RACES: usize = 32;

/// The fewest candidates of a race.
pub const LEAST_CANDIDATES: usize = 2;

/// The most candidates of a race, and so the most votes that a voter has in one.
pub const MOST_CANDIDATES: usize = 16;

/// The most styles of paper. A plan has one or more.
pub const MOST_STYLES: usize = 32;

/// The most ballots. A plan has one or more.
pub const MOST_BALLOTS: u32 = 20_000;

/// The most instances of table R. Each race has one or more.
pub const MOST_INSTANCES: u32 = 16;

/// The most rows of table R, over all races and instances.
pub const MOST_ROWS: u64 = 200_000;

/// The longest name, in bytes. A name has one byte or more.
pub const LONGEST_NAME: usize = 64;

/// The most stations of an office. It has one or more.
pub const MOST_STATIONS: usize = 32;

/// The most public bytes of a draw. A draw by public bytes has one or more.
pub const MOST_PUBLIC_BYTES: usize = 4_096;

/// The most claims that an office takes, and so the most disputes of a record.
pub const MOST_CLAIMS: usize = 10_000;

/// The longest line of a record, in bytes, its line feed included.
pub const LONGEST_LINE: usize = 16_384;

/// The most bits on a line of flags or places.
pub const MOST_BITS: usize = 64;

/// The longest election file, in bytes.
pub const LONGEST_ELECTION: usize = 1_048_576;

/// The most lines of asks that are read.
pub const MOST_ASKS: u32 = 100_000;

/// The longest line of an ask, in bytes, its line feed included; and the longest body of a request.
pub const LONGEST_ASK: usize = 65_536;

/// The longest head of a request, in bytes.
pub const LONGEST_HEAD: usize = 8_192;

/// The most fields of a request's head.
pub const MOST_FIELDS: usize = 64;

/// All candidates' names are names, and no two are the same.
fn are_candidates(names: &Items<Word>) -> bool
    ensures { result ≡ each_keeps name_keeps [] names.now }
{
    for at in 0..names.len() {
        if !is_new_name(&names.as_slice()[..at], names.get(at).bytes()) {
            return false;
        }
    }
    true
}

/// An earlier race has the name.
fn has_race_named(earlier: &[Race], name: &[u8]) -> bool
    ensures { result ≡ races_have earlier.now name.now }
{
    earlier.iter().any(|race| race.name.bytes() == name)
}

/// A race of this name keeps its limits beside the earlier races, but for its candidates' names.
pub fn is_race_head(earlier: &[Race], name: &[u8], candidates: usize, votes: u32) -> bool
    ensures { result ≡ race_head_keeps earlier.now name.now candidates votes }
{
    if !is_name(name) {
        return false;
    }
    if has_race_named(earlier, name) {
        return false;
    }
    if !(LEAST_CANDIDATES..=MOST_CANDIDATES).contains(&candidates) {
        return false;
    }
    (1..=candidates).contains(&(votes as usize))
}

/// The race keeps its limits beside the earlier races.
fn is_race(earlier: &[Race], race: &Race) -> bool
    ensures { result ≡ race_keeps earlier.now race.now }
{
    is_race_head(
        earlier,
        race.name.bytes(),
        race.candidates.len(),
        race.votes,
    ) && are_candidates(&race.candidates)
}

/// The race keeps its limits, and is not one too many.
fn is_fitting_race(earlier: &[Race], race: &Race) -> bool
    ensures { result ≡ race_fits earlier.now race.now }
{
    if earlier.len() >= MOST_RACES {
        return false;
    }
    is_race(earlier, race)
}

/// The first race that does not keep its limits.
fn first_bad_race(races: &Items<Race>) -> Option<u32>
    ensures { result ≡ first_bad race_fits [] races.now }
{
    for at in 0..races.len() {
        if !is_fitting_race(&races.as_slice()[..at], races.get(at)) {
            return Some(at as u32);
        }
    }
    None
}

/// The first race at fault.
#[tactic(auto, using(crate::proofs::Lists::judged))]
fn bad_race(races: &Items<Race>) -> Option<u32>
    ensures { result ≡ race_fault races.now }
{
    if races.len() == 0 {
        return Some(0);
    }
    first_bad_race(races)
}

/// An earlier style has the name.
fn has_style_named(earlier: &[Style], name: &[u8]) -> bool
    ensures { result ≡ styles_have earlier.now name.now }
{
    earlier.iter().any(|style| style.name.bytes() == name)
}

/// The numbers strictly rise and are below the end.
fn do_rise(numbers: &[u32], end: usize) -> bool
    ensures { result ≡ rises 0 end numbers.now }
{
    let mut least = 0;
    for number in numbers {
        let number = *number as usize;
        if number < least {
            return false;
        }
        if number >= end {
            return false;
        }
        least = number + 1;
    }
    true
}

/// A style of this name and these races keeps its limits beside the earlier styles, in a plan of
/// `end` races.
pub fn is_style(end: usize, earlier: &[Style], name: &[u8], races: &[u32]) -> bool
    ensures { result ≡ style_keeps end earlier.now (record { name = name.now; races = races.now }) }
{
    if !is_name(name) {
        return false;
    }
    if has_style_named(earlier, name) {
        return false;
    }
    if races.is_empty() {
        return false;
    }
    do_rise(races, end)
}

/// The style keeps its limits, and is not one too many, in a plan of so many races.
fn is_fitting_style(races: usize, earlier: &[Style], style: &Style) -> bool
    ensures { result ≡ style_fits races earlier.now style.now }
{
    if earlier.len() >= MOST_STYLES {
        return false;
    }
    is_style(races, earlier, style.name.bytes(), style.races.as_slice())
}

/// The first style that does not keep its limits, in a plan of so many races.
fn first_bad_style(races: usize, styles: &Items<Style>) -> Option<u32>
    ensures { result ≡ first_bad (style_fits races) [] styles.now }
{
    for at in 0..styles.len() {
        if !is_fitting_style(races, &styles.as_slice()[..at], styles.get(at)) {
            return Some(at as u32);
        }
    }
    None
}

/// The first style at fault, in a plan of so many races.
#[tactic(auto, using(crate::proofs::Lists::judged))]
fn bad_style(races: usize, styles: &Items<Style>) -> Option<u32>
    ensures { result ≡ style_fault races styles.now }
{
    if styles.len() == 0 {
        return Some(0);
    }
    first_bad_style(races, styles)
}

/// The run keeps its limits, in a plan of so many styles whose earlier runs give so many ballots.
pub fn is_run(styles: usize, ballots: u32, run: &Run) -> bool
    requires { ballots ≤ most_ballots }
    ensures { result ≡ (nat_lt run.now.style styles && (nat_le 1 run.now.count && nat_le (ballots + run.now.count) most_ballots)) }
{
    if run.style as usize >= styles {
        return false;
    }
    (1..=MOST_BALLOTS - ballots).contains(&run.count)
}

/// The first run that does not keep its limits, in a plan of so many styles.
#[tactic(auto, using(crate::proofs::BallotLists::counts))]
fn first_bad_run(styles: usize, runs: &Items<Run>) -> Option<u32>
    ensures { result ≡ first_bad (run_keeps styles) [] runs.now }
{
    let mut ballots = 0;
    for at in 0..runs.len() {
        let run = runs.get(at);
        if !is_run(styles, ballots, run) {
            return Some(at as u32);
        }
        ballots += run.count;
    }
    None
}

/// The first run at fault, in a plan of so many styles.
#[tactic(auto, using(crate::proofs::Lists::judged))]
fn bad_run(styles: usize, runs: &Items<Run>) -> Option<u32>
    ensures { result ≡ run_fault styles runs.now }
{
    if runs.len() == 0 {
        return Some(0);
    }
    first_bad_run(styles, runs)
}

/// How many rows of table R all races have in all instances.
fn count_table_rows(plan: &Plan) -> u64
    requires few_instances { plan.now.instances ≤ most_instances }
    requires few_races { length plan.now.races ≤ most_races }
    requires few_ballots { length (ballot_styles plan.now.runs) ≤ most_ballots }
    requires few_candidates { (race : ℕ) → candidates_of plan.now race ≤ most_candidates }
    ensures { result ≡ r_rows plan.now }
{
    u64::from(plan.instances) * count_all_entries(plan)
}

impl Plan {
    /// The plan keeps its limits, or its first fault: the least in the order of `PlanFault`, and for a
    /// race, a style or a run the first one at fault.
    ///
    /// A list without an item is at fault at 0, and one of more than 32 races or styles at 32 or before.
    #[tactic(auto, unfolding(crate::specs::Limits::fault_of))]
    pub fn check(&self) -> Result<(), PlanFault>
        ensures { MatchResult result (λ _. fault_of self.now ≡ None) (λ fault. fault_of self.now ≡ Some fault) }
    {
        if !(1..=2).contains(&self.version) {
            return Err(PlanFault::Version);
        }
        if !is_name(self.name.bytes()) {
            return Err(PlanFault::Name);
        }
        if !(1..=MOST_INSTANCES).contains(&self.instances) {
            return Err(PlanFault::Instances);
        }
        if let Some(race) = bad_race(&self.races) {
            return Err(PlanFault::Race(race));
        }
        if let Some(style) = bad_style(self.races.len(), &self.styles) {
            return Err(PlanFault::Style(style));
        }
        if let Some(run) = bad_run(self.styles.len(), &self.runs) {
            return Err(PlanFault::Run(run));
        }
        let rows = count_table_rows(self);
        if rows > MOST_ROWS {
            return Err(PlanFault::TooLarge(rows));
        }
        Ok(())
    }
}
