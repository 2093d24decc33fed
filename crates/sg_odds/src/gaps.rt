//! How far the totals of a race are from the marked entries that are led to its candidates.
ghost use Rattle.std.specs.Prelude.{◌≡◌, ◌<◌, ◌≤◌, IfOk, length};
ghost use Rattle.sg_check.specs.Printings.{marked_code as code_marked};
ghost use Rattle.sg_facts.specs.Tables.{HasTable};
ghost use Rattle.sg_odds.specs.Answers.{IsRaceFull};
ghost use Rattle.sg_odds.specs.Odds.{exponent, greatest_below};
ghost use Rattle.sg_odds.specs.inside.Gaps.{gap_in, least_in, number_in};
ghost use Rattle.sg_parts.specs.Given.{completion_of};
ghost use Rattle.sg_plan.specs.Ballots.{candidates_of};
ghost use Rattle.sg_record.specs.Places.{places_in};

use crate::led::race_led;
use sg_plan::{Items, NoMemory};
use sg_record::Record;
use sg_recount::{Parts, item_at, total_at};
use std::alloc::Global;

/// A number of a table, or 0 where it has none there.
fn number_at(table: &Items<Items<u32>>, outer: u32, inner: u32) -> u32
    ensures { result ≡ number_in table.now outer inner }
{
    match item_at(table, outer, inner) {
        Some(number) => number,
        None => 0,
    }
}

/// How far a candidate's total is from the marked entries that an instance leads to the candidate.
fn gap(posted: &Record, led: &Items<Items<u32>>, race: u32, candidate: u32, instance: u32) -> u32
    ensures { result ≡ gap_in posted.now.totals led.now race candidate instance }
{
    total_at(posted, race, candidate).abs_diff(number_at(led, instance, candidate))
}

/// The same in the instance where it is nearest.
fn least_gap(posted: &Record, led: &Items<Items<u32>>, race: u32, candidate: u32) -> u32
    requires { 1 ≤ posted.now.plan.instances }
    ensures { result ≡ least_in posted.now.totals led.now race posted.now.plan.instances candidate }
{
    let mut least = gap(posted, led, race, candidate, 0);
    for instance in 1..posted.plan.instances {
        least = least.min(gap(posted, led, race, candidate, instance));
    }
    least
}

/// The greatest of these of all candidates.
fn greatest_gap(posted: &Record, led: &Items<Items<u32>>, race: u32) -> u32
    requires instances { 1 ≤ posted.now.plan.instances }
    requires candidates { candidates_of posted.now.plan race ≤ 16 }
    ensures { result ≡ greatest_below (least_in posted.now.totals led.now race posted.now.plan.instances) (candidates_of posted.now.plan race) }
{
    let mut greatest = 0;
    for candidate in 0..posted.plan.candidates(race) as u32 {
        greatest = greatest.max(least_gap(posted, led, race, candidate));
    }
    greatest
}

/// The exponent of a full race.
pub(crate) fn race_exponent(
    alloc: Global,
    parts: &Parts,
    marked: &Items<Items<Option<u16>>>,
    race: u32,
) -> Result<u32, NoMemory>
    requires table { HasTable parts.now.posted.plan marked.now (λ race entry. code_marked parts.now.posted.plan race entry (places_in parts.now.posted)) }
    requires race { race < length parts.now.posted.plan.races }
    requires full { IsRaceFull parts.now.posted.plan (completion_of parts.now.rows) race }
    ensures { IfOk result (λ power. power ≡ exponent parts.now.posted.plan (places_in parts.now.posted) (completion_of parts.now.rows) race) }
{
    let posted = parts.posted();
    let led = race_led(alloc, parts, marked, race)?;
    Ok(posted.plan.instances * greatest_gap(posted, &led, race))
}
