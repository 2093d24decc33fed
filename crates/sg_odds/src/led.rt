//! How many marked entries the rows of an instance lead to each candidate.
ghost use Rattle.std.specs.Prelude.{◌≡◌, ℕ, ◌+◌, ◌<◌, ◌≤◌, ◌==◌, ◌&&◌, if◌then◌else◌, IfOk, Some, length, slice_get};
ghost use Rattle.sg_check.specs.Printings.{marked_code as code_marked};
ghost use Rattle.sg_facts.specs.Tables.{HasTable};
ghost use Rattle.sg_odds.specs.Answers.{IsRaceFull};
ghost use Rattle.sg_odds.specs.Odds.{IsInstanceFull, half_of, led};
ghost use Rattle.sg_odds.specs.inside.Gaps.{HasLed};
ghost use Rattle.sg_odds.specs.inside.Values.{HasValues};
ghost use Rattle.sg_parts.specs.Given.{completion_of};
ghost use Rattle.sg_plan.specs.Ballots.{candidates_of};
ghost use Rattle.sg_plan.specs.Limits.{most_rows};
ghost use Rattle.sg_record.specs.Places.{places_in};

use crate::full::{given_in, rows_in};
use sg_parts::{At, Half, Parts, entry_code};
use sg_plan::{Items, NoMemory, Side};
use std::alloc::Global;

/// The pointer of a half, or 0 where there is none.
fn pointer_of(parts: &Parts, half: Half) -> u32
    ensures { result ≡ (half_of (completion_of parts.now.rows) half.side half.at.race half.at.instance half.at.row).value }
{
    match given_in(parts, half) {
        Some(opening) => opening.value,
        None => 0,
    }
}

/// Counts a row for its candidate, where its entry is marked.
fn note_row(counts: &mut Items<u32>, is_marked: bool, candidate: u32)
    requires within { candidate < length counts.old }
    requires few { (at count : ℕ) → slice_get counts.old at ≡ Some count → count ≤ most_rows }
    ensures long { length counts.new ≡ length counts.old }
    ensures puts { (at count : ℕ) → slice_get counts.old at ≡ Some count → slice_get counts.new at ≡ Some (count + (if is_marked && candidate == at then 1 else 0)) }
{
    if is_marked {
        let at = candidate as usize;
        let count = *counts.get(at);
        counts.replace(at, count + 1);
    }
}

/// How many candidates the race has.
fn candidates_in(parts: &Parts, race: u32) -> u32
    ensures { result ≡ candidates_of parts.now.posted.plan race }
{
    sg_plan::laws::bounds_law();
    parts.index().plan().candidates(race) as u32
}

/// How many marked entries the rows of an instance lead to each candidate.
fn instance_led(
    alloc: Global,
    parts: &Parts,
    marked: &Items<Items<Option<u16>>>,
    race: u32,
    instance: u32,
) -> Result<Items<u32>, NoMemory>
    requires table { HasTable parts.now.posted.plan marked.now (λ race entry. code_marked parts.now.posted.plan race entry (places_in parts.now.posted)) }
    requires race { race < length parts.now.posted.plan.races }
    requires full { IsInstanceFull parts.now.posted.plan (completion_of parts.now.rows) race instance }
    ensures { IfOk result (λ counts. HasValues (candidates_of parts.now.posted.plan race) (led parts.now.posted.plan (places_in parts.now.posted) (completion_of parts.now.rows) race instance) counts) }
{
    let _ = parts.posted();
    let candidates = candidates_in(parts, race);
    let mut counts = Items::filled(alloc, 0, candidates as usize)?;
    for row in 0..rows_in(parts, race) {
        let at = At {
            race,
            instance,
            row,
        };
        let left = pointer_of(parts, at.on(Side::Left));
        let right = pointer_of(parts, at.on(Side::Right));
        let is_marked = entry_code(marked, race, left).is_some();
        note_row(&mut counts, is_marked, right % candidates);
    }
    Ok(counts)
}

/// The same of each instance of a full race.
pub(crate) fn race_led(
    alloc: Global,
    parts: &Parts,
    marked: &Items<Items<Option<u16>>>,
    race: u32,
) -> Result<Items<Items<u32>>, NoMemory>
    requires table { HasTable parts.now.posted.plan marked.now (λ race entry. code_marked parts.now.posted.plan race entry (places_in parts.now.posted)) }
    requires race { race < length parts.now.posted.plan.races }
    requires full { IsRaceFull parts.now.posted.plan (completion_of parts.now.rows) race }
    ensures { IfOk result (λ table. HasLed parts.now.posted.plan (places_in parts.now.posted) (completion_of parts.now.rows) race parts.now.posted.plan.instances table) }
{
    let mut table = Items::new(alloc);
    for instance in 0..parts.index().plan().instances {
        let counts = instance_led(alloc, parts, marked, race, instance)?;
        table.push(counts)?;
    }
    Ok(table)
}
