//! What is found of a race.
ghost use Rattle.std.specs.Prelude.{◌≡◌, ◌<◌, IfOk, length};
ghost use Rattle.sg_odds.specs.Answers.{IsBound, IsFound, IsRaceFull};
ghost use Rattle.sg_odds.specs.Odds.{exponent};
ghost use Rattle.sg_parts.specs.Given.{completion_of};
ghost use Rattle.sg_record.specs.Places.{places_in};

use crate::full::first_of_race;
use crate::gaps::race_exponent;
use sg_facts::marked_codes;
use sg_plan::NoMemory;
use sg_recount::Parts;
use std::alloc::Global;

/// What is found of a race.
#[derive(Clone, Copy, Debug, PartialEq, Eq)]
pub enum OddsFound {
    /// Of all lists of coins, one for each row of the record, at most one in two to this power gets yes behind the record's
    /// first two sections, where the completion is full in every race.
    Exponent(u32),
    /// The first row of the race that isn't full: a pointer is missing, or isn't below the count of rows, or is an earlier
    /// row's on its side.
    NotFull {
        /// The instance's number.
        instance: u32,
        /// The row's number.
        row: u32,
    },
}

/// The exponent of a full race.
fn full_exponent(alloc: Global, parts: &Parts, race: u32) -> Result<u32, NoMemory>
    requires race { race < length parts.now.posted.plan.races }
    requires full { IsRaceFull parts.now.posted.plan (completion_of parts.now.rows) race }
    ensures { IfOk result (λ power. power ≡ exponent parts.now.posted.plan (places_in parts.now.posted) (completion_of parts.now.rows) race) }
{
    let marked = marked_codes(alloc, parts.posted(), parts.index())?;
    let power = race_exponent(alloc, parts, &marked, race)?;
    Ok(power)
}

/// What is found of a race.
fn find(alloc: Global, parts: &Parts, race: u32) -> Result<OddsFound, NoMemory>
    requires { race < length parts.now.posted.plan.races }
    ensures { IfOk result (λ found. IsFound parts.now race found) }
{
    match first_of_race(alloc, parts, race)? {
        Some(at) => Ok(OddsFound::NotFull {
            instance: at.instance,
            row: at.row,
        }),
        None => {
            let power = full_exponent(alloc, parts, race)?;
            Ok(OddsFound::Exponent(power))
        }
    }
}

/// The exponent of a race's odds, or the first row whose pointers aren't full. Only want of memory is refused.
pub fn odds(alloc: Global, parts: &Parts, race: u32) -> Result<OddsFound, NoMemory>
    requires race { race < length parts.now.posted.plan.races }
    ensures found { IfOk result (λ found. IsFound parts.now race found) }
    ensures bound { IfOk result (λ found. IsBound parts.now found) }
{
    let _ = parts.posted();
    let found = find(alloc, parts, race)?;
    Ok(found)
}
