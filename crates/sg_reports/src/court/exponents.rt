//! The exponents of the odds: they are found, and written, each line as one put.
ghost use Rattle.std.specs.Prelude.{◌≡◌, ◌≤◌, IfOk, length};
ghost use Rattle.sg_outside.specs.Faults.{HasCause};
ghost use Rattle.sg_outside.specs.Streams.{PutAppends};
ghost use Rattle.sg_parts.specs.Given.{AreParts};
ghost use Rattle.sg_reports.specs.court.inside.Finding.{HasOdds, values_text};

use crate::court::texts::write_line;
use sg_odds::{OddsFound, odds};
use sg_outside::{Failed, Sink};
use sg_plan::{Items, NoMemory};
use sg_recount::Parts;
use std::alloc::Global;

/// The first row of the first race that has one lacking.
#[derive(Clone, Copy, Debug, PartialEq, Eq)]
pub struct Lacking {
    /// The race's number.
    pub race: u32,
    /// The instance's number.
    pub instance: u32,
    /// The row's number.
    pub row: u32,
}

/// What is found of all races.
#[derive(Debug, Drop)]
pub enum Exponents {
    /// The exponent of each race.
    All(Items<u32>),
    /// The first row that is lacking.
    NotFull(Lacking),
}

/// How many races there are.
fn count_races(parts: &Parts) -> u32
    ensures count { result ≡ length parts.now.posted.plan.races }
    ensures parts { AreParts parts.now }
{
    parts.posted().plan.races.len() as u32
}

/// Finds the exponent of each race, up to the first that has a row lacking.
pub(crate) fn find_exponents(alloc: Global, parts: &Parts) -> Result<Exponents, NoMemory>
    ensures { IfOk result (λ found. HasOdds parts.now found) }
{
    let mut values = Items::new(alloc);
    for race in 0..count_races(parts) {
        match odds(alloc, parts, race)? {
            OddsFound::Exponent(value) => values.push(value)?,
            OddsFound::NotFull { instance, row } => {
                return Ok(Exponents::NotFull(Lacking {
                    race,
                    instance,
                    row,
                }));
            }
        }
    }
    Ok(Exponents::All(values))
}

/// Writes the exponent of each race.
pub(crate) fn write_exponents<O: Sink>(out: &mut O, values: &Items<u32>) -> Result<(), Failed>
    ensures bytes { PutAppends (O.written out.old) (O.written out.new) result (values_text 0 values.now) }
    ensures cause { HasCause (O.faults out.old) (O.faults out.new) result }
{
    for race in 0..values.len() {
        let numbers = [race, *values.get(race) as usize];
        match write_line(out, b"exponent", numbers.as_slice()) {
            Ok(()) => {}
            Err(Failed) => return Err(Failed),
        }
    }
    Ok(())
}
