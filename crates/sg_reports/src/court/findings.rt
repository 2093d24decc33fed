//! What a recount found, as text. Each line is one put.
ghost use Rattle.std.specs.Prelude.{◌≡◌, ◌≤◌};
ghost use Rattle.sg_outside.specs.Faults.{HasCause};
ghost use Rattle.sg_outside.specs.Streams.{PutAppends};
ghost use Rattle.sg_reports.specs.court.Recounts.{findings_text, race_sums_text, sums_text};

use crate::court::texts::{write_altered, write_line};
use sg_outside::{Failed, Sink};
use sg_plan::Items;
use sg_recount::{Findings, Sum};

/// Writes a line for each candidate of a race.
fn write_race_sums<O: Sink>(out: &mut O, race: usize, sums: &Items<Sum>) -> Result<(), Failed>
    ensures bytes { PutAppends (O.written out.old) (O.written out.new) result (race_sums_text race 0 sums.now) }
    ensures cause { HasCause (O.faults out.old) (O.faults out.new) result }
{
    for candidate in 0..sums.len() {
        let sum = sums.get(candidate);
        let numbers = [race, candidate, sum.total as usize, sum.count as usize];
        match write_line(out, b"candidate", numbers.as_slice()) {
            Ok(()) => {}
            Err(Failed) => return Err(Failed),
        }
    }
    Ok(())
}

/// Writes the sums of all races.
fn write_sums<O: Sink>(out: &mut O, lists: &Items<Items<Sum>>) -> Result<(), Failed>
    ensures bytes { PutAppends (O.written out.old) (O.written out.new) result (sums_text 0 lists.now) }
    ensures cause { HasCause (O.faults out.old) (O.faults out.new) result }
{
    for race in 0..lists.len() {
        match write_race_sums(out, race, lists.get(race)) {
            Ok(()) => {}
            Err(Failed) => return Err(Failed),
        }
    }
    Ok(())
}

/// Writes the altered rows, and then the sums.
pub(crate) fn write_findings<O: Sink>(out: &mut O, findings: &Findings) -> Result<(), Failed>
    ensures bytes { PutAppends (O.written out.old) (O.written out.new) result (findings_text findings.now) }
    ensures cause { HasCause (O.faults out.old) (O.faults out.new) result }
{
    match write_altered(out, &findings.altered) {
        Ok(()) => write_sums(out, &findings.sums),
        Err(Failed) => Err(Failed),
    }
}
