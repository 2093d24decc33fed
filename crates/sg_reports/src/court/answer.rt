//! What a court is answered, and its text.
ghost use Rattle.std.specs.Prelude.{◌≡◌};
ghost use Rattle.sg_outside.specs.Faults.{HasCause};
ghost use Rattle.sg_outside.specs.Streams.{PutAppends};
ghost use Rattle.sg_driver.specs.Judging.{IsOfAnswer};
ghost use Rattle.sg_reports.specs.court.inside.Answering.{answer_outcome, answer_text};
ghost use Rattle.sg_reports.specs.court.inside.Finding.{found_outcome, found_text, odds_text};

use crate::court::exponents::{Exponents, write_exponents};
use crate::court::faults::{fault_outcome, write_fault, write_row};
use crate::court::findings::write_findings;
use crate::court::found::Found;
use sg_outside::{Failed, Outcome, Sink};
use sg_recount::RecountFault;

/// What a court is answered.
#[derive(Debug, Drop)]
pub(crate) enum CourtAnswer {
    /// What is found of all parts.
    Found(Found),
    /// Why the input isn't all parts.
    Fault(RecountFault),
}

/// How what is found ends the command.
fn found_outcome(found: &Found) -> Outcome
    ensures { result ≡ found_outcome found.now }
{
    match found {
        Found::Exponents(Exponents::NotFull(_)) => Outcome::Refused,
        _ => Outcome::Done,
    }
}

/// How an answer ends the command.
pub(crate) fn answer_outcome(answer: &CourtAnswer) -> Outcome
    ensures is { result ≡ answer_outcome answer.now }
    ensures done { IsOfAnswer result }
{
    match answer {
        CourtAnswer::Found(found) => found_outcome(found),
        CourtAnswer::Fault(fault) => fault_outcome(*fault),
    }
}

/// Writes the exponents, or the first row that is lacking.
fn write_odds<O: Sink>(out: &mut O, found: &Exponents) -> Result<(), Failed>
    ensures bytes { PutAppends (O.written out.old) (O.written out.new) result (odds_text found.now) }
    ensures cause { HasCause (O.faults out.old) (O.faults out.new) result }
{
    match found {
        Exponents::All(values) => write_exponents(out, values),
        Exponents::NotFull(row) => {
            write_row(out, b"refused full", row.race, row.instance, row.row)
        }
    }
}

/// Writes what is found.
fn write_found<O: Sink>(out: &mut O, found: &Found) -> Result<(), Failed>
    ensures bytes { PutAppends (O.written out.old) (O.written out.new) result (found_text found.now) }
    ensures cause { HasCause (O.faults out.old) (O.faults out.new) result }
{
    match found {
        Found::Findings(findings) => write_findings(out, findings),
        Found::Exponents(exponents) => write_odds(out, exponents),
    }
}

/// Writes an answer.
pub(crate) fn write_answer<O: Sink>(out: &mut O, answer: &CourtAnswer) -> Result<(), Failed>
    ensures bytes { PutAppends (O.written out.old) (O.written out.new) result (answer_text answer.now) }
    ensures cause { HasCause (O.faults out.old) (O.faults out.new) result }
{
    match answer {
        CourtAnswer::Found(found) => write_found(out, found),
        CourtAnswer::Fault(fault) => write_fault(out, *fault),
    }
}
