//! What is printed for a fault, as one put, and how it ends the command.
ghost use Rattle.std.specs.Prelude.{◌≡◌, ◌≤◌, [], ◌∷◌, length};
ghost use Rattle.sg_outside.specs.Faults.{HasCause};
ghost use Rattle.sg_outside.specs.Streams.{PutAppends};
ghost use Rattle.sg_reports.specs.court.Recounts.{fault_outcome, fault_text};
ghost use Rattle.sg_reports.specs.court.Texts.{numbers_line};

use crate::court::texts::write_line;
use sg_outside::{Failed, Outcome, Sink};
use sg_recount::RecountFault;
use sg_report::write_no;

/// Writes a word, and the number of a line behind it.
fn write_number<O: Sink>(out: &mut O, word: &[u8], line: u32) -> Result<(), Failed>
    requires { length word.now ≤ 20 }
    ensures bytes { PutAppends (O.written out.old) (O.written out.new) result (numbers_line word.now (line ∷ [])) }
    ensures cause { HasCause (O.faults out.old) (O.faults out.new) result }
{
    let numbers = [line as usize];
    write_line(out, word, numbers.as_slice())
}

/// Writes a word, and the numbers of a row behind it.
pub(crate) fn write_row<O: Sink>(
    out: &mut O,
    word: &[u8],
    race: u32,
    instance: u32,
    row: u32,
) -> Result<(), Failed>
    requires { length word.now ≤ 20 }
    ensures bytes { PutAppends (O.written out.old) (O.written out.new) result (numbers_line word.now (race ∷ instance ∷ row ∷ [])) }
    ensures cause { HasCause (O.faults out.old) (O.faults out.new) result }
{
    let numbers = [race as usize, instance as usize, row as usize];
    write_line(out, word, numbers.as_slice())
}

/// Writes the line for a fault. There is none for want of memory.
pub(crate) fn write_fault<O: Sink>(out: &mut O, fault: RecountFault) -> Result<(), Failed>
    ensures bytes { PutAppends (O.written out.old) (O.written out.new) result (fault_text fault) }
    ensures cause { HasCause (O.faults out.old) (O.faults out.new) result }
{
    match fault {
        RecountFault::Record { line, kind } => write_no(out, line, kind),
        RecountFault::Printing(line) => write_number(out, b"refused printing", line),
        RecountFault::Stand {
            race,
            instance,
            row,
        } => write_row(out, b"refused stand", race, instance, row),
        RecountFault::Completion(line) => write_number(out, b"refused completion", line),
        RecountFault::Opening {
            race,
            instance,
            row,
        } => write_row(out, b"refused opening", race, instance, row),
        RecountFault::Posted {
            race,
            instance,
            row,
        } => write_row(out, b"refused posted", race, instance, row),
        RecountFault::NoMemory => Ok(()),
    }
}

/// How a fault ends the command.
pub(crate) fn fault_outcome(fault: RecountFault) -> Outcome
    ensures { result ≡ fault_outcome fault }
{
    match fault {
        RecountFault::Record { .. } => Outcome::No,
        _ => Outcome::Refused,
    }
}
