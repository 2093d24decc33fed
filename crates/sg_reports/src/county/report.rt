//! The report of the answer on a county, one put for each line.
ghost use Rattle.std.specs.Prelude.{◌≡◌, ◌≤◌, length, take};
ghost use Rattle.sg_outside.specs.Faults.{HasCause};
ghost use Rattle.sg_outside.specs.Streams.{PutAppends};
ghost use Rattle.sg_reports.specs.county.Report.{differs_text, no_text, repeats_text, report_of};

use sg_check::Kind;
use sg_county::CountyVerdict;
use sg_outside::{Failed, Sink};
use sg_report::{add_bytes, add_decimal, write_yes};

/// Room for a line of a report, in bytes: the longest has 33.
const ROOM: usize = 64;

/// Writes the report: `yes` and a line for each sum, or the one line that says what was settled. Each line is one put.
pub(crate) fn write_report<O: Sink>(out: &mut O, answer: &CountyVerdict) -> Result<(), Failed>
    ensures bytes { PutAppends (O.written out.old) (O.written out.new) result (report_of answer.now) }
    ensures cause { HasCause (O.faults out.old) (O.faults out.new) result }
{
    match answer {
        CountyVerdict::Yes(totals) => write_yes(out, totals),
        CountyVerdict::No { part, line, kind } => write_no(out, *part, *line, *kind),
        CountyVerdict::Differs(part) => write_differs(out, *part),
        CountyVerdict::Repeats { part, other } => write_repeats(out, *part, *other),
        CountyVerdict::Parts => out.put(b"refused parts\n"),
    }
}

/// Writes `no PART LINE KIND`.
fn write_no<O: Sink>(out: &mut O, part: u32, number: u32, kind: Kind) -> Result<(), Failed>
    ensures bytes { PutAppends (O.written out.old) (O.written out.new) result (no_text part number kind) }
    ensures cause { HasCause (O.faults out.old) (O.faults out.new) result }
{
    let mut line = [0; ROOM];
    let len = no_line(&mut line, part, number, kind);
    out.put(&line[..len])?;
    Ok(())
}

/// Writes `differs PART`.
fn write_differs<O: Sink>(out: &mut O, part: u32) -> Result<(), Failed>
    ensures bytes { PutAppends (O.written out.old) (O.written out.new) result (differs_text part) }
    ensures cause { HasCause (O.faults out.old) (O.faults out.new) result }
{
    let mut line = [0; ROOM];
    let len = differs_line(&mut line, part);
    out.put(&line[..len])?;
    Ok(())
}

/// Writes `repeats PART OTHER`.
fn write_repeats<O: Sink>(out: &mut O, part: u32, other: u32) -> Result<(), Failed>
    ensures bytes { PutAppends (O.written out.old) (O.written out.new) result (repeats_text part other) }
    ensures cause { HasCause (O.faults out.old) (O.faults out.new) result }
{
    let mut line = [0; ROOM];
    let len = repeats_line(&mut line, part, other);
    out.put(&line[..len])?;
    Ok(())
}

/// Puts `no PART LINE KIND` into the front of `line`, and answers its length.
fn no_line(line: &mut [u8], part: u32, number: u32, kind: Kind) -> usize
    requires { length line.old ≡ 64 }
    ensures bound { result ≤ 64 }
    ensures text { take result line.new ≡ no_text part number kind }
{
    let at = add_bytes(line, 0, b"no ");
    let at = add_decimal(line, at, part);
    let at = add_bytes(line, at, b" ");
    let at = add_decimal(line, at, number);
    let at = add_bytes(line, at, b" ");
    let at = add_bytes(line, at, kind.word());
    add_bytes(line, at, b"\n")
}

/// Puts `differs PART` into the front of `line`, and answers its length.
fn differs_line(line: &mut [u8], part: u32) -> usize
    requires { length line.old ≡ 64 }
    ensures bound { result ≤ 64 }
    ensures text { take result line.new ≡ differs_text part }
{
    let at = add_bytes(line, 0, b"differs ");
    let at = add_decimal(line, at, part);
    add_bytes(line, at, b"\n")
}

/// Puts `repeats PART OTHER` into the front of `line`, and answers its length.
fn repeats_line(line: &mut [u8], part: u32, other: u32) -> usize
    requires { length line.old ≡ 64 }
    ensures bound { result ≤ 64 }
    ensures text { take result line.new ≡ repeats_text part other }
{
    let at = add_bytes(line, 0, b"repeats ");
    let at = add_decimal(line, at, part);
    let at = add_bytes(line, at, b" ");
    let at = add_decimal(line, at, other);
    add_bytes(line, at, b"\n")
}
