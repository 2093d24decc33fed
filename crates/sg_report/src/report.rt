//! The report of a verdict, one put for each line.
ghost use Rattle.std.specs.Prelude.{◌≡◌, ◌+◌, ◌≤◌, ◌∷◌, ◌++◌, [], length, take, codes, decimal};
ghost use Rattle.sg_outside.specs.Faults.{HasCause};
ghost use Rattle.sg_outside.specs.Streams.{PutAppends};
ghost use Rattle.sg_report.specs.Report.{no_text, report_of, total_text, totals_text};

use sg_check::{Judged, Kind, Total};
use sg_lines::write_decimal;
use sg_outside::{Failed, Sink};
use sg_plan::Items;

/// Room for a line of a report, in bytes: the longest has 39.
const ROOM: usize = 64;

/// Writes the report: `yes` and a line for each total, or `no LINE KIND`. Each line is one put.
pub fn write_report<O: Sink>(out: &mut O, judged: &Judged) -> Result<(), Failed>
    ensures bytes { PutAppends (O.written out.old) (O.written out.new) result (report_of judged.now) }
    ensures cause { HasCause (O.faults out.old) (O.faults out.new) result }
{
    match judged {
        Judged::Yes(totals) => write_yes(out, totals),
        Judged::No { line, kind } => write_no(out, *line, *kind),
    }
}

/// Writes `yes` and a line for each total. Each line is one put.
pub fn write_yes<O: Sink>(out: &mut O, totals: &Items<Total>) -> Result<(), Failed>
    ensures bytes { PutAppends (O.written out.old) (O.written out.new) result (codes "yes\n" ++ totals_text totals.now) }
    ensures cause { HasCause (O.faults out.old) (O.faults out.new) result }
{
    match out.put(b"yes\n") {
        Ok(()) => write_totals(out, totals),
        Err(Failed) => Err(Failed),
    }
}

/// Writes a line for each total.
fn write_totals<O: Sink>(out: &mut O, totals: &Items<Total>) -> Result<(), Failed>
    ensures bytes { PutAppends (O.written out.old) (O.written out.new) result (totals_text totals.now) }
    ensures cause { HasCause (O.faults out.old) (O.faults out.new) result }
{
    for at in 0..totals.len() {
        match write_total(out, totals.get(at)) {
            Ok(()) => {}
            Err(Failed) => return Err(Failed),
        }
    }
    Ok(())
}

/// Writes `total RACE CANDIDATE COUNT`.
fn write_total<O: Sink>(out: &mut O, total: &Total) -> Result<(), Failed>
    ensures bytes { PutAppends (O.written out.old) (O.written out.new) result (total_text total.now) }
    ensures cause { HasCause (O.faults out.old) (O.faults out.new) result }
{
    let mut line = [0; ROOM];
    let len = total_line(&mut line, total);
    out.put(&line[..len])?;
    Ok(())
}

/// Writes `no LINE KIND`, in one put.
pub fn write_no<O: Sink>(out: &mut O, number: u32, kind: Kind) -> Result<(), Failed>
    ensures bytes { PutAppends (O.written out.old) (O.written out.new) result (no_text number kind) }
    ensures cause { HasCause (O.faults out.old) (O.faults out.new) result }
{
    let mut line = [0; ROOM];
    let len = no_line(&mut line, number, kind);
    out.put(&line[..len])?;
    Ok(())
}

/// Puts `total RACE CANDIDATE COUNT` into the front of `line`, and answers its length.
fn total_line(line: &mut [u8], total: &Total) -> usize
    requires { length line.old ≡ 64 }
    ensures bound { result ≤ 64 }
    ensures text { take result line.new ≡ total_text total.now }
{
    let at = add_bytes(line, 0, b"total ");
    let at = add_decimal(line, at, total.race);
    let at = add_bytes(line, at, b" ");
    let at = add_decimal(line, at, total.candidate);
    let at = add_bytes(line, at, b" ");
    let at = add_decimal(line, at, total.count);
    add_bytes(line, at, b"\n")
}

/// Puts `no LINE KIND` into the front of `line`, and answers its length.
fn no_line(line: &mut [u8], number: u32, kind: Kind) -> usize
    requires { length line.old ≡ 64 }
    ensures bound { result ≤ 64 }
    ensures text { take result line.new ≡ no_text number kind }
{
    let at = add_bytes(line, 0, b"no ");
    let at = add_decimal(line, at, number);
    let at = add_bytes(line, at, b" ");
    let at = add_bytes(line, at, kind.word());
    add_bytes(line, at, b"\n")
}

/// Puts the bytes behind the first `at`, and answers how many stand then.
pub fn add_bytes(line: &mut [u8], at: usize, bytes: &[u8]) -> usize
    requires { at + length bytes.now ≤ length line.old }
    ensures count { result ≡ at + length bytes.now }
    ensures text { take result line.new ≡ take at line.old ++ bytes.now }
{
    let end = at + bytes.len();
    line[at..end].copy_from_slice(bytes);
    end
}

/// Puts a number in decimal digits behind the first `at`, and answers how many stand then.
pub fn add_decimal(line: &mut [u8], at: usize, value: u32) -> usize
    requires { at + 10 ≤ length line.old }
    ensures bound { result ≤ at + 10 }
    ensures text { take result line.new ≡ take at line.old ++ decimal value }
{
    let count = write_decimal(value, &mut line[at..]);
    at + count
}
