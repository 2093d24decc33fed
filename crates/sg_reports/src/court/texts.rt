//! Lines of numbers, and those of altered rows. Each line is one put.
ghost use Rattle.std.specs.Prelude.{◌≡◌, ◌+◌, ◌*◌, ◌≤◌, ◌∷◌, ◌++◌, length, take, decimal};
ghost use Rattle.sg_outside.specs.Faults.{HasCause};
ghost use Rattle.sg_outside.specs.Streams.{PutAppends};
ghost use Rattle.sg_reports.specs.court.Texts.{altered_text, instance_text, instances_text, numbers_line, numbers_text, rows_text};

use itoa::Buffer;
use sg_outside::{Failed, Sink};
use sg_plan::Items;
use sg_report::add_bytes;

/// Room for a line, in bytes: the longest has a word of 18 bytes, or four numbers of at most 20 digits.
const ROOM: usize = 128;

/// Puts a space and a number behind the first `at`, and answers how many bytes stand then.
fn add_number(line: &mut [u8], at: usize, number: usize) -> usize
    requires { at + 21 ≤ length line.old }
    ensures bound { result ≤ at + 21 }
    ensures text { take result line.new ≡ take at line.old ++ (32 ∷ decimal number) }
{
    let mut digits = Buffer::new();
    let behind = add_bytes(line, at, b" ");
    add_bytes(line, behind, digits.format(number).as_bytes())
}

/// Puts each number behind a space, behind the first `at`, and answers how many bytes stand then.
fn add_numbers(line: &mut [u8], at: usize, numbers: &[usize]) -> usize
    requires { at + 21 * length numbers.now ≤ length line.old }
    ensures bound { result ≤ at + 21 * length numbers.now }
    ensures text { take result line.new ≡ take at line.old ++ numbers_text numbers.now }
{
    let mut end = at;
    for number in numbers {
        end = add_number(line, end, *number);
    }
    end
}

/// Writes a line: a word, and numbers behind it. It is one put.
pub(crate) fn write_line<O: Sink>(out: &mut O, word: &[u8], numbers: &[usize]) -> Result<(), Failed>
    requires word { length word.now ≤ 20 }
    requires numbers { length numbers.now ≤ 4 }
    ensures bytes { PutAppends (O.written out.old) (O.written out.new) result (numbers_line word.now numbers.now) }
    ensures cause { HasCause (O.faults out.old) (O.faults out.new) result }
{
    let mut line = [0; ROOM];
    let at = add_bytes(&mut line, 0, word);
    let behind = add_numbers(&mut line, at, numbers);
    let end = add_bytes(&mut line, behind, b"\n");
    out.put(&line[..end])?;
    Ok(())
}

/// Writes a line for each altered row of an instance.
fn write_rows<O: Sink>(
    out: &mut O,
    race: usize,
    instance: usize,
    rows: &Items<u32>,
) -> Result<(), Failed>
    ensures bytes { PutAppends (O.written out.old) (O.written out.new) result (rows_text race instance rows.now) }
    ensures cause { HasCause (O.faults out.old) (O.faults out.new) result }
{
    for at in 0..rows.len() {
        let numbers = [race, instance, *rows.get(at) as usize];
        match write_line(out, b"row", numbers.as_slice()) {
            Ok(()) => {}
            Err(Failed) => return Err(Failed),
        }
    }
    Ok(())
}

/// Writes how many rows of an instance are altered, and which.
fn write_instance<O: Sink>(
    out: &mut O,
    race: usize,
    instance: usize,
    rows: &Items<u32>,
) -> Result<(), Failed>
    ensures bytes { PutAppends (O.written out.old) (O.written out.new) result (instance_text race instance rows.now) }
    ensures cause { HasCause (O.faults out.old) (O.faults out.new) result }
{
    let numbers = [race, instance, rows.len()];
    match write_line(out, b"altered", numbers.as_slice()) {
        Ok(()) => write_rows(out, race, instance, rows),
        Err(Failed) => Err(Failed),
    }
}

/// Writes the altered rows of a race, by instance.
fn write_instances<O: Sink>(
    out: &mut O,
    race: usize,
    lists: &Items<Items<u32>>,
) -> Result<(), Failed>
    ensures bytes { PutAppends (O.written out.old) (O.written out.new) result (instances_text race 0 lists.now) }
    ensures cause { HasCause (O.faults out.old) (O.faults out.new) result }
{
    for instance in 0..lists.len() {
        match write_instance(out, race, instance, lists.get(instance)) {
            Ok(()) => {}
            Err(Failed) => return Err(Failed),
        }
    }
    Ok(())
}

/// Writes the altered rows of all races.
pub(crate) fn write_altered<O: Sink>(
    out: &mut O,
    all: &Items<Items<Items<u32>>>,
) -> Result<(), Failed>
    ensures bytes { PutAppends (O.written out.old) (O.written out.new) result (altered_text 0 all.now) }
    ensures cause { HasCause (O.faults out.old) (O.faults out.new) result }
{
    for race in 0..all.len() {
        match write_instances(out, race, all.get(race)) {
            Ok(()) => {}
            Err(Failed) => return Err(Failed),
        }
    }
    Ok(())
}
