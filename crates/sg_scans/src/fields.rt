//! One record of a scanner file, read as a scan.
ghost use Rattle.std.specs.Prelude.{◌≡◌, IfOk};
ghost use Rattle.csv.specs.Records.{fields_of};
ghost use Rattle.sg_scans.specs.Asked.{CanCome};
ghost use Rattle.sg_scans.specs.ScanLines.{scan_in, scan_line};
ghost use Rattle.sg_scans.specs.inside.ByField.{ask_at, is_counted, number_at, scan_at, scan_text, secret_at, stamp_at};

use csv::ByteRecord;
use sg_acts::{Act, Ask, Stamp};
use sg_desks::act_of;
use sg_lines::{read_decimal, read_key};
use sg_plan::{NoMemory, Word};
use std::alloc::Global;

/// A record behind the first one.
#[derive(Drop)]
pub enum ScanLine {
    /// A scan.
    Good(Ask),
    /// None: the record has another shape.
    Shape,
}

/// The most marks of a scan that can be counted by 32 bits.
const MOST_MARKS: usize = 4_294_967_295;

/// A version of the record. No code stands in a scan, so it is read alike in each.
const ANY_VERSION: u32 = 1;

/// The number in this field.
fn number_at(row: &ByteRecord, at: usize) -> Option<u32>
    ensures { result ≡ number_at (fields_of row.now) at }
{
    let word = row.get(at)?;
    read_decimal(word)
}

/// The secret in this field.
fn secret_at(row: &ByteRecord, at: usize) -> Option<[u8; 16]>
    ensures { result ≡ secret_at (fields_of row.now) at }
{
    let word = row.get(at)?;
    read_key(word)
}

/// Who asks.
fn stamp_of(row: &ByteRecord) -> Option<Stamp>
    ensures { result ≡ stamp_at (fields_of row.now) }
{
    let station = number_at(row, 0)?;
    let secret = secret_at(row, 1)?;
    let number = number_at(row, 2)?;
    Some(Stamp {
        station,
        secret,
        number,
    })
}

/// The text of a scan.
fn scan_text(alloc: Global, ballot: &[u8], marks: &[u8]) -> Result<Word, NoMemory>
    ensures { IfOk result (λ text. text ≡ scan_text ballot.now marks.now) }
{
    let mut text = Word::new(alloc);
    text.extend(b"scan ")?;
    text.extend(ballot)?;
    if !marks.is_empty() {
        text.push(b' ')?;
        text.extend(marks)?;
    }
    Ok(text)
}

/// The scan of this ballot and these marks: what is read from the text that they have as an act.
fn scan_of(alloc: Global, ballot: &[u8], marks: &[u8]) -> Result<Option<Act>, NoMemory>
    ensures { IfOk result (λ found. found ≡ scan_in ballot.now marks.now) }
{
    if read_decimal(ballot).is_none() {
        return Ok(None);
    }
    let text = scan_text(alloc, ballot, marks)?;
    act_of(alloc, ANY_VERSION, text.bytes())
}

/// The scan of a record.
fn scan_at(alloc: Global, row: &ByteRecord) -> Result<Option<Act>, NoMemory>
    ensures { IfOk result (λ found. found ≡ scan_at (fields_of row.now)) }
{
    let Some(ballot) = row.get(3) else {
        return Ok(None);
    };
    let Some(marks) = row.get(4) else {
        return Ok(None);
    };
    scan_of(alloc, ballot, marks)
}

/// What a record asks for.
fn ask_of(alloc: Global, row: &ByteRecord) -> Result<Option<Ask>, NoMemory>
    ensures { IfOk result (λ found. found ≡ ask_at (fields_of row.now)) }
{
    if row.get(5).is_some() {
        return Ok(None);
    }
    let Some(stamp) = stamp_of(row) else {
        return Ok(None);
    };
    match scan_at(alloc, row)? {
        Some(scan) => Ok(Some(Ask::Do(stamp, scan))),
        None => Ok(None),
    }
}

/// The marks of a scan can be counted by 32 bits. Those of every scan in a file of less than 4 GiB can.
fn is_counted(ask: &Ask) -> bool
    ensures { result ≡ is_counted ask.now }
{
    match ask {
        Ask::Do(_, Act::Scan(_, marks)) => marks.len() <= MOST_MARKS,
        _ => true,
    }
}

/// What a record is.
pub(crate) fn line_of(alloc: Global, row: &ByteRecord) -> Result<ScanLine, NoMemory>
    ensures line { IfOk result (λ line. line ≡ scan_line (fields_of row.now)) }
    ensures comes { IfOk result CanCome }
{
    let Some(ask) = ask_of(alloc, row)? else {
        return Ok(ScanLine::Shape);
    };
    if is_counted(&ask) {
        Ok(ScanLine::Good(ask))
    } else {
        Err(NoMemory)
    }
}
