//! A scanner file, read as scans.
ghost use Rattle.std.specs.Prelude.{◌≡◌, ◌≤◌, IfErr, IfOk, length, map, true};
ghost use Rattle.csv.specs.Records.{fields_of};
ghost use Rattle.sg_scans.specs.Asked.{EachCanCome};
ghost use Rattle.sg_scans.specs.FileRecords.{records_of};
ghost use Rattle.sg_scans.specs.ScanLines.{IsFault, has_header, most_scans, scan_line, scans_of};

use crate::fields::{ScanLine, line_of};
use crate::header::is_header;
use crate::rows::rows_of;
use csv::ByteRecord;
use sg_plan::{Items, NoMemory};
use std::alloc::Global;

/// The most scans of a file.
const MOST_SCANS: usize = 100_000;

/// Why a file is not read.
#[derive(Clone, Copy, Debug, PartialEq, Eq)]
pub enum ScansFault {
    /// There is no first record, or it is not `station,secret,ref,ballot,marks`.
    Header,
    /// More than 100,000 records stand behind the first one, which is that.
    Count,
    /// Memory was wanted and not found.
    NoMemory,
}

/// What each record is.
fn lines_of(alloc: Global, rows: &[ByteRecord]) -> Result<Items<ScanLine>, NoMemory>
    ensures lines { IfOk result (λ lines. lines ≡ map scan_line (map fields_of rows.now)) }
    ensures come { IfOk result EachCanCome }
{
    let mut lines = Items::new(alloc);
    for at in 0..rows.len() {
        lines.push(line_of(alloc, &rows[at])?)?;
    }
    Ok(lines)
}

/// Reads a scanner file: for each record behind the first one the scan that it asks for, or that it has another shape.
pub fn read_scans(alloc: Global, bytes: &[u8]) -> Result<Items<ScanLine>, ScansFault>
    ensures header { IfOk result (λ lines. has_header (records_of bytes.now) ≡ true) }
    ensures few { IfOk result (λ lines. length lines ≤ most_scans) }
    ensures lines { IfOk result (λ lines. lines ≡ scans_of bytes.now) }
    ensures come { IfOk result EachCanCome }
    ensures fault { IfErr result (λ fault. IsFault fault (records_of bytes.now)) }
{
    let Ok(table) = rows_of(alloc, bytes, MOST_SCANS + 1) else {
        return Err(ScansFault::NoMemory);
    };
    let Some((first, rest)) = table.rows.split_first() else {
        return Err(ScansFault::Header);
    };
    if !is_header(first) {
        return Err(ScansFault::Header);
    }
    if !table.whole {
        return Err(ScansFault::Count);
    }
    match lines_of(alloc, rest) {
        Ok(lines) => Ok(lines),
        Err(NoMemory) => Err(ScansFault::NoMemory),
    }
}
