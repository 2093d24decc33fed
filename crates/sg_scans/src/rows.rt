//! The records of a scanner file.
ghost use Rattle.std.specs.Prelude.{◌≡◌, ◌≤◌, IfOk, length, map, true, false};
ghost use Rattle.csv.specs.Records.{fields_of};
ghost use Rattle.sg_scans.specs.FileRecords.{StartsWith, records_of};

use csv::{ByteRecord, ReaderBuilder};
use sg_plan::NoMemory;
use std::alloc::Global;

/// The first records of a file, and whether these are all.
#[derive(Drop)]
pub(crate) struct Table {
    pub rows: Vec<ByteRecord>,
    pub whole: bool,
}

/// The records of a file, up to a limit.
pub(crate) fn rows_of(alloc: Global, bytes: &[u8], limit: usize) -> Result<Table, NoMemory>
    ensures few { IfOk result (λ table. length table.rows.items ≤ limit) }
    ensures whole { IfOk result (λ table. table.whole ≡ true → map fields_of table.rows.items ≡ records_of bytes.now) }
    ensures cut { IfOk result (λ table. table.whole ≡ false → (length table.rows.items ≡ limit) × StartsWith (map fields_of table.rows.items) (records_of bytes.now)) }
{
    let reader = ReaderBuilder::new()
        .has_headers(false)
        .flexible(true)
        .from_reader(alloc, bytes);
    let mut rows = Vec::new(alloc);
    for row in reader.into_byte_records() {
        let Ok(row) = row else {
            return Err(NoMemory);
        };
        if rows.len() >= limit {
            return Ok(Table { rows, whole: false });
        }
        if rows.push(row).is_err() {
            return Err(NoMemory);
        }
    }
    Ok(Table { rows, whole: true })
}
