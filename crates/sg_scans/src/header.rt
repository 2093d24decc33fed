//! The first record of a scanner file.
ghost use Rattle.std.specs.Prelude.{◌≡◌};
ghost use Rattle.csv.specs.Records.{fields_of};
ghost use Rattle.sg_scans.specs.ScanLines.{field_is, is_header};

use csv::ByteRecord;

/// Whether the field at this place is this word.
fn field_is(row: &ByteRecord, at: usize, word: &[u8]) -> bool
    ensures { result ≡ field_is (fields_of row.now) at word.now }
{
    match row.get(at) {
        Some(field) => field == word,
        None => false,
    }
}

/// Whether the record is `station,secret,ref,ballot,marks`.
pub(crate) fn is_header(row: &ByteRecord) -> bool
    ensures { result ≡ is_header (fields_of row.now) }
{
    field_is(row, 0, b"station")
        && field_is(row, 1, b"secret")
        && field_is(row, 2, b"ref")
        && field_is(row, 3, b"ballot")
        && field_is(row, 4, b"marks")
        && row.get(5).is_none()
}
