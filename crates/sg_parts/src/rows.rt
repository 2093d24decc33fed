//! The row of a completion that a line has.
ghost use Rattle.std.specs.Prelude.{◌≡◌, IfNone, IfOk, IfSome, Some};
ghost use Rattle.sg_parts.specs.Faults.{IsRowLine};
ghost use Rattle.sg_parts.specs.Given.{IsRowGiven, opening_text, row_text};
ghost use Rattle.sg_parts.specs.inside.Filling.{TakesRow};
ghost use Rattle.sg_forms.specs.Spelling.{IsRow};
ghost use Rattle.sg_forms.specs.declared.line.RowOpening.{RowOpening as OpeningSeen};

use crate::looks::is_same;
use crate::parts::RowGiven;
use sg_forms::{Line, RowOpening, read_form};
use sg_plan::{Items, NoMemory};

/// What is given where a row is opened so.
fn given_of(opening: &RowOpening) -> RowGiven
    ensures text { row_text result ≡ opening_text opening.now }
    ensures given { IsRow opening.now → IsRowGiven result }
{
    match *opening {
        RowOpening::Left(left) => RowGiven {
            left: Some(left),
            right: None,
        },
        RowOpening::Right(right) => RowGiven {
            left: None,
            right: Some(right),
        },
        RowOpening::Both(left, right) => RowGiven {
            left: Some(left),
            right: Some(right),
        },
    }
}

/// What the line opens of a row, if it is such a line. The version makes no difference.
fn read_opening(version: u32, line: &[u8]) -> Option<RowOpening>
    ensures found { IfSome result (λ opening. IsRow opening × (line.now ≡ opening_text opening)) }
    ensures only { (opening : OpeningSeen) → IsRow opening → line.now ≡ opening_text opening → result ≡ Some opening }
{
    match read_form(version, line) {
        Some(Line::Row(opening)) => Some(opening),
        _ => None,
    }
}

/// The row of this line, if it is one. The version makes no difference.
fn read_row(version: u32, line: &[u8]) -> Option<RowGiven>
    ensures found { IfSome result (λ row. IsRowGiven row × (line.now ≡ row_text row)) }
    ensures only { IfNone result (IsRowLine line.now → ⊥) }
{
    if is_same(line, b"none\n") {
        return Some(RowGiven {
            left: None,
            right: None,
        });
    }
    match read_opening(version, line) {
        Some(opening) => Some(given_of(&opening)),
        None => None,
    }
}

/// Reads the line of a row, where fewer than so many were read, and answers whether it is one.
pub(crate) fn take_row(
    version: u32,
    count: u32,
    rows: &mut Items<RowGiven>,
    line: &[u8],
) -> Result<bool, NoMemory>
    ensures { IfOk result (λ taken. TakesRow count line.now rows.old rows.new taken) }
{
    if rows.len() >= count as usize {
        return Ok(false);
    }
    match read_row(version, line) {
        None => Ok(false),
        Some(row) => {
            rows.push(row)?;
            Ok(true)
        }
    }
}
