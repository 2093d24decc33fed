//! Items of nested lists, where there are such, and what they say of a half.
ghost use Rattle.std.specs.Option.{option_and_then, option_map_or};
ghost use Rattle.std.specs.Prelude.{◌≡◌, None, bytes_eq};
ghost use Rattle.sg_check.specs.Facts.{opened_on};
ghost use Rattle.sg_facts.specs.Items.{item_in, row_in};
ghost use Rattle.sg_parts.specs.Given.{completion_of, half_given, printing_of};

use crate::checks::At;
use crate::parts::RowGiven;
use sg_commit::Opening;
use sg_forms::RowOpening;
use sg_plan::{Items, Side};
use sg_record::Record;

/// The bytes are the same.
pub(crate) fn is_same(bytes: &[u8], other: &[u8]) -> bool
    ensures { result ≡ bytes_eq bytes.now other.now }
{
    bytes == other
}

/// A half of a row.
#[derive(Clone, Copy, Debug, PartialEq, Eq)]
pub struct Half {
    /// The side.
    pub side: Side,
    /// The row.
    pub at: At,
}

/// The item with these two numbers.
pub fn item_at<T: Copy>(lists: &Items<Items<T>>, outer: u32, inner: u32) -> Option<T>
    ensures { result ≡ item_in lists.now outer inner }
{
    if outer as usize >= lists.len() {
        return None;
    }
    let items = lists.get(outer as usize);
    if inner as usize >= items.len() {
        return None;
    }
    Some(*items.get(inner as usize))
}

/// The item with these three numbers.
fn nested_at<T: Copy>(
    lists: &Items<Items<Items<T>>>,
    outer: u32,
    middle: u32,
    inner: u32,
) -> Option<T>
    ensures { result ≡ row_in lists.now outer middle inner }
{
    if outer as usize >= lists.len() {
        return None;
    }
    item_at(lists.get(outer as usize), middle, inner)
}

/// The item of a row.
pub fn row_at<T: Copy>(lists: &Items<Items<Items<T>>>, at: At) -> Option<T>
    ensures { result ≡ row_in lists.now at.race at.instance at.row }
{
    nested_at(lists, at.race, at.instance, at.row)
}

/// The code that is printed beside a candidate, or 0.
pub fn printed_code(lists: &Items<Items<Items<u16>>>, race: u32, row: u32, candidate: u32) -> u16
    ensures { result ≡ printing_of lists.now race row candidate }
{
    match nested_at(lists, race, row, candidate) {
        Some(code) => code,
        None => 0,
    }
}

/// The code that a table has of an entry, or none.
pub fn entry_code(codes: &Items<Items<Option<u16>>>, race: u32, entry: u32) -> Option<u16>
    ensures { result ≡ option_map_or (λ code. code) (item_in codes.now race entry) None }
{
    match item_at(codes, race, entry) {
        Some(code) => code,
        None => None,
    }
}

/// What is given of a half.
fn half_given(on: Side, row: &RowGiven) -> Option<Opening>
    ensures { result ≡ half_given on row.now }
{
    match on {
        Side::Left => row.left,
        Side::Right => row.right,
    }
}

/// The opening that a completion has of a half, or none.
pub fn given_half(rows: &Items<Items<Items<RowGiven>>>, half: Half) -> Option<Opening>
    ensures { result ≡ completion_of rows.now half.side half.at.race half.at.instance half.at.row }
{
    match row_at(rows, half.at) {
        Some(given) => half_given(half.side, &given),
        None => None,
    }
}

/// What the record opens on a side.
fn opened_on(on: Side, opening: &RowOpening) -> Option<Opening>
    ensures { result ≡ opened_on on opening.now }
{
    match on {
        Side::Left => match *opening {
            RowOpening::Left(left) => Some(left),
            RowOpening::Right(_) => None,
            RowOpening::Both(left, _) => Some(left),
        },
        Side::Right => match *opening {
            RowOpening::Left(_) => None,
            RowOpening::Right(right) => Some(right),
            RowOpening::Both(_, right) => Some(right),
        },
    }
}

/// What the record posts of a half, if it does.
pub fn posted_half(posted: &Record, half: Half) -> Option<Opening>
    ensures { result ≡ option_and_then (opened_on half.side) (row_in posted.now.rows half.at.race half.at.instance half.at.row) }
{
    match row_at(&posted.rows, half.at) {
        Some(opening) => opened_on(half.side, &opening),
        None => None,
    }
}
