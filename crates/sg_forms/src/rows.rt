//! The lines of rows and entries: their commitments, and what is opened of a row.
ghost use Rattle.std.specs.Prelude.{◌≡◌, IfSome};
ghost use Rattle.std.specs.Option.{option_map};
ghost use Rattle.sg_forms.specs.Reading.{read_code_commit, read_row_commit, read_left, read_right, read_both};
ghost use Rattle.sg_forms.specs.Said.{said, said_commits};
ghost use Rattle.sg_forms.specs.Said.Said.{CodeCommit, Row};
ghost use Rattle.sg_forms.specs.Zeros.{HasZeros};

use crate::line::{Line, RowCommitLine, RowOpening};
use crate::words::Words;
use sg_commit::{Digest, Opening};

/// `code-commit R HEX`: the race and the commitment.
#[inline(always)]
pub(crate) fn commit(mut words: Words) -> Option<(u32, Digest)>
    ensures { option_map (λ line. CodeCommit line.0 line.1) result ≡ read_code_commit words.entry }
{
    let race = words.number()?;
    let digest = words.digest()?;
    if words.are_left() {
        return None;
    }
    Some((race, digest))
}

/// The same, as a line.
#[inline(always)]
pub(crate) fn code_commit<'a>(words: Words<'a>) -> Option<Line<'a>>
    ensures exact { option_map said result ≡ read_code_commit words.entry }
    ensures zeros { IfSome result HasZeros }
{
    match commit(words) {
        Some((race, digest)) => Some(Line::CodeCommit { race, digest }),
        None => None,
    }
}

/// `row-commit R I HEX HEX`
#[inline(always)]
pub(crate) fn commits(mut words: Words) -> Option<RowCommitLine>
    ensures { option_map said_commits result ≡ read_row_commit words.entry }
{
    let race = words.number()?;
    let instance = words.number()?;
    let left = words.digest()?;
    let right = words.digest()?;
    if words.are_left() {
        return None;
    }
    Some(RowCommitLine {
        race,
        instance,
        left,
        right,
    })
}

/// The same, as a line.
#[inline(always)]
pub(crate) fn row_commit<'a>(words: Words<'a>) -> Option<Line<'a>>
    ensures exact { option_map said result ≡ read_row_commit words.entry }
    ensures zeros { IfSome result HasZeros }
{
    match commits(words) {
        Some(row) => Some(Line::RowCommit {
            race: row.race,
            instance: row.instance,
            left: row.left,
            right: row.right,
        }),
        None => None,
    }
}

/// `left KEY Q`
#[inline(always)]
pub(crate) fn left(mut words: Words) -> Option<RowOpening>
    ensures { option_map Row result ≡ read_left words.entry }
{
    let key = words.key()?;
    let value = words.number()?;
    if words.are_left() {
        return None;
    }
    Some(RowOpening::Left(Opening { key, value }))
}

/// `right KEY S`
#[inline(always)]
pub(crate) fn right(mut words: Words) -> Option<RowOpening>
    ensures { option_map Row result ≡ read_right words.entry }
{
    let key = words.key()?;
    let value = words.number()?;
    if words.are_left() {
        return None;
    }
    Some(RowOpening::Right(Opening { key, value }))
}

/// `both KEY Q KEY S`
#[inline(always)]
pub(crate) fn both(mut words: Words) -> Option<RowOpening>
    ensures { option_map Row result ≡ read_both words.entry }
{
    let key = words.key()?;
    let value = words.number()?;
    let left = Opening { key, value };
    let key = words.key()?;
    let value = words.number()?;
    let right = Opening { key, value };
    if words.are_left() {
        return None;
    }
    Some(RowOpening::Both(left, right))
}

/// The line of what is opened of a row.
pub(crate) fn row_line<'a>(opening: Option<RowOpening>) -> Option<Line<'a>>
    ensures exact { option_map said result ≡ option_map Row opening }
    ensures zeros { IfSome result HasZeros }
{
    match opening {
        Some(opening) => Some(Line::Row(opening)),
        None => None,
    }
}
