//! What the types say of a line: its numbers, keys and digests are in range.
ghost use Rattle.std.specs.Prelude.{◌≡◌, ◌<◌, All, take};
ghost use Rattle.sg_forms.specs.Said.{said};
ghost use Rattle.sg_forms.specs.Spelling.{AreBytes, FitsForm, IsInRange, IsNumber, IsOpening, IsRow};

use crate::line::{CodeLine, Line, RowOpening};
use crate::lists::front;
use sg_commit::{Digest, Key, Opening};

/// The numbers are bytes.
pub fn know_bytes(bytes: &[u8])
    ensures { All (λ byte. byte < 256) bytes.now }
{}

/// The numbers of the digest are 32 bytes.
pub fn know_digest(digest: &Digest)
    ensures { AreBytes 32 digest.now.0 }
{
    know_bytes(&digest.0);
}

/// The numbers of the key are 16 bytes.
pub fn know_key(key: &Key)
    ensures { AreBytes 16 key.now.0 }
{
    know_bytes(&key.0);
}

/// The number is one of 32 bits.
fn know_number(number: u32)
    ensures { IsNumber number }
{}

/// The numbers are of 32 bits.
pub fn know_numbers(numbers: &[u32])
    ensures { All IsNumber numbers.now }
{}

/// The first so many numbers are of 32 bits.
fn know_front(numbers: &[u32], count: u32)
    ensures { All IsNumber (take count numbers.now) }
{
    know_numbers(front(numbers, count));
}

/// The opening has a key and a number.
fn know_opening(opening: &Opening)
    ensures { IsOpening opening.now }
{
    know_key(&opening.key);
    know_number(opening.value);
}

/// What is opened of a row has keys and numbers.
pub fn know_row(row: &RowOpening)
    ensures { IsRow row.now }
{
    match row {
        RowOpening::Left(opening) => know_opening(opening),
        RowOpening::Right(opening) => know_opening(opening),
        RowOpening::Both(left, right) => {
            know_opening(left);
            know_opening(right);
        }
    }
}

/// The numbers are of 32 bits.
fn know_two(first: u32, second: u32)
    ensures first { IsNumber first }
    ensures second { IsNumber second }
{
    know_number(first);
    know_number(second);
}

/// The numbers are of 32 bits.
fn know_three(first: u32, second: u32, third: u32)
    ensures first { IsNumber first }
    ensures second { IsNumber second }
    ensures third { IsNumber third }
{
    know_two(first, second);
    know_number(third);
}

/// The number is one of 32 bits, and the digest has 32 bytes.
fn know_commitment(number: u32, digest: &Digest)
    ensures number { IsNumber number }
    ensures digest { AreBytes 32 digest.now.0 }
{
    know_number(number);
    know_digest(digest);
}

/// The digests have 32 bytes.
fn know_digests(left: &Digest, right: &Digest)
    ensures left { AreBytes 32 left.now.0 }
    ensures right { AreBytes 32 right.now.0 }
{
    know_digest(left);
    know_digest(right);
}

/// The race and the column are numbers of 32 bits, and the key has 16 bytes.
fn know_code(code: &CodeLine)
    ensures race { IsNumber code.now.race }
    ensures column { IsNumber code.now.column }
    ensures key { AreBytes 16 code.now.key.0 }
{
    know_two(code.race, code.column);
    know_key(&code.key);
}

/// A line is in range where the words fit that its types don't hold to their kind.
pub fn know_line(version: u32, line: &Line)
    requires { FitsForm version (said line.now) }
    ensures { IsInRange version (said line.now) }
{
    match line {
        Line::Version(_) | Line::Election(_) | Line::Cand(_) => {}
        Line::DrawFull | Line::DrawPublic { .. } => {}
        Line::Instances(number) | Line::Over(number) => know_number(*number),
        Line::Cast(ballot) | Line::Spoiled(ballot) => know_number(*ballot),
        Line::Audited(ballot) | Line::Voided(ballot) => know_number(*ballot),
        Line::Race {
            candidates,
            votes,
            ..
        } => know_two(*candidates, *votes),
        Line::Style { races, count, .. } => know_front(races, *count),
        Line::Ballots { style, count } => know_two(*style, *count),
        Line::CodeCommit { race, digest } => know_commitment(*race, digest),
        Line::RowCommit {
            race,
            instance,
            left,
            right,
        } => {
            know_two(*race, *instance);
            know_digests(left, right);
        }
        Line::Seal { number, digest } => know_commitment(*number, digest),
        Line::Code(code) => know_code(code),
        Line::Paper { race, .. } | Line::Places { race, .. } => know_number(*race),
        Line::Flags { race, instance, .. } => know_two(*race, *instance),
        Line::Total {
            race,
            candidate,
            count,
        } => know_three(*race, *candidate, *count),
        Line::Row(opening) => know_row(opening),
        Line::Dispute { ballot, race, .. } => know_two(*ballot, *race),
    }
}
