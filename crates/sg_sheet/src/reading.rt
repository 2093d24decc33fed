//! A line of a sheet, read again.
ghost use Rattle.std.specs.Prelude.{◌≡◌, ℕ, ◌<◌, ◌++◌, List, [], ◌∷◌, All, IfOk, IfSome, IsTrue, ◌↔◌, MatchOption, Some, bytes_eq, codes, decimal, drop, length};
ghost use Rattle.sg_plan.specs.Codes.{codes_of};
ghost use Rattle.sg_sheet.specs.Sheet.{ballot_text, code_words, codes_text};
ghost use Rattle.sg_sheet.specs.inside.Words.{code_behind, codes_in};

use sg_lines::{read_code, write_decimal};
use sg_plan::{Items, NoMemory};
use std::alloc::Global;

/// The bytes are the same.
fn is_same(bytes: &[u8], other: &[u8]) -> bool
    ensures { result ≡ bytes_eq bytes.now other.now }
{
    bytes == other
}

/// What stands behind the bytes `front`, where the bytes begin with them.
fn after<'a>(bytes: &'a [u8], front: &[u8]) -> Option<&'a [u8]>
    ensures { MatchOption result ((rest : List ℕ) → bytes.now ≡ front.now ++ rest → ⊥) (λ rest. bytes.now ≡ front.now ++ rest.now) }
{
    if bytes.len() < front.len() {
        return None;
    }
    let (head, rest) = bytes.split_at(front.len());
    if is_same(head, front) {
        Some(rest)
    } else {
        None
    }
}

/// What stands behind a number's digits.
#[tactic(auto, using(sg_lines::proofs::Numbers::decimal_facts))]
fn after_decimal(bytes: &[u8], value: u32) -> Option<&[u8]>
    ensures { MatchOption result ((rest : List ℕ) → bytes.now ≡ decimal value ++ rest → ⊥) (λ rest. bytes.now ≡ decimal value ++ rest.now) }
{
    let mut digits = [0; 10];
    let len = write_decimal(value, &mut digits);
    after(bytes, &digits[..len])
}

/// The bytes are the line `ballot B STYLE`.
pub fn is_ballot_line(bytes: &[u8], ballot: u32, style: u32) -> bool
    ensures { IsTrue result ↔ (bytes.now ≡ ballot_text ballot style) }
{
    let Some(rest) = after(bytes, b"ballot ") else {
        return false;
    };
    let Some(rest) = after_decimal(rest, ballot) else {
        return false;
    };
    let Some(rest) = after(rest, b" ") else {
        return false;
    };
    let Some(rest) = after_decimal(rest, style) else {
        return false;
    };
    is_same(rest, b"\n")
}

/// What stands behind so many bytes.
fn behind(bytes: &[u8], count: usize) -> &[u8]
    ensures { result.now ≡ drop count bytes.now }
{
    if count >= bytes.len() {
        return &[];
    }
    &bytes[count..]
}

/// The code whose word stands behind a space.
fn code_behind(version: u32, bytes: &[u8]) -> Option<u16>
    ensures { result ≡ code_behind version bytes.now }
{
    if bytes.len() < 4 {
        return None;
    }
    if bytes[0] != b' ' {
        return None;
    }
    read_code(version, &bytes[1..4])
}

/// So many codes, each behind a space, and then a line feed.
fn read_words(
    alloc: Global,
    version: u32,
    count: usize,
    bytes: &[u8],
) -> Result<Option<Items<u16>>, NoMemory>
    ensures { IfOk result (λ read. read ≡ codes_in version count bytes.now) }
{
    let mut list = Items::with_room(alloc, count)?;
    let mut rest = bytes;
    for _at in 0..count {
        let Some(code) = code_behind(version, rest) else {
            return Ok(None);
        };
        list.push(code)?;
        rest = behind(rest, 4);
    }
    if is_same(rest, b"\n") {
        Ok(Some(list))
    } else {
        Ok(None)
    }
}

/// The codes on the line `codes R CODE ..` of this race, of which there are so many: `Some` exactly where the bytes are
/// such a line in the version.
pub fn read_codes(
    alloc: Global,
    version: u32,
    race: u32,
    count: usize,
    bytes: &[u8],
) -> Result<Option<Items<u16>>, NoMemory>
    ensures found { IfOk result (λ read. IfSome read (λ list. (length list ≡ count) × All (λ code. code < codes_of version) list × (bytes.now ≡ codes_text version race list))) }
    ensures only { IfOk result (λ read. (list : List ℕ) → length list ≡ count → All (λ code. code < codes_of version) list → bytes.now ≡ codes_text version race list → read ≡ Some list) }
{
    let Some(rest) = after(bytes, b"codes ") else {
        return Ok(None);
    };
    let Some(words) = after_decimal(rest, race) else {
        return Ok(None);
    };
    read_words(alloc, version, count, words)
}
