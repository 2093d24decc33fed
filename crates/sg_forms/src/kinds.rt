//! Words that a line keeps as they are, each tested for its kind, and the words of a dispute's answer.
ghost use Rattle.std.specs.Prelude.{◌≡◌, ◌↔◌, IsTrue};
ghost use Rattle.std.specs.List.{list_all};
ghost use Rattle.std.specs.Option.{option_copied};
ghost use Rattle.sg_forms.specs.Reading.{name_of, bits_of, digits_of, claim_of, is_hex_sign};

use crate::words::is_word;
use sg_lines::{is_bits, is_name};
use sg_plan::ClaimWord;
use sg_plan::limits::{MOST_BITS, MOST_PUBLIC_BYTES};

/// The most hexadecimal digits of public bytes.
const MOST_DIGITS: usize = 2 * MOST_PUBLIC_BYTES;

/// The word, where it is a name.
#[tactic(auto, using(crate::proofs::Kept::name_kept, crate::proofs::Kept::no_name))]
pub(crate) fn read_name(word: &[u8]) -> Option<&[u8]>
    ensures { option_copied result ≡ name_of word.now }
{
    if is_name(word) { Some(word) } else { None }
}

/// The word, where it is 1 to 64 characters, each `0` or `1`.
#[tactic(auto, using(crate::proofs::Kept::bits_kept, crate::proofs::Kept::no_bits, crate::proofs::Kept::no_few_bits))]
pub(crate) fn read_bits(word: &[u8]) -> Option<&[u8]>
    ensures { option_copied result ≡ bits_of word.now }
{
    if word.is_empty() {
        return None;
    }
    if word.len() > MOST_BITS {
        return None;
    }
    if is_bits(word, word.len() as u32) {
        Some(word)
    } else {
        None
    }
}

/// The byte is a lower-case hexadecimal digit.
fn is_hex_sign(byte: u8) -> bool
    ensures { result ≡ is_hex_sign byte }
{
    matches!(byte, b'0'..=b'9' | b'a'..=b'f')
}

/// Each byte is a lower-case hexadecimal digit.
fn are_hex_signs(word: &[u8]) -> bool
    ensures { result ≡ list_all is_hex_sign word.now }
{
    word.iter().all(|byte| is_hex_sign(*byte))
}

/// The word, where it is 2 to 8,192 lower-case hexadecimal digits, an even number.
pub(crate) fn read_digits(word: &[u8]) -> Option<&[u8]>
    ensures { option_copied result ≡ digits_of word.now }
{
    if word.is_empty() {
        return None;
    }
    if word.len() > MOST_DIGITS {
        return None;
    }
    if word.len() % 2 != 0 {
        return None;
    }
    if are_hex_signs(word) {
        Some(word)
    } else {
        None
    }
}

/// A dispute's answer.
pub(crate) fn read_claim(word: &[u8]) -> Option<ClaimWord>
    ensures { result ≡ claim_of word.now }
{
    if is_word(word, b"posted") {
        return Some(ClaimWord::Posted);
    }
    if is_word(word, b"unposted") {
        return Some(ClaimWord::Unposted);
    }
    if is_word(word, b"absent") {
        return Some(ClaimWord::Absent);
    }
    None
}
