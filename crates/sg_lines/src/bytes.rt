//! Keys, digests and other bytes, spelled in hexadecimal digits.
ghost use Rattle.std.specs.Prelude.{◌≡◌, ℕ, ◌*◌, ◌<◌, ◌≤◌, List, ◌++◌, length, drop, slice_index, IsTrue, IfSome};
ghost use Rattle.hex.specs.Hex.{lower_digits};
ghost use Rattle.sg_lines.specs.Words.{IsBytes, encode_lower, key_of, digest_of};

use crate::rows::read_row;

/// What stands for the value of a byte that is no digit.
const NO_DIGIT: u8 = 255;

/// The value of a lower-case hexadecimal digit, and 255 for any other byte.
#[inline(always)]
pub(crate) fn digit_value(digit: u8) -> u8
    ensures found { result < 16 → digit ≡ slice_index lower_digits result }
    ensures only { (value : ℕ) → value < 16 → digit ≡ slice_index lower_digits value → result ≡ value }
{
    let number = digit.wrapping_sub(b'0');
    let letter = digit.wrapping_sub(b'a');
    if number < 10 {
        number
    } else if letter < 6 {
        letter + 10
    } else {
        NO_DIGIT
    }
}

/// Reads bytes from lower-case hexadecimal digits, two for each byte of `out`, the high four bits of a byte first.
///
/// Answers whether the word is the digits of any bytes, and `out` is then those bytes. Where it is not, what is written
/// is of no use. No byte ends the loop early: a test of each one would cost more than the loop.
pub fn read_hex(word: &[u8], out: &mut [u8]) -> bool
    requires { length word.now ≡ 2 * length out.old }
    ensures bytes { IsBytes out.new }
    ensures found { IsTrue result → word.now ≡ encode_lower out.new }
    ensures only { (bytes : List ℕ) → IsBytes bytes → word.now ≡ encode_lower bytes → IsTrue result × (out.new ≡ bytes) }
{
    let mut is_hex = true;
    for at in 0..out.len() {
        let high = digit_value(word[2 * at]);
        let low = digit_value(word[2 * at + 1]);
        is_hex &= (high < 16) & (low < 16);
        out[at] = high.wrapping_mul(16).wrapping_add(low);
    }
    is_hex
}

/// Reads a key of 16 bytes: 32 lower-case hexadecimal digits, the high four bits of a byte first. Any other word
/// is `None`.
pub fn read_key(word: &[u8]) -> Option<[u8; 16]>
    ensures exact { result ≡ key_of word.now }
    ensures found { IfSome result (λ key. word.now ≡ encode_lower key) }
    ensures only { (key : List ℕ) → length key ≡ 16 → IsBytes key → word.now ≡ encode_lower key → result ≡ Some key }
{
    if word.len() != 32 {
        return None;
    }
    let mut values = [0; 32];
    let mut pairs = [0; 16];
    let mut key = [0; 16];
    if read_row(word, &mut values, &mut pairs, &mut key) {
        Some(key)
    } else {
        None
    }
}

/// Reads a digest of 32 bytes: 64 lower-case hexadecimal digits, the high four bits of a byte first. Any other
/// word is `None`.
pub fn read_digest(word: &[u8]) -> Option<[u8; 32]>
    ensures exact { result ≡ digest_of word.now }
    ensures found { IfSome result (λ digest. word.now ≡ encode_lower digest) }
    ensures only { (digest : List ℕ) → length digest ≡ 32 → IsBytes digest → word.now ≡ encode_lower digest → result ≡ Some digest }
{
    if word.len() != 64 {
        return None;
    }
    let mut values = [0; 64];
    let mut pairs = [0; 32];
    let mut digest = [0; 32];
    if read_row(word, &mut values, &mut pairs, &mut digest) {
        Some(digest)
    } else {
        None
    }
}

/// Writes two lower-case hexadecimal digits for each byte into the front of `out`, which has room for them. The
/// rest of `out` stays as it is.
pub fn write_hex(bytes: &[u8], out: &mut [u8])
    requires room { 2 * length bytes.now ≤ length out.old }
    ensures { out.new ≡ encode_lower bytes.now ++ drop (2 * length bytes.now) out.old }
{
    let end = 2 * bytes.len();
    let written = hex::encode_to_slice(bytes, &mut out[..end]);
    prove!(written.is_ok());
}
