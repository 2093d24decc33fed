//! Rows of hexadecimal digits as long as a key or a digest, read many digits at a time.
//!
//! Each loop goes over neighbours in memory and has no branch, and so the compiler takes sixteen digits in one step. A
//! loop that takes two digits for each byte at once is three times as long.
ghost use Rattle.std.specs.Prelude.{◌≡◌, ◌*◌, List, ℕ, length, map, IsTrue};
ghost use Rattle.sg_lines.specs.Words.{IsBytes, encode_lower};
ghost use Rattle.sg_lines.specs.inside.Rows.{AreValues, joined, paired};

use crate::bytes::digit_value;

/// Reads bytes from lower-case hexadecimal digits, two for each byte of `out`, the high four bits of a byte first. The
/// values of the digits and their pairs have room in `values` and `pairs`.
///
/// Answers whether the word is the digits of any bytes, and `out` is then those bytes. Where it is not, what is written
/// is of no use.
pub(crate) fn read_row(word: &[u8], values: &mut [u8], pairs: &mut [u16], out: &mut [u8]) -> bool
    requires values { length values.old ≡ length word.now }
    requires pairs { length pairs.old ≡ length out.old }
    requires out { length word.now ≡ 2 * length out.old }
    ensures bytes { IsBytes out.new }
    ensures found { IsTrue result → word.now ≡ encode_lower out.new }
    ensures only { (bytes : List ℕ) → IsBytes bytes → word.now ≡ encode_lower bytes → IsTrue result × (out.new ≡ bytes) }
{
    let is_hex = read_values(word, values);
    pair_up(values, pairs);
    join(pairs, out);
    is_hex
}

/// Reads the value of each digit, and answers whether all are digits.
fn read_values(word: &[u8], values: &mut [u8]) -> bool
    requires { length values.old ≡ length word.now }
    ensures found { IsTrue result → AreValues word.now values.new }
    ensures only { (list : List ℕ) → AreValues word.now list → IsTrue result × (values.new ≡ list) }
{
    let mut is_hex = true;
    for at in 0..values.len() {
        let value = digit_value(word[at]);
        is_hex &= value < 16;
        values[at] = value;
    }
    is_hex
}

/// Puts each two values into one number, the first of them low.
fn pair_up(values: &[u8], pairs: &mut [u16])
    requires { length values.now ≡ 2 * length pairs.old }
    ensures { pairs.new ≡ paired values.now }
{
    for at in 0..pairs.len() {
        pairs[at] = u16::from(values[2 * at]) + 256 * u16::from(values[2 * at + 1]);
    }
}

/// Joins the two values of each pair to a byte, the first of them high.
fn join(pairs: &[u16], out: &mut [u8])
    requires { length out.old ≡ length pairs.now }
    ensures { out.new ≡ map joined pairs.now }
{
    for at in 0..out.len() {
        out[at] = ((pairs[at] % 256 * 16 + pairs[at] / 256) % 256) as u8;
    }
}
