//! A number behind a command's name, read from its word.
ghost use Rattle.std.specs.Prelude.{◌≡◌, ◌≤◌, IfSome};
ghost use Rattle.sg_words.specs.Numbers.{number_in};
ghost use Rattle.sg_words.specs.inside.Table.{range_of};

use crate::table::Number;
use sg_lines::read_decimal;

/// The number that a word is, where it is one in this range: decimal digits without a sign or a leading zero.
pub(crate) fn number_of(number: &Number, word: &[u8]) -> Option<u32>
    ensures is { result ≡ number_in (range_of number.now) word.now }
    ensures least { IfSome result (λ n. number.now.least ≤ n) }
    ensures most { IfSome result (λ n. n ≤ number.now.most) }
{
    let value = read_decimal(word)?;
    if number.least <= value && value <= number.most {
        Some(value)
    } else {
        None
    }
}
