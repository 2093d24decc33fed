//! Numbers in decimal digits.
ghost use Rattle.std.specs.Prelude.{◌≡◌, ℕ, ◌^◌, ◌<◌, ◌≤◌, ◌++◌, length, drop, slice_index, ◌↔◌, IsTrue, IfSome, IfNone};
ghost use Rattle.std.specs.Str.Parse.{AllDigits, digits_value};
ghost use Rattle.sg_lines.specs.Words.{decimal, decimal_of};

use itoa::write_digits;

/// The number that the word's bytes have as decimal digits, where they are digits and it is below 2^32.
fn read_digits(word: &[u8]) -> Option<u32>
    ensures some { IfSome result (λ n. (n < 2 ^ 32) × AllDigits 10 word.now × (n ≡ digits_value 10 word.now)) }
    ensures none { IfNone result (AllDigits 10 word.now → 2 ^ 32 ≤ digits_value 10 word.now) }
{
    let mut value: u64 = 0;
    for byte in word {
        let digit = byte.wrapping_sub(b'0');
        if digit > 9 {
            return None;
        }
        value = value * 10 + u64::from(digit);
        if value > u64::from(u32::MAX) {
            return None;
        }
    }
    Some(value as u32)
}

/// The word begins with `0` and goes on.
fn has_leading_zero(word: &[u8]) -> bool
    ensures { IsTrue result ↔ ((1 < length word.now) × (slice_index word.now 0 ≡ 48)) }
{
    word.len() > 1 && word[0] == b'0'
}

/// Reads a number from 0 to 4,294,967,295: decimal digits without a leading zero, and `0` for zero. Any other
/// word is `None`.
#[inline(always)]
pub fn read_decimal(word: &[u8]) -> Option<u32>
    ensures exact { result ≡ decimal_of word.now }
    ensures found { IfSome result (λ n. word.now ≡ decimal n) }
    ensures only { (n : ℕ) → n < 2 ^ 32 → word.now ≡ decimal n → result ≡ Some n }
{
    if word.is_empty() {
        return None;
    }
    if has_leading_zero(word) {
        return None;
    }
    read_digits(word)
}

/// How many digits the number has.
pub fn decimal_len(value: u32) -> usize
    ensures { result ≡ length (decimal value) }
{
    match value.checked_ilog10() {
        Some(log) => log as usize + 1,
        None => 1,
    }
}

/// Writes the number's digits into the front of `out`, which has room for them, and answers how many they
/// are. The rest of `out` stays as it is.
pub fn write_decimal(value: u32, out: &mut [u8]) -> usize
    requires room { length (decimal value) ≤ length out.old }
    ensures len { result ≡ length (decimal value) }
    ensures written { out.new ≡ decimal value ++ drop (length (decimal value)) out.old }
{
    let end = decimal_len(value);
    write_digits(u64::from(value), out, end);
    end
}
