//! Codes of both versions.
ghost use Rattle.std.specs.Prelude.{◌≡◌, ◌⊎◌, ℕ, ◌<◌, IfSome};
ghost use Rattle.sg_plan.specs.Codes.{codes_of};
ghost use Rattle.sg_lines.specs.Words.{code_of, code_word, digit_of, sign_of};

/// The 32 signs of version 2, in the order of their values.
static SIGNS: [u8; 32] = *b"23456789ABCDEFGHJKLMNPQRSTUVWXYZ";

/// The value of a decimal digit.
fn digit_value(digit: u8) -> Option<u16>
    ensures found { IfSome result (λ value. (value < 10) × (digit ≡ digit_of value)) }
    ensures only { (value : ℕ) → value < 10 → digit ≡ digit_of value → result ≡ Some value }
{
    match digit {
        b'0'..=b'9' => Some(u16::from(digit - b'0')),
        _ => None,
    }
}

/// The value of one of the 32 signs of version 2: the digits and letters without `0`, `1`, `I` and `O`.
#[tactic(auto, using(crate::proofs::Signs::signs_by_range))]
fn sign_value(sign: u8) -> Option<u16>
    ensures found { IfSome result (λ value. (value < 32) × (sign ≡ sign_of value)) }
    ensures only { (value : ℕ) → value < 32 → sign ≡ sign_of value → result ≡ Some value }
{
    match sign {
        b'2'..=b'9' => Some(u16::from(sign - b'2')),
        b'A'..=b'H' => Some(u16::from(sign - b'A') + 8),
        b'J'..=b'N' => Some(u16::from(sign - b'J') + 16),
        b'P'..=b'Z' => Some(u16::from(sign - b'P') + 21),
        _ => None,
    }
}

/// Reads three decimal digits.
fn read_digits(word: &[u8]) -> Option<u16>
    ensures found { IfSome result (λ code. (code < 1000) × (word.now ≡ code_word 1 code)) }
    ensures only { (code : ℕ) → code < 1000 → word.now ≡ code_word 1 code → result ≡ Some code }
{
    let [first, second, third] = word else {
        return None;
    };
    let high = digit_value(*first)?;
    let middle = digit_value(*second)?;
    let low = digit_value(*third)?;
    Some(high * 100 + middle * 10 + low)
}

/// Reads three of the 32 signs.
fn read_signs(word: &[u8]) -> Option<u16>
    ensures found { IfSome result (λ code. (code < 32768) × (word.now ≡ code_word 2 code)) }
    ensures only { (code : ℕ) → code < 32768 → word.now ≡ code_word 2 code → result ≡ Some code }
{
    let [first, second, third] = word else {
        return None;
    };
    let high = sign_value(*first)?;
    let middle = sign_value(*second)?;
    let low = sign_value(*third)?;
    Some(high * 1024 + middle * 32 + low)
}

/// Reads a code of a version: exactly three decimal digits in version 1, exactly three of the 32 signs in
/// version 2. No other version has codes.
pub fn read_code(version: u32, word: &[u8]) -> Option<u16>
    ensures exact { result ≡ code_of version word.now }
    ensures found { IfSome result (λ code. (code < codes_of version) × (word.now ≡ code_word version code)) }
    ensures only { (code : ℕ) → code < codes_of version → word.now ≡ code_word version code → result ≡ Some code }
{
    match version {
        1 => read_digits(word),
        2 => read_signs(word),
        _ => None,
    }
}

/// The sign of a value in version 2.
#[tactic(auto, unfolding(crate::specs::Words::sign_of))]
fn sign(value: u16) -> u8
    requires { value < 32 }
    ensures { result ≡ sign_of value }
{
    SIGNS[usize::from(value)]
}

/// Writes the three signs of a code of version 1 or 2.
pub fn write_code(version: u32, code: u16, out: &mut [u8; 3])
    requires version { (version ≡ 1) ⊎ (version ≡ 2) }
    requires code { code < codes_of version }
    ensures { out.new ≡ code_word version code }
{
    *out = if version == 1 {
        [
            b'0' + (code / 10 / 10) as u8,
            b'0' + (code / 10 % 10) as u8,
            b'0' + (code % 10) as u8,
        ]
    } else {
        [sign(code / 32 / 32), sign(code / 32 % 32), sign(code % 32)]
    };
}
