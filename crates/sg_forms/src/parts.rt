//! The parts of a line, each written as one word with a space behind it.
ghost use Rattle.std.specs.Prelude.{◌≡◌, ◌⊎◌, ◌+◌, ◌<◌, ◌≤◌, ◌++◌, ◌∷◌, [], length, drop, map, All};
ghost use Rattle.sg_forms.specs.Spelling.{IsCode};
ghost use Rattle.sg_forms.specs.inside.Writing.{spaced, overwritten, HasRoom, IsWritten, part_word, IsPart, AreParts};
ghost use Rattle.sg_lines.specs.Words.{decimal, code_word, encode_lower};

use sg_lines::{write_code, write_decimal, write_hex};

/// A part of a line: one word.
#[derive(Clone, Copy)]
pub(crate) enum Part<'a> {
    /// A word that is written as it is: a form's first word, a name, bits or digits.
    Text(&'a [u8]),
    /// A number, in decimal digits.
    Number(u32),
    /// Bytes, in lower-case hexadecimal digits.
    Hex(&'a [u8]),
    /// A code, in the spelling of the version.
    Code(u16),
}

/// Writes a word into the front of `out`, and answers its length.
fn write_text(word: &[u8], out: &mut [u8]) -> usize
    requires room { length word.now ≤ length out.old }
    ensures len { result ≡ length word.now }
    ensures written { out.new ≡ word.now ++ drop (length word.now) out.old }
{
    out[..word.len()].copy_from_slice(word);
    word.len()
}

/// Writes the three bytes of a code into the front of `out`, and answers how many they are.
fn write_signs(version: u32, code: u16, out: &mut [u8]) -> usize
    requires version { (version ≡ 1) ⊎ (version ≡ 2) }
    requires code { IsCode version code }
    requires room { length (code_word version code) ≤ length out.old }
    ensures len { result ≡ length (code_word version code) }
    ensures written { out.new ≡ code_word version code ++ drop (length (code_word version code)) out.old }
{
    let mut signs = [0; 3];
    write_code(version, code, &mut signs);
    write_text(&signs, out)
}

/// Writes bytes in hexadecimal digits into the front of `out`, and answers how many digits they are.
#[tactic(auto, using(sg_lines::proofs::Hex::hex_facts))]
fn write_digits(bytes: &[u8], out: &mut [u8]) -> usize
    requires room { length (encode_lower bytes.now) ≤ length out.old }
    ensures len { result ≡ length (encode_lower bytes.now) }
    ensures written { out.new ≡ encode_lower bytes.now ++ drop (length (encode_lower bytes.now)) out.old }
{
    write_hex(bytes, out);
    2 * bytes.len()
}

/// Writes the word of a part into the front of `out`, and answers its length.
fn write_part(version: u32, part: &Part, out: &mut [u8]) -> usize
    requires version { (version ≡ 1) ⊎ (version ≡ 2) }
    requires part { IsPart version part.now }
    requires room { length (part_word version part.now) ≤ length out.old }
    ensures len { result ≡ length (part_word version part.now) }
    ensures written { out.new ≡ part_word version part.now ++ drop (length (part_word version part.now)) out.old }
{
    match *part {
        Part::Text(word) => write_text(word, out),
        Part::Number(value) => write_decimal(value, out),
        Part::Hex(bytes) => write_digits(bytes, out),
        Part::Code(code) => write_signs(version, code, out),
    }
}

/// Writes the word of a part and a space into the front of `out`, and answers how many bytes they are.
#[tactic(auto, using(crate::proofs::Overwriting::space_behind))]
fn write_spaced(version: u32, part: &Part, out: &mut [u8]) -> usize
    requires version { (version ≡ 1) ⊎ (version ≡ 2) }
    requires part { IsPart version part.now }
    requires room { length (part_word version part.now) < length out.old }
    ensures len { result ≡ length (part_word version part.now) + 1 }
    ensures written { out.new ≡ (part_word version part.now ++ 32 ∷ []) ++ drop (length (part_word version part.now) + 1) out.old }
{
    let end = write_part(version, part, out);
    out[end] = b' ';
    end + 1
}

/// Writes the word of a part and a space over the bytes of `out` from `at` on, and answers where they end.
#[tactic(auto, using(crate::proofs::Overwriting::written_from))]
fn put_part(version: u32, part: &Part, out: &mut [u8], at: usize) -> usize
    requires version { (version ≡ 1) ⊎ (version ≡ 2) }
    requires part { IsPart version part.now }
    requires room { at + length (part_word version part.now) < length out.old }
    ensures end { result ≡ at + length (part_word version part.now) + 1 }
    ensures written { out.new ≡ overwritten at (part_word version part.now ++ 32 ∷ []) out.old }
{
    at + write_spaced(version, part, &mut out[at..])
}

/// Writes the words of the parts over the front of `out`, a space behind each, and answers where they end.
pub(crate) fn put_parts(version: u32, out: &mut [u8], parts: &[Part]) -> usize
    requires version { (version ≡ 1) ⊎ (version ≡ 2) }
    requires parts { AreParts version parts.now }
    requires room { HasRoom (map (part_word version) parts.now) out.old }
    ensures { IsWritten (map (part_word version) parts.now) out.old out.new result }
{
    let mut end = 0;
    for part in parts {
        end = put_part(version, part, out, end);
    }
    end
}

/// Writes the numbers over the bytes of `out` from `at` on, a space behind each, and answers where they end.
pub(crate) fn put_numbers(version: u32, numbers: &[u32], out: &mut [u8], at: usize) -> usize
    requires version { (version ≡ 1) ⊎ (version ≡ 2) }
    requires room { at + length (spaced (map decimal numbers.now)) ≤ length out.old }
    ensures end { result ≡ at + length (spaced (map decimal numbers.now)) }
    ensures written { out.new ≡ overwritten at (spaced (map decimal numbers.now)) out.old }
{
    let mut end = at;
    for number in numbers {
        end = put_part(version, &Part::Number(*number), out, end);
    }
    end
}

/// Writes the codes over the bytes of `out` from `at` on, a space behind each, and answers where they end.
pub(crate) fn put_codes(version: u32, codes: &[u16], out: &mut [u8], at: usize) -> usize
    requires version { (version ≡ 1) ⊎ (version ≡ 2) }
    requires codes { All (IsCode version) codes.now }
    requires room { at + length (spaced (map (code_word version) codes.now)) ≤ length out.old }
    ensures end { result ≡ at + length (spaced (map (code_word version) codes.now)) }
    ensures written { out.new ≡ overwritten at (spaced (map (code_word version) codes.now)) out.old }
{
    let mut end = at;
    for code in codes {
        end = put_part(version, &Part::Code(*code), out, end);
    }
    end
}
