//! The public bytes of a draw line.
ghost use Rattle.std.specs.Prelude.{◌≡◌, ◌≤◌, ◌++◌, ℕ, List, length, drop};
ghost use Rattle.sg_plan.specs.Limits.{most_public_bytes};
ghost use Rattle.sg_lines.specs.Words.{IsBytes, encode_lower};
ghost use Rattle.sg_forms.specs.Reading.{bytes_of_digits};
ghost use Rattle.sg_forms.specs.Spelling.{AreDigits};

use sg_lines::read_hex;

/// Writes the 1 to 4,096 public bytes that the digits of a `draw` line stand for over the front of `out`, and answers
/// how many they are. The rest of `out` stays as it is.
pub fn draw_bytes(digits: &[u8], out: &mut [u8]) -> usize
    requires digits { AreDigits digits.now }
    requires room { most_public_bytes ≤ length out.old }
    ensures len { result ≡ length (bytes_of_digits digits.now) }
    ensures few { (1 ≤ result) × (result ≤ most_public_bytes) }
    ensures written { out.new ≡ bytes_of_digits digits.now ++ drop result out.old }
    ensures spelled { digits.now ≡ encode_lower (bytes_of_digits digits.now) }
    ensures only { (bytes : List ℕ) → IsBytes bytes → digits.now ≡ encode_lower bytes → bytes_of_digits digits.now ≡ bytes }
{
    let count = digits.len() / 2;
    let is_hex = read_hex(digits, &mut out[..count]);
    prove!(is_hex);
    count
}
