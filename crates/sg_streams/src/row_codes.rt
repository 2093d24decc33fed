//! The confirmation codes of a ballot row.
ghost use Rattle.std.specs.Prelude.{◌≡◌, ◌+◌, ◌-◌, ◌*◌, ◌/◌, ◌^◌, ◌<◌, ◌≤◌, ◌⊎◌, ◌==◌, ◌++◌, false, length, take, replicate, count_by, nat_lt, nat_le};
ghost use Rattle.std.specs.List.{list_any};
ghost use Rattle.sg_streams.specs.RowCodes.{row_codes, AreCodes};

use crate::reading::Words;
use crate::seeds::Seed;
use sg_plan::codes_of;
use sg_plan::limits::MOST_CANDIDATES;

/// The first `k` codes of a ballot row, different and below the number of codes of the version. The rest
/// of the array is 0.
///
/// Code `t` is the `d`-th smallest of those that the row does not have yet, `d` from 0, with
/// `d = floor(word(t) · left / 2^32)`, where `left` is how many these are: 1,000 less `t` in version
/// 1, and 32,768 less `t` in version 2.
pub fn codes(version: u32, seed: &Seed, stream: u64, k: u32) -> [u16; MOST_CANDIDATES]
    requires known_version { (version ≡ 1) ⊎ (version ≡ 2) }
    requires fits { k ≤ 16 }
    ensures value { result ≡ row_codes version seed.now.0 stream k ++ replicate (16 - k) 0 }
    ensures codes { AreCodes version k (take k result) }
{
    let number = codes_of(version);
    let mut words = Words::at(seed, stream, 0);
    let mut row = [0; MOST_CANDIDATES];
    for at in 0..k {
        let draw = drawn(words.next(), number - at);
        row[at as usize] = unused_at(&row[..at as usize], draw);
    }
    row
}

/// Which of `left` things a word draws, from 0.
fn drawn(word: u32, left: u32) -> u32
    requires { 0 < left }
    ensures value { result ≡ word * left / 2 ^ 32 }
    ensures bound { result < left }
{
    (u64::from(word) * u64::from(left) / (1 << 32)) as u32
}

/// The number that stands at `draw`, from 0, in the row of the numbers that are not used.
fn unused_at(used: &[u16], draw: u32) -> u16
    requires fits { draw + length used.now < 2 ^ 16 }
    ensures unused { list_any (λ u. u == result) used.now ≡ false }
    ensures place { result ≡ draw + count_by (λ u. nat_lt u result) used.now }
    ensures bound { result ≤ draw + length used.now }
{
    let mut code = draw;
    loop {
        // Each used number up to this one pushes it further.
        let pushed = draw + up_to(used, code);
        if pushed == code {
            return code as u16;
        }
        code = pushed;
    }
}

/// How many of the numbers are at most `limit`.
fn up_to(numbers: &[u16], limit: u32) -> u32
    requires { length numbers.now < 2 ^ 16 }
    ensures { result ≡ count_by (λ x. nat_le x limit) numbers.now }
{
    numbers
        .iter()
        .filter(|number| u32::from(**number) <= limit)
        .count() as u32
}
