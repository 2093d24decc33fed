//! Lists of numbers and of codes that end a line, read into arrays, and the front of an array.
ghost use Rattle.std.specs.Prelude.{◌≡◌, ℕ, List, take, IfSome};
ghost use Rattle.std.specs.Option.{option_map};
ghost use Rattle.sg_plan.specs.Limits.{most_candidates, most_races};
ghost use Rattle.sg_lines.specs.Words.{decimal_of, code_of};
ghost use Rattle.sg_forms.specs.Reading.{few_by};
ghost use Rattle.sg_forms.specs.Zeros.{IsZeroBehind};

use crate::words::Words;
use sg_lines::{read_code, read_decimal};
use sg_plan::limits::{MOST_CANDIDATES, MOST_RACES};

/// The words that are left, where they are 1 to 32 numbers: the numbers, with zeros behind them, and how many they are.
#[tactic(auto, using(crate::proofs::Few::few_steps))]
pub(crate) fn few_numbers(mut words: Words) -> Option<([u32; MOST_RACES], u32)>
    ensures exact { option_map (λ found. take found.1 found.0) result ≡ few_by decimal_of most_races words.entry }
    ensures zeros { IfSome result (λ found. IsZeroBehind most_races found.1 found.0) }
{
    let mut numbers = [0; MOST_RACES];
    let mut count = 0;
    while let Some(word) = words.word() {
        if count == MOST_RACES {
            return None;
        }
        numbers[count] = read_decimal(word)?;
        count += 1;
    }
    if count == 0 {
        None
    } else {
        Some((numbers, count as u32))
    }
}

/// The words that are left, where they are 1 to 16 codes: the codes, with zeros behind them, and how many they are.
#[tactic(auto, using(crate::proofs::Few::few_steps))]
pub(crate) fn few_codes(version: u32, mut words: Words) -> Option<([u16; MOST_CANDIDATES], u32)>
    ensures exact { option_map (λ found. take found.1 found.0) result ≡ few_by (code_of version) most_candidates words.entry }
    ensures zeros { IfSome result (λ found. IsZeroBehind most_candidates found.1 found.0) }
{
    let mut codes = [0; MOST_CANDIDATES];
    let mut count = 0;
    while let Some(word) = words.word() {
        if count == MOST_CANDIDATES {
            return None;
        }
        codes[count] = read_code(version, word)?;
        count += 1;
    }
    if count == 0 {
        None
    } else {
        Some((codes, count as u32))
    }
}

/// The first elements of a list, up to so many.
pub(crate) fn front<T>(list: &[T], count: u32) -> &[T]
    ensures { result.now ≡ take count list.now }
{
    &list[..list.len().min(count as usize)]
}
