//! The two words that ask for a sample.
ghost use Rattle.std.specs.Prelude.{◌≡◌, ◌≤◌, IfSome};
ghost use Rattle.sg_words.specs.Numbers.{sample_in};

use crate::number::number_of;
use crate::table::{BALLOTS, SEED};

/// What a sample is made from.
#[derive(Clone, Copy, Debug, PartialEq, Eq)]
pub struct Sample {
    /// The number for its seed and for the public bytes of its draw.
    pub seed: u32,
    /// How many ballots it has: 1 to 9,000.
    pub ballots: u32,
}

/// The sample that two words ask for: a number below 2^32 for the seed, and 1 to 9,000 ballots, both in decimal digits
/// without a sign or a leading zero.
pub fn sample_of(seed: &[u8], ballots: &[u8]) -> Option<Sample>
    ensures is { result ≡ sample_in seed.now ballots.now }
    ensures some { IfSome result (λ sample. 1 ≤ sample.ballots) }
    ensures few { IfSome result (λ sample. sample.ballots ≤ 9000) }
{
    let seed = number_of(&SEED, seed)?;
    let ballots = number_of(&BALLOTS, ballots)?;
    Some(Sample { seed, ballots })
}
