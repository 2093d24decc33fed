//! The coins that say which side of a row is opened.
ghost use Rattle.std.specs.Prelude.{◌≡◌, ◌+◌, ◌^◌, ◌<◌, ◌≤◌, length};
ghost use Rattle.sg_plan.specs.Limits.{most_public_bytes};
ghost use Rattle.sg_streams.specs.CoinSides.{coin_seed, coin_of, side_of_word as side_of, CoinPlace};

use crate::reading::Words;
use crate::seeds::Seed;
use sg_plan::Side;
use sha2::{Digest, Sha256};
use std::marker::Model;

/// What stands in front of the public bytes.
const COIN_MARK: [u8; 7] = *b"SC2COIN";

/// The seed of the coins: SHA-256 of `SC2COIN` and the public bytes, 4,096 at most.
#[tactic(auto, unfolding(crate::specs::CoinSides::coin_seed))]
pub fn coin_key(public: &[u8]) -> Seed
    requires { length public.now ≤ most_public_bytes }
    ensures { result.0 ≡ coin_seed public.now }
{
    let mut hasher = Sha256::new();
    hasher.update(COIN_MARK.as_slice());
    hasher.update(public);
    Seed(hasher.finalize())
}

/// The side that a word of the coins' stream opens: its lowest bit is the coin, 0 for the left side
/// and 1 for the right.
pub fn side_of_word(word: u32) -> Side
    ensures { result ≡ side_of word }
{
    if word % 2 == 0 {
        Side::Left
    } else {
        Side::Right
    }
}

/// A reader of an instance's coins, row after row.
#[derive(Drop)]
pub struct Coins {
    words: Words,
}

impl Model for Coins {
    ghost use Rattle.std.specs.Prelude.{◌/◌, ◌%◌, ◌^◌};
    ghost use Rattle.sg_streams.specs.CoinSides.{CoinPlace};

    ghost Value = { CoinPlace };

    ghost view = { λ c. record {
      seed = c.words.seed;
      race = c.words.stream / 2 ^ 32;
      instance = c.words.stream % 2 ^ 32;
      row = c.words.place;
    } };
}

impl Coins {
    /// A reader whose next coin is that of `row`.
    pub fn at(key: &Seed, race: u32, instance: u32, row: u32) -> Coins
        ensures { result ≡ record { seed = key.now.0; race = race; instance = instance; row = row } }
    {
        let stream = u64::from(race) * (1 << 32) + u64::from(instance);
        Coins {
            words: Words::at(key, stream, u64::from(row)),
        }
    }

    /// The side of the row that its coin opens. The row then goes up by one.
    ///
    /// The last row is number `2^32 - 1`. Behind it the reader is not to be asked.
    #[tactic(auto, unfolding(crate::specs::CoinSides::coin_of))]
    pub fn next(&mut self) -> Side
        requires { self.old.row < 2 ^ 32 }
        ensures side { result ≡ coin_of self.old.seed self.old.race self.old.instance self.old.row }
        ensures row { self.new ≡ record self.old { row = self.old.row + 1 } }
    {
        side_of_word(self.words.next())
    }
}

/// The side of a row of table R that its coin opens, by the seed that `coin_key` gives.
pub fn coin(key: &Seed, race: u32, instance: u32, row: u32) -> Side
    ensures { result ≡ coin_of key.now.0 race instance row }
{
    Coins::at(key, race, instance, row).next()
}
