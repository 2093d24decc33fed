//! The words of a stream, one after another.
ghost use Rattle.std.specs.Prelude.{◌≡◌, ◌+◌, ◌^◌, ◌<◌};
ghost use Rattle.rand_chacha.specs.ChaCha.{key_of};
ghost use Rattle.sg_streams.specs.Streams.{word_of, key_seed, WordPlace};

use crate::seeds::Seed;
use rand_chacha::ChaCha20Rng;
use rand_core::SeedableRng;
use rand_core::utils::NextWord;
use std::marker::Model;

/// A reader of the words of a stream in turn.
///
/// Each block is computed once for its sixteen words, where [`word`] starts a generator for each word.
#[derive(Drop)]
pub struct Words {
    generator: ChaCha20Rng,
}

impl Model for Words {
    ghost use Rattle.sg_streams.specs.Streams.{WordPlace, key_seed, IsSeedKey};

    ghost Value = { WordPlace };

    ghost view = { λ w. record {
      seed = key_seed w.generator.key;
      stream = w.generator.stream;
      place = w.generator.word_pos;
    } };

    ghost invariant = { λ w. IsSeedKey w.generator.key };
}

/// The generator of a seed whose next word is the one at a place of a stream.
fn generator_at(seed: [u8; 32], stream: u64, place: u64) -> ChaCha20Rng
    ensures at { result ≡ record { key = key_of seed; stream = stream; word_pos = place } }
    ensures seed { key_seed result.key ≡ seed }
{
    let mut generator = ChaCha20Rng::from_seed(seed);
    // The stream goes first: setting it keeps the place and computes its block.
    generator.set_stream(stream);
    generator.set_word_pos(u128::from(place));
    generator
}

impl Words {
    /// A reader whose next word is the one at `place`.
    pub fn at(seed: &Seed, stream: u64, place: u64) -> Words
        ensures { result ≡ record { seed = seed.now.0; stream = stream; place = place } }
    {
        Words {
            generator: generator_at(seed.0, stream, place),
        }
    }

    /// The word at the place, which then goes up by one.
    ///
    /// The last word is the one at the place `2^64 - 1`. Behind it the reader is not to be asked.
    pub fn next(&mut self) -> u32
        requires { self.old.place < 2 ^ 64 }
        ensures word { result ≡ word_of self.old.seed self.old.stream self.old.place }
        ensures place { self.new ≡ record self.old { place = self.old.place + 1 } }
    {
        self.generator.next_word()
    }
}

/// A word of a stream: word `place mod 16` of the ChaCha20 block (RFC 8439) with the key `seed`, the
/// 64-bit counter `place div 16` and the 64-bit stream number.
pub fn word(seed: &Seed, stream: u64, place: u64) -> u32
    ensures { result ≡ word_of seed.now.0 stream place }
{
    Words::at(seed, stream, place).next()
}
