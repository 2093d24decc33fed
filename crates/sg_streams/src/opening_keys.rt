//! The keys with which commitments are opened.
ghost use Rattle.std.specs.Prelude.{◌≡◌, ◌+◌, ◌^◌, ◌<◌};
ghost use Rattle.sg_streams.specs.OpeningKeys.{four_words, item_key, KeyPlace};

use crate::reading::Words;
use crate::seeds::Seed;
use std::marker::Model;

/// A reader of the keys of a stream in turn.
#[derive(Drop)]
pub struct Keys {
    words: Words,
}

impl Model for Keys {
    ghost use Rattle.std.specs.Prelude.{◌≡◌, ◌*◌, ◌/◌};
    ghost use Rattle.sg_streams.specs.OpeningKeys.{KeyPlace};

    ghost Value = { KeyPlace };

    ghost view = { λ k. record { seed = k.words.seed; stream = k.words.stream; item = k.words.place / 4 } };

    ghost invariant = { λ k. k.words.place ≡ 4 * (k.words.place / 4) };
}

impl Keys {
    /// A reader whose next key is that of `item`.
    pub fn at(seed: &Seed, stream: u64, item: u32) -> Keys
        ensures { result ≡ record { seed = seed.now.0; stream = stream; item = item } }
    {
        Keys {
            words: Words::at(seed, stream, 4 * u64::from(item)),
        }
    }

    /// The key of the item, which then goes up by one.
    ///
    /// The last item is number `2^32 - 1`. Behind it the reader is not to be asked.
    pub fn next(&mut self) -> [u8; 16]
        requires { self.old.item < 2 ^ 32 }
        ensures key { result ≡ item_key self.old.seed self.old.stream self.old.item }
        ensures item { self.new ≡ record self.old { item = self.old.item + 1 } }
    {
        next_key(&mut self.words)
    }
}

/// The next four words as bytes, each with the highest byte first.
fn next_key(words: &mut Words) -> [u8; 16]
    requires { words.old.place + 4 < 2 ^ 64 }
    ensures key { result ≡ four_words words.old.seed words.old.stream words.old.place }
    ensures place { words.new ≡ record words.old { place = words.old.place + 4 } }
{
    let mut key = [0; 16];
    key[0..4].copy_from_slice(&words.next().to_be_bytes());
    key[4..8].copy_from_slice(&words.next().to_be_bytes());
    key[8..12].copy_from_slice(&words.next().to_be_bytes());
    key[12..16].copy_from_slice(&words.next().to_be_bytes());
    key
}

/// The key of an item of a key stream: words `4 · item` to `4 · item + 3`, each as four bytes with the
/// highest first.
///
/// The item is the entry for the keys of table Q, and the row for those of pointers.
pub fn key_at(seed: &Seed, stream: u64, item: u32) -> [u8; 16]
    ensures { result ≡ item_key seed.now.0 stream item }
{
    Keys::at(seed, stream, item).next()
}
