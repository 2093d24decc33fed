//! The order in which a stream puts the numbers below a number.
ghost use Rattle.std.specs.Prelude.{◌≡◌, ◌+◌, ◌*◌, ◌^◌, ◌≤◌, IfOk, map};
ghost use Rattle.sg_streams.specs.Streams.{word_of};
ghost use Rattle.sg_streams.specs.Numbers.{numbers_below};
ghost use Rattle.sg_streams.specs.Order.{IsOrder, order_of, keyed};

use crate::reading::Words;
use crate::seeds::Seed;
use sg_plan::{Items, NoMemory};
use std::alloc::Global;

/// The numbers below `n` in the order of a stream: by rising pair of key and number.
///
/// The key of `x` is `word(2x) · 2^32 + word(2x + 1)`. It refuses for want of memory alone, and takes
/// 16 bytes a number beside the list itself.
pub fn order(alloc: Global, seed: &Seed, stream: u64, n: u32) -> Result<Items<u32>, NoMemory>
    ensures order { IfOk result (IsOrder seed.now.0 stream n) }
    ensures value { IfOk result (λ list. list ≡ order_of seed.now.0 stream n) }
{
    let mut pairs = keyed_numbers(alloc, seed, stream, n)?;
    pairs.sort_unstable();
    let numbers = numbers_of(alloc, pairs.as_slice())?;
    Ok(numbers)
}

/// Each number below `n` behind its key.
fn keyed_numbers(
    alloc: Global,
    seed: &Seed,
    stream: u64,
    n: u32,
) -> Result<Vec<(u64, u32)>, NoMemory>
    ensures { IfOk result (λ pairs. pairs.items ≡ map (keyed seed.now.0 stream) (numbers_below n)) }
{
    let mut words = Words::at(seed, stream, 0);
    let mut pairs = Vec::with_capacity(alloc, n as usize)?;
    for number in 0..n {
        pairs.push((next_key(&mut words), number))?;
    }
    Ok(pairs)
}

/// The next two words as a key, the first the higher.
pub fn next_key(words: &mut Words) -> u64
    requires { words.old.place + 2 ≤ 2 ^ 64 }
    ensures key { result ≡ word_of words.old.seed words.old.stream words.old.place * 2 ^ 32
        + word_of words.old.seed words.old.stream (words.old.place + 1) }
    ensures place { words.new ≡ record words.old { place = words.old.place + 2 } }
{
    let high = u64::from(words.next());
    let low = u64::from(words.next());
    high * (1 << 32) + low
}

/// The numbers of the pairs.
fn numbers_of(alloc: Global, pairs: &[(u64, u32)]) -> Result<Items<u32>, NoMemory>
    ensures { IfOk result (λ list. list ≡ map (λ p. p.1) pairs.now) }
{
    let mut numbers = Items::new(alloc);
    for (_, number) in pairs {
        numbers.push(*number)?;
    }
    Ok(numbers)
}
