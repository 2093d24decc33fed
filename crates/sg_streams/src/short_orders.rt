//! Orders of at most 16 numbers, which take no memory.
ghost use Rattle.std.specs.Prelude.{◌≡◌, ◌-◌, ◌≤◌, ◌++◌, ℕ, List, length, map, take, replicate};
ghost use Rattle.sg_streams.specs.Numbers.{numbers_below};
ghost use Rattle.sg_streams.specs.Order.{order_of, keyed};

use crate::ordering::next_key;
use crate::reading::Words;
use crate::seeds::Seed;
use sg_plan::limits::MOST_CANDIDATES;

/// The numbers below `n`, at most 16, in the order that [`order`](crate::order) gives. The rest of the array is 0.
///
/// It takes no memory.
pub fn short_order(seed: &Seed, stream: u64, n: u32) -> [u32; MOST_CANDIDATES]
    requires { n ≤ 16 }
    ensures { result ≡ order_of seed.now.0 stream n ++ replicate (16 - n) 0 }
{
    let mut pairs = keyed_few(seed, stream, n);
    sorted_numbers(&mut pairs[..n as usize])
}

/// Each number below `n` behind its key, at the front.
fn keyed_few(seed: &Seed, stream: u64, n: u32) -> [(u64, u32); MOST_CANDIDATES]
    requires { n ≤ 16 }
    ensures { take n result ≡ map (keyed seed.now.0 stream) (numbers_below n) }
{
    let mut words = Words::at(seed, stream, 0);
    let mut pairs = [(0, 0); MOST_CANDIDATES];
    for number in 0..n {
        pairs[number as usize] = (next_key(&mut words), number);
    }
    pairs
}

/// The numbers of the pairs, sorted. The rest is 0.
fn sorted_numbers(pairs: &mut [(u64, u32)]) -> [u32; MOST_CANDIDATES]
    requires { length pairs.old ≤ 16 }
    ensures { (seed : List ℕ) (stream n : ℕ) → pairs.old ≡ map (keyed seed stream) (numbers_below n)
        → result ≡ order_of seed stream n ++ replicate (16 - n) 0 }
{
    pairs.sort_unstable();
    let mut numbers = [0; MOST_CANDIDATES];
    for at in 0..pairs.len() {
        numbers[at] = pairs[at].1;
    }
    numbers
}
