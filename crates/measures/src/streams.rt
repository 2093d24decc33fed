//! Draws from a seed of zeros and prints a checksum of what came, so that the work can be timed.
use crate::stop::Stop;
use crate::task::Task;
use rand_chacha::ChaCha20Rng;
use rand_core::SeedableRng;
use rand_core::utils::NextWord;
use sg_plan::{NoMemory, Side};
use sg_streams::{Coins, Keys, Seed, codes, order};
use std::alloc::Global;

const SEED: Seed = Seed([0; 32]);

/// A checksum with one more number.
fn added(sum: u64, number: u64) -> u64 {
    sum.wrapping_mul(31).wrapping_add(number)
}

/// The order of `count` numbers.
fn order_sum(alloc: Global, count: u32) -> Result<u64, NoMemory> {
    let list = order(alloc, &SEED, 0, count)?;
    let mut sum = 0;
    for number in list.as_slice() {
        sum = added(sum, u64::from(*number));
    }
    Ok(sum)
}

/// The coins of `count` rows in turn.
fn coins_sum(count: u32) -> u64 {
    let mut coins = Coins::at(&SEED, 0, 0, 0);
    let mut sum = 0;
    for _row in 0..count {
        let coin = match coins.next() {
            Side::Left => 0,
            Side::Right => 1,
        };
        sum = added(sum, coin);
    }
    sum
}

/// The codes of `count` ballot rows of 16 candidates each.
fn codes_sum(count: u32) -> u64 {
    let mut sum = 0;
    for row in 0..count {
        for code in codes(2, &SEED, u64::from(row), 16) {
            sum = added(sum, u64::from(code));
        }
    }
    sum
}

/// The keys of `count` items in turn.
fn keys_sum(count: u32) -> u64 {
    let mut keys = Keys::at(&SEED, 0, 0);
    let mut sum = 0;
    for _item in 0..count {
        let key = keys.next();
        sum = added(sum, u64::from(key[0]));
    }
    sum
}

/// `count` words of the generator that all stand on, with nothing around it.
fn words_sum(count: u32) -> u64 {
    let mut generator = ChaCha20Rng::from_seed(SEED.0);
    let mut sum = 0;
    for _place in 0..count {
        sum = added(sum, u64::from(generator.next_word()));
    }
    sum
}

/// The checksum of a work.
fn sum_of(alloc: Global, word: &str, count: u32) -> Result<Option<u64>, NoMemory> {
    match word {
        "order" => Ok(Some(order_sum(alloc, count)?)),
        "coins" => Ok(Some(coins_sum(count))),
        "codes" => Ok(Some(codes_sum(count))),
        "keys" => Ok(Some(keys_sum(count))),
        "words" => Ok(Some(words_sum(count))),
        _ => Ok(None),
    }
}

/// Draws so much, and says the checksum.
pub(crate) fn measure(rt: &HostRuntime, task: Task<'_>) -> Result<(), Stop> {
    let [count, ..] = task.numbers;
    match sum_of(rt.alloc(), task.word, count)? {
        Some(sum) => Ok(println!(rt; "{sum}")?),
        None => Ok(println!(rt; "usage: measures streams order|coins|codes|keys|words COUNT")?),
    }
}
