//! Words, keys, orders, codes and coins worked out elsewhere. What is told in turn is by the clauses of its calls what is told
//! one by one.
use sg_lines::{read_digest, read_key};
use sg_plan::{NoMemory, Side};
use sg_streams::{Seed, codes, coin, coin_key, key_at, order, side_of_word, stream, word};
use std::alloc::Global;
use std::test::Fail;

/// The seed of 32 zero bytes.
pub(crate) const ZERO: Seed = Seed([0; 32]);

/// The seed of the bytes 0 to 31.
pub(crate) const RISING: Seed = Seed([
    0, 1, 2, 3, 4, 5, 6, 7, 8, 9, 10, 11, 12, 13, 14, 15, 16, 17, 18, 19, 20, 21, 22, 23, 24, 25,
    26, 27, 28, 29, 30, 31,
]);

/// The stream of purpose 4, race 3 and index 2.
const FAR: u64 = 1_125_912_791_744_514;

/// The first words of stream 0 of the zero seed.
const ZERO_WORDS: [u32; 18] = [
    0xade0b876, 0x903df1a0, 0xe56a5d40, 0x28bd8653, 0xb819d2bd, 0x1aed8da0, 0xccef36a8, 0xc70d778b,
    0x7c5941da, 0x8d485751, 0x3fe02477, 0x374ad8b8, 0xf4b8436a, 0x1ca11815, 0x69b687c3, 0x8665eeb2,
    0xbee7079f, 0x7a385155,
];

/// The first words of the far stream of the rising seed.
const FAR_WORDS: [u32; 18] = [
    0xfd9d6054, 0x8d0c146a, 0xa2ae6c7b, 0x2d36707c, 0xf60424a6, 0x782a7f78, 0x011f77a5, 0x33c674f3,
    0xe9fe3f6a, 0xd51439f1, 0x0174e768, 0x4f247f42, 0x1960f55d, 0xb400bcdc, 0xe7212d46, 0x12d3a7f6,
    0x4fa381a0, 0x7ae168c6,
];

/// Its words from the place 2 ^ 20 on.
const HIGH_WORDS: [u32; 4] = [0x805a6b51, 0xfa0bef3b, 0x227948fd, 0x4a8ceab0];

/// The block of RFC 8439, section 2.3.2: its counter is 1, and its nonce 00:00:00:09:00:00:00:4a:00:00:00:00. The first word of
/// the nonce is the high half of our counter.
const BLOCK: [u32; 16] = [
    0xe4e7f110, 0x15593bd1, 0x1fdd0f50, 0xc47120a3, 0xc7f4d1c7, 0x0368c033, 0x9aaa2204, 0x4e6cd4c3,
    0x466482d2, 0x09aa9f07, 0x05d7c214, 0xa2028bd9, 0xd19c12b5, 0xb94e16de, 0xe883d0cb, 0x4e3c50a2,
];

/// These are the words of the stream from the place on.
fn are_words(seed: &Seed, stream: u64, start: u64, words: &[u32]) -> bool {
    let mut place = start;
    for expected in words {
        if word(seed, stream, place) != *expected {
            return false;
        }
        place = place.wrapping_add(1);
    }
    true
}

#[test]
fn words_match(rt: HostRuntime) {
    let same = [
        are_words(&ZERO, 0, 0, &ZERO_WORDS),
        are_words(&RISING, FAR, 0, &FAR_WORDS),
        are_words(&RISING, FAR, 1 << 20, &HIGH_WORDS),
        are_words(&RISING, 0x4a00_0000, 0x9000_0000_0000_0010, &BLOCK),
        stream(4, 3, 2) == FAR,
    ];
    assert!(rt; same == [true; 5]);
}

/// The digits spell the key of this item of the stream.
fn is_key(seed: &Seed, stream: u64, item: u32, digits: &str) -> bool {
    read_key(digits.as_bytes()) == Some(key_at(seed, stream, item))
}

#[test]
fn keys_match(rt: HostRuntime) {
    let same = [
        is_key(&ZERO, 0, 0, "ade0b876903df1a0e56a5d4028bd8653"),
        is_key(&RISING, FAR, 0, "fd9d60548d0c146aa2ae6c7b2d36707c"),
        is_key(&RISING, FAR, 1, "f60424a6782a7f78011f77a533c674f3"),
        is_key(&RISING, FAR, 5, "ceb7a6ba00c9f9e3b16eddffa30b220f"),
    ];
    assert!(rt; same == [true; 4]);
}

/// The order of 40 places by the far stream.
const MANY: [u32; 40] = [
    3, 5, 26, 34, 21, 33, 6, 29, 12, 36, 16, 20, 8, 30, 35, 24, 37, 13, 18, 28, 1, 27, 17, 23, 31,
    32, 25, 11, 19, 10, 14, 39, 15, 7, 38, 4, 22, 9, 2, 0,
];

/// The stream puts its places in this order.
fn is_order(alloc: Global, seed: &Seed, stream: u64, places: &[u32]) -> Result<bool, NoMemory> {
    let count = u32::try_from(places.len()).unwrap_or(0);
    let found = order(alloc, seed, stream, count)?;
    let same = found.as_slice() == places;
    drop(found);
    Ok(same)
}

#[test]
fn orders_match(rt: HostRuntime) -> Result<(), Fail> {
    let alloc = rt.alloc();
    let same = [
        is_order(alloc, &ZERO, 0, &[0, 2, 3, 1])?,
        is_order(alloc, &RISING, FAR, &[3, 5, 6, 8, 1, 7, 4, 2, 0])?,
        is_order(alloc, &RISING, FAR, &MANY)?,
        is_order(alloc, &RISING, FAR, &[])?,
    ];
    assert!(rt; same == [true; 4]);
    Ok(())
}

#[test]
fn codes_match(rt: HostRuntime) {
    let four = [679, 562, 896, 158, 0, 0, 0, 0, 0, 0, 0, 0, 0, 0, 0, 0];
    let signs = [
        22256, 18462, 29365, 5214, 0, 0, 0, 0, 0, 0, 0, 0, 0, 0, 0, 0,
    ];
    let all = [
        990, 550, 635, 176, 960, 468, 4, 202, 912, 830, 6, 309, 99, 702, 901, 74,
    ];
    let all_signs = [
        32462, 18053, 20822, 5786, 31489, 15379, 143, 6627, 29949, 27272, 187, 10130, 3249, 23040,
        29582, 2410,
    ];
    let same = [
        codes(1, &ZERO, 0, 4) == four,
        codes(2, &ZERO, 0, 4) == signs,
        codes(1, &RISING, FAR, 16) == all,
        codes(2, &RISING, FAR, 16) == all_signs,
        codes(1, &ZERO, 0, 0) == [0; 16],
    ];
    assert!(rt; same == [true; 5]);
}

/// The coins of an instance's first rows, a digit for each, are 1 where the right side is opened.
fn are_coins(key: &Seed, race: u32, instance: u32, digits: &[u8]) -> bool {
    let mut row = 0u32;
    for digit in digits {
        let is_right = coin(key, race, instance, row) == Side::Right;
        if is_right != (*digit == b'1') {
            return false;
        }
        row = row.wrapping_add(1);
    }
    true
}

#[test]
fn coins_match(rt: HostRuntime) {
    let digits = b"d81184fc9dea3d2bc96487fddfd2c356b23484c9ca684b0c9c8358ef7b7106e5";
    let key = coin_key(&[0, 0, 0, 7]);
    let same = [
        read_digest(digits) == Some(key.0),
        are_coins(&key, 0, 0, b"1101110101111001100101101001110000000010"),
        are_coins(&key, 1, 2, b"1110111110111000101110011111010110001100"),
        are_coins(&key, 31, 15, b"0011101010101111111010111111111110110101"),
        side_of_word(u32::MAX) == Side::Right,
    ];
    assert!(rt; same == [true; 5]);
}
