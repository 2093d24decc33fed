//! Seeds, and the numbers of their streams.
ghost use Rattle.std.specs.Prelude.{◌≡◌, ◌<◌, ◌≤◌, ◌^◌};
ghost use Rattle.sg_streams.specs.Streams.{stream_number};

/// What all words, keys, orders and codes of an office, or all coins of a draw, are made from.
#[derive(Clone, Copy, PartialEq, Eq)]
pub struct Seed(pub [u8; 32]);

/// The number of a stream: `purpose · 2^48 + race · 2^32 + index`.
///
/// | Purpose | Use | Index |
/// |---|---|---|
/// | 1 | codes of a ballot row | ballot row |
/// | 2 | order of a ballot row's columns | ballot row |
/// | 3 | order of a candidate's places | candidate |
/// | 4 | order of an instance's rows | instance |
/// | 5 | keys of table Q | 0 |
/// | 6 | keys of left pointers | instance |
/// | 7 | keys of right pointers | instance |
pub fn stream(purpose: u32, race: u32, index: u32) -> u64
    requires known_purpose { (1 ≤ purpose) × (purpose ≤ 7) }
    requires small_race { race < 2 ^ 16 }
    ensures { result ≡ stream_number purpose race index }
{
    u64::from(purpose) * (1 << 48) + u64::from(race) * (1 << 32) + u64::from(index)
}
