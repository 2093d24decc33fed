//! Numbers of rows.
ghost use Rattle.std.specs.Prelude.{◌≡◌};
ghost use Rattle.sg_open.specs.inside.Telling.{ballot_number as ballot_number_of, small_of};

use sg_plan::BallotIndex;

/// The number, where it is from 0 to 2^32 - 1.
pub fn small(number: i64) -> Option<u32>
    ensures { result ≡ small_of number }
{
    if number < 0 {
        return None;
    }
    if number >= 1 << 32 {
        return None;
    }
    Some(number as u32)
}

/// The number, where it is that of a ballot of the plan.
pub fn ballot_number(index: &BallotIndex, number: i64) -> Option<u32>
    ensures { result ≡ ballot_number_of index.now number }
{
    if number < 1 {
        return None;
    }
    if number > i64::from(index.ballots()) {
        return None;
    }
    Some(number as u32)
}
