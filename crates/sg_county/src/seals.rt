//! The seals of parts.
ghost use Rattle.std.specs.Prelude.{◌≡◌, ◌<◌, ◌^◌, length, Option};
ghost use Rattle.sg_county.specs.County.{first_equal, same_seal};

use sg_commit::Digest;
use sg_plan::Items;

/// The number of the first of the seals that is this one, counted from 1.
pub(crate) fn first_equal_seal(seal: Option<Digest>, seals: &Items<Option<Digest>>) -> Option<u32>
    requires { length seals.now < 2 ^ 31 }
    ensures { result ≡ first_equal seal 1 seals.now }
{
    for at in 0..seals.len() {
        if is_same_seal(seal, *seals.get(at)) {
            return Some(at as u32 + 1);
        }
    }
    None
}

/// Both are there, and are the same digest.
fn is_same_seal(one: Option<Digest>, other: Option<Digest>) -> bool
    ensures { result ≡ same_seal one other }
{
    match one {
        Some(one) => is_same_as(&one, other),
        None => false,
    }
}

/// The other is there, and is this digest.
#[tactic(auto, using(sg_lists::proofs::Lists::same_bytes_eq))]
fn is_same_as(one: &Digest, other: Option<Digest>) -> bool
    ensures { result ≡ same_seal (Some one.now) other }
{
    match other {
        Some(other) => *one == other,
        None => false,
    }
}
