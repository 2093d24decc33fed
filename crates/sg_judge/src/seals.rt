//! Seals, against the bytes before them.
ghost use Rattle.std.specs.Prelude.{◌≡◌, ℕ, List, bytes_eq, not};
ghost use Rattle.sha2.specs.Sha256.{sha256};
ghost use Rattle.sg_check.specs.Kinds.{bad_seal};
ghost use Rattle.sg_commit.specs.Seals.{StandsFor as HasTaken};
ghost use Rattle.sg_grammar.specs.Placed.Placed.{SealAt};
ghost use Rattle.sg_grammar.specs.Coordinates.{placed};
ghost use Rattle.sg_judge.specs.FirstSeal.{first_seal_on};
ghost use Rattle.sg_judge.specs.inside.Taking.{or_seal};

use sg_commit::{Digest, Sealer};
use sg_grammar::PlacedLine;

/// The line is a seal, and not the hash of the bytes before it.
#[tactic(auto, using(sg_lists::proofs::Lists::same_bytes_eq))]
#[inline(always)]
pub(crate) fn is_bad_seal(sealer: &Sealer, line: &PlacedLine) -> bool
    ensures { (before : List ℕ) → HasTaken sealer.now before → result ≡ bad_seal before (placed line.now) }
{
    match *line {
        PlacedLine::Seal { digest, .. } => is_other(sealer, &digest),
        _ => false,
    }
}

/// Keeps the digest of the line `seal 1`.
#[tactic(auto, using(crate::proofs::Sealing::or_seal_none))]
#[inline(always)]
pub(crate) fn note_seal(seal: &mut Option<Digest>, line: &PlacedLine)
    ensures { seal.new ≡ or_seal seal.old (first_seal_on (placed line.now)) }
{
    match *line {
        PlacedLine::Seal { number, digest } => keep_first(seal, number, digest),
        _ => (),
    }
}

/// Keeps the digest of a seal with this number, where it is the first, and none is kept.
#[tactic(auto, using(crate::proofs::Sealing::or_seal_none))]
fn keep_first(seal: &mut Option<Digest>, number: u32, digest: Digest)
    ensures { seal.new ≡ or_seal seal.old (first_seal_on (SealAt number digest)) }
{
    if seal.is_none() && number == 1 {
        *seal = Some(digest);
    }
}

/// The digest is not the hash of the bytes that were taken in.
#[tactic(auto, using(sg_lists::proofs::Lists::same_bytes_eq))]
fn is_other(sealer: &Sealer, digest: &Digest) -> bool
    ensures { (before : List ℕ) → HasTaken sealer.now before → result ≡ not (bytes_eq digest.now.0 (sha256 before)) }
{
    let hash = sealer.copy().digest();
    !is_same(digest, &hash)
}

/// The digests are the same.
#[tactic(auto, using(sg_lists::proofs::Lists::same_bytes_eq))]
fn is_same(one: &Digest, other: &Digest) -> bool
    ensures { result ≡ bytes_eq one.now.0 other.now.0 }
{
    *one == *other
}
