//! Commitments, which hide a value until they are opened, and seals over running bytes.
//!
//! Both are SHA-256 (FIPS 180-4). A commitment is taken of 29 bytes that name its kind and its place
//! in the election, a secret key and the value; a law says that the bytes tell each of these.
#![tactic(auto)]

ghost use Rattle.std.specs.Prelude.{◌≡◌, ◌+◌, ◌<◌, ◌≤◌, ◌^◌, ◌↔◌, IsTrue, ◌++◌, length, take};
ghost use Rattle.sha2.specs.Sha256.{sha256};
ghost use Rattle.sg_commit.specs.Commitments.{commit_input, letter_of};

pub mod laws;

use sha2::{Digest as Hash, Sha256};

/// The secret of a commitment, 16 bytes.
#[derive(Clone, Copy, Debug, PartialEq, Eq)]
pub struct Key(pub [u8; 16]);

/// The 32 bytes of a SHA-256 hash.
#[derive(Clone, Copy, Debug, PartialEq, Eq)]
pub struct Digest(pub [u8; 32]);

/// What opens a commitment: its key, and the value that was committed to.
#[derive(Clone, Copy, Debug, PartialEq, Eq)]
pub struct Opening {
    pub key: Key,
    pub value: u32,
}

/// What is committed to.
#[derive(Clone, Copy, Debug, PartialEq, Eq)]
pub enum CommitKind {
    /// The code of an entry.
    Q,
    /// The left pointer of a row.
    L,
    /// The right pointer of a row.
    R,
}

/// The commitment to the opening's value.
///
/// `instance` is 0 for [`CommitKind::Q`]. `place` is the entry for `Q`, and the row for `L` and `R`.
pub fn commit(kind: CommitKind, race: u32, instance: u32, place: u32, opening: &Opening) -> Digest
    requires race { race < 2 ^ 16 }
    requires instance { instance < 2 ^ 16 }
    ensures { result.0 ≡ sha256 (commit_input kind race instance place opening.now) }
{
    Digest(Sha256::digest(input_of(kind, race, instance, place, opening)))
}

/// Whether the digest is the commitment to the opening's value.
pub fn opens(
    digest: &Digest,
    kind: CommitKind,
    race: u32,
    instance: u32,
    place: u32,
    opening: &Opening,
) -> bool
    requires race { race < 2 ^ 16 }
    requires instance { instance < 2 ^ 16 }
    ensures { IsTrue result ↔
        (digest.now.0 ≡ sha256 (commit_input kind race instance place opening.now)) }
{
    *digest == commit(kind, race, instance, place, opening)
}

/// The 29 bytes that a commitment hashes.
fn input_of(kind: CommitKind, race: u32, instance: u32, place: u32, opening: &Opening) -> [u8; 29]
    requires race { race < 2 ^ 16 }
    requires instance { instance < 2 ^ 16 }
    ensures { result ≡ commit_input kind race instance place opening.now }
{
    let mut input = [0; 29];
    write_at(&mut input, 0, &[letter(kind)]);
    write_at(&mut input, 1, &(race as u16).to_be_bytes());
    write_at(&mut input, 3, &(instance as u16).to_be_bytes());
    write_at(&mut input, 5, &place.to_be_bytes());
    write_at(&mut input, 9, &opening.key.0);
    write_at(&mut input, 25, &opening.value.to_be_bytes());
    input
}

/// Writes the part behind the first `at` bytes.
#[inline]
fn write_at(buf: &mut [u8], at: usize, part: &[u8])
    requires { at + length part.now ≤ length buf.old }
    ensures { take (at + length part.now) buf.new ≡ take at buf.old ++ part.now }
{
    buf[at..at + part.len()].copy_from_slice(part);
}

/// The byte that stands for a kind.
fn letter(kind: CommitKind) -> u8
    ensures { result ≡ letter_of kind }
{
    match kind {
        CommitKind::Q => b'Q',
        CommitKind::L => b'L',
        CommitKind::R => b'R',
    }
}

/// How many bytes a seal holds before it hashes them.
const ROOM: usize = 2048;

/// A running SHA-256 over bytes that are added piece by piece.
///
/// It holds small pieces until they are many, since hashing many bytes at once takes less time than hashing them piece
/// by piece.
#[derive(Debug, Drop)]
pub struct Sealer {
    hasher: Sha256,
    /// The last bytes that were added stand at its front, and are not hashed yet.
    room: [u8; ROOM],
    /// How many these are.
    held: usize,
}

impl Sealer {
    ghost use Rattle.std.specs.Prelude.{◌≡◌, ℕ, List, [], ◌++◌};
    ghost use Rattle.sha2.specs.Sha256.{sha256};
    ghost use Rattle.sg_commit.specs.Seals.{StandsFor};

    /// A seal over no bytes.
    pub fn new() -> Sealer
        ensures { StandsFor result [] }
    {
        Sealer {
            hasher: Sha256::new(),
            room: [0; ROOM],
            held: 0,
        }
    }

    /// Adds bytes behind those added before.
    pub fn add(&mut self, bytes: &[u8])
        ensures { (before : List ℕ) → StandsFor self.old before →
            StandsFor self.new (before ++ bytes.now) }
    {
        if bytes.len() < ROOM.saturating_sub(self.held) {
            write_at(&mut self.room, self.held, bytes);
            self.held += bytes.len();
            return;
        }
        self.hasher.update(front(&self.room, self.held));
        self.hasher.update(bytes);
        self.held = 0;
    }

    /// The hash of all bytes added, in order.
    pub fn digest(self) -> Digest
        ensures { (bytes : List ℕ) → StandsFor self bytes → result.0 ≡ sha256 bytes }
    {
        let Sealer { hasher, room, held } = self;
        Digest(hasher.chain_update(front(&room, held)).finalize())
    }

    /// The same seal once more, to be gone on with apart.
    pub fn copy(&self) -> Sealer
        ensures { (bytes : List ℕ) → StandsFor self.now bytes → StandsFor result bytes }
    {
        let Ok(hasher) = self.hasher.clone() else {
            unreachable!()
        };
        Sealer {
            hasher,
            room: self.room,
            held: self.held,
        }
    }
}

/// The first bytes, so many of them or all.
fn front(bytes: &[u8], count: usize) -> &[u8]
    ensures { result.now ≡ take count bytes.now }
{
    &bytes[..bytes.len().min(count)]
}
