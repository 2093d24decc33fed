//! Digests of bytes.
use sg_commit::{Digest, Sealer};

/// SHA-256 of the bytes.
pub(crate) fn digest_of(bytes: &[u8]) -> Digest {
    let mut sealer = Sealer::new();
    sealer.add(bytes);
    sealer.digest()
}
