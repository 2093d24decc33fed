//! Outside values: a test vector of SHA-256, and commitments that another program made.

use sg_commit::{CommitKind, Digest, Key, Opening, Sealer, commit};
use sg_lines::{read_digest, read_key};

/// The digest that these digits spell.
pub(crate) fn digest_of(digits: &str) -> Digest {
    Digest(read_digest(digits.as_bytes()).unwrap_or([0; 32]))
}

/// The opening with this key and value is committed to by this digest. Both are spelled.
fn is_made(
    kind: CommitKind,
    race: u16,
    instance: u16,
    place: u32,
    key: &str,
    value: u32,
    digest: &str,
) -> bool {
    let opening = Opening {
        key: Key(read_key(key.as_bytes()).unwrap_or([0; 16])),
        value,
    };
    let made = commit(kind, u32::from(race), u32::from(instance), place, &opening);
    made == digest_of(digest)
}

#[test]
fn commitments_match(rt: HostRuntime) {
    let low = "00000000000000000000000000000000";
    let low_digest = "76847492ddf8c37dcfb28f0e762872993df081e139081cf5b7eae2bfeda79004";
    assert!(rt; is_made(CommitKind::L, 0, 0, 0, low, 0, low_digest));
    let high = "ffffffffffffffffffffffffffffffff";
    let high_digest = "d755366c62396091c67595785acede34f014175cc3fde8c700eff8bd14ce1628";
    assert!(rt;
        is_made(
            CommitKind::R,
            31,
            15,
            199_999,
            high,
            4_294_967_295,
            high_digest
        )
    );
    let code = "000102030405060708090a0b0c0d0e0f";
    let code_digest = "f49290d02415f85bb2d6251be970d679f03641145cd6bf37f49178f9168bc51a";
    assert!(rt; is_made(CommitKind::Q, 1, 0, 258, code, 679, code_digest));
    let row = "101112131415161718191a1b1c1d1e1f";
    let row_digest = "47acfb41edf449de13aaf1ac55586748c60a2ffcfc3c7ebbdfbd9b3a3e2d3b90";
    assert!(rt; is_made(CommitKind::L, 2, 3, 65_536, row, 70_000, row_digest));
}

/// The hash of `abc`, added in two parts.
fn sealed() -> Digest {
    let mut sealer = Sealer::new();
    sealer.add(b"a");
    let mut longer = sealer.copy();
    longer.add(b"bc");
    longer.digest()
}

#[test]
fn seals(rt: HostRuntime) {
    let digits = "ba7816bf8f01cfea414140de5dae2223b00361a396177a9cb410ff61f20015ad";
    assert!(rt; sealed() == digest_of(digits));
}
