//! The spellings on examples, whose values were found by hand or by other programs. What is written is by the clauses of
//! its calls what is read again.
use sg_lines::{Parts, is_bits, is_name, read_code, read_decimal, read_digest, read_key};
use std::process::Abort;

/// Words, and the number that each spells.
const NUMBERS: [(&str, Option<u32>); 16] = [
    ("0", Some(0)),
    ("9", Some(9)),
    ("10", Some(10)),
    ("4096", Some(4_096)),
    ("1234567890", Some(1_234_567_890)),
    ("4294967295", Some(4_294_967_295)),
    ("", None),
    ("00", None),
    ("01", None),
    ("+1", None),
    ("-1", None),
    ("1 ", None),
    ("1a", None),
    ("4294967296", None),
    ("18446744073709551617", None),
    ("1000000000000000000000000000000000000000", None),
];

/// Each word spells its number.
fn expect_numbers(rt: &impl Abort, cases: &[(&str, Option<u32>)]) {
    for (word, number) in cases {
        assert!(rt; read_decimal(word.as_bytes()) == *number, "{word}");
    }
}

#[test]
fn numbers_are_read(rt: HostRuntime) {
    expect_numbers(&rt, &NUMBERS);
}

/// Words that spell neither a key nor a digest: a sign that is none, and a digit too few or too many.
const NO_BYTES: [&str; 10] = [
    "",
    "Ade0b876903df1a0e56a5d4028bd8653",
    "ade0b876903df1a0e56a5d4028bd865",
    "ade0b876903df1a0e56a5d4028bd86533",
    "ade0b876903df1a0e56a5d4028bd865g",
    "ade0b876903df1a0e56a5d4028bd865/",
    "ade0b876903df1a0e56a5d4028bd865:",
    "ade0b876903df1a0e56a5d4028bd865`",
    "ba7816bf8f01cfea414140de5dae2223b00361a396177a9cb410ff61f20015aD",
    "ba7816bf8f01cfea414140de5dae2223b00361a396177a9cb410ff61f20015",
];

/// The word spells a key or a digest.
fn spells_bytes(word: &str) -> bool {
    read_key(word.as_bytes()).is_some() || read_digest(word.as_bytes()).is_some()
}

/// No word does so.
fn expect_no_bytes(rt: &impl Abort, words: &[&str]) {
    for word in words {
        assert!(rt; !spells_bytes(word), "{word}");
    }
}

#[test]
fn other_bytes_are_none(rt: HostRuntime) {
    expect_no_bytes(&rt, &NO_BYTES);
}

#[test]
fn bytes_are_read(rt: HostRuntime) {
    let key = [
        0xad, 0xe0, 0xb8, 0x76, 0x90, 0x3d, 0xf1, 0xa0, 0xe5, 0x6a, 0x5d, 0x40, 0x28, 0xbd, 0x86,
        0x53,
    ];
    assert!(rt; read_key(b"ade0b876903df1a0e56a5d4028bd8653") == Some(key));
    let digest = [
        186, 120, 22, 191, 143, 1, 207, 234, 65, 65, 64, 222, 93, 174, 34, 35, 176, 3, 97, 163,
        150, 23, 122, 156, 180, 16, 255, 97, 242, 0, 21, 173,
    ];
    let digits = b"ba7816bf8f01cfea414140de5dae2223b00361a396177a9cb410ff61f20015ad";
    assert!(rt; read_digest(digits) == Some(digest));
}

/// Versions and words, and the code that each word spells.
const CODES: [(u32, &str, Option<u16>); 22] = [
    (0, "222", None),
    (1, "007", Some(7)),
    (1, "000", Some(0)),
    (1, "999", Some(999)),
    (1, "7", None),
    (1, "0007", None),
    (1, "PRJ", None),
    (2, "222", Some(0)),
    (2, "256", Some(100)),
    (2, "ZZZ", Some(32767)),
    (2, "679", Some(4263)),
    (2, "PRJ", Some(22256)),
    (2, "L2Y", Some(18462)),
    (2, "WPP", Some(29365)),
    (2, "74Y", Some(5214)),
    (2, "prj", None),
    (2, "PR0", None),
    (2, "PRI", None),
    (2, "100", None),
    (2, "PRJ2", None),
    (2, "", None),
    (3, "222", None),
];

/// Each word spells its code.
fn expect_codes(rt: &impl Abort, cases: &[(u32, &str, Option<u16>)]) {
    for (version, word, code) in cases {
        assert!(rt;
            read_code(*version, word.as_bytes()) == *code,
            "{version} {word}"
        );
    }
}

#[test]
fn codes_are_read(rt: HostRuntime) {
    expect_codes(&rt, &CODES);
}

#[test]
fn words_are_told(rt: HostRuntime) {
    let told = [
        is_bits(b"01101", 5),
        is_bits(b"", 0),
        is_name(b"Ada"),
        is_bits(b"01101", 4),
        is_bits(b"01102", 5),
        is_name(b"Ada B"),
    ];
    assert!(rt; told == [true, true, true, false, false, false]);
}

/// The text has these parts and no more.
fn has_parts(separator: u8, text: &str, want: &[&str]) -> bool {
    let mut parts = Parts::new(separator, text.as_bytes());
    for part in want {
        if parts.part() != Some(part.as_bytes()) {
            return false;
        }
    }
    parts.part().is_none()
}

#[test]
fn texts_are_cut(rt: HostRuntime) {
    assert!(rt; has_parts(b' ', "", &[""]));
    assert!(rt; has_parts(b' ', "cast 7", &["cast", "7"]));
    assert!(rt; has_parts(b' ', " a  b ", &["", "a", "", "b", ""]));
    assert!(rt; has_parts(b':', "2:0 1", &["2", "0 1"]));
    assert!(rt; has_parts(b':', "::", &["", "", ""]));
}
