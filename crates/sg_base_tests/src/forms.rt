//! Lines on examples, whose values were found by hand or by another program. A line that is read is by the clauses of its
//! calls written back as the same bytes.
use sg_forms::{Line, read_form};
use std::process::Abort;

/// Lines of records that another program wrote: each form without a code.
const LINES: [&str; 24] = [
    "scantegrity2 1\n",
    "scantegrity2 2\n",
    "election Spring\n",
    "instances 3\n",
    "race Mayor 3 1\n",
    "cand Ada\n",
    "style All 0 1\n",
    "ballots 0 7\n",
    "code-commit 0 6d196916491cf6207bae099c55e3b83920914bd422afad938fcf608c18226c2c\n",
    "row-commit 0 0 e9358a059d775198f31a79c44b3dc97d0beb9a8d11380bc43dcd7a5df75fb991 ee8dbf963f4b659319031ce50c1a8d0209d2464022e8f701d0fa929a452936ef\n",
    "seal 1 ea310a06d6a219c0054fd3f84fbac2a9010f6a2eb2ab50afbc1933614f24ec12\n",
    "cast 1\n",
    "over 0\n",
    "spoiled 3\n",
    "audited 4\n",
    "flags 0 0 100000000000000000000000000000110000\n",
    "places 0 000000100001000010000000000000000000\n",
    "total 0 0 1\n",
    "draw full\n",
    "draw 00000007\n",
    "right 5b86729fc1793260837b65de5acae678 11\n",
    "left a1ec48d1b6b03a48ec4e37e8afc182c3 34\n",
    "both 1d23fb04c8dcdc9599f1a232c1f9792d 11 f95d23d67cb235bf766252ea82f18fd7 2\n",
    "voided 5\n",
];

/// More lines of version 1, among them the forms with a code.
const LINES_1: [&str; 30] = [
    "code 0 1 ec8294ff5ee85c8ea1fe5e2e25131a98 055\n",
    "paper 0 317 849 637\n",
    "dispute 1 0 055 posted\n",
    "dispute 1 0 639 unposted\n",
    "dispute 4 1 005 absent\n",
    "cast 0\n",
    "cast 4294967295\n",
    "election Town~1\n",
    "instances 20\n",
    "style All 0\n",
    "ballots 0 200\n",
    "spoiled 7\n",
    "audited 8\n",
    "over 2\n",
    "paper 0 000 999\n",
    "flags 0 1 0110\n",
    "places 0 1\n",
    "total 0 1 2\n",
    "draw 00ff\n",
    "dispute 3 0 123 posted\n",
    "dispute 3 0 123 unposted\n",
    "dispute 3 0 123 absent\n",
    "style All 0 1 2 3 4 5 6 7 8 9 10 11 12 13 14 15 16 17 18 19 20 21 22 23 24 25 26 27 28 29 30 31\n",
    "flags 0 1 0101010101010101010101010101010101010101010101010101010101010101\n",
    "code-commit 3 ba7816bf8f01cfea414140de5dae2223b00361a396177a9cb410ff61f20015ad\n",
    "row-commit 3 4 ba7816bf8f01cfea414140de5dae2223b00361a396177a9cb410ff61f20015ad e3b0c44298fc1c149afbf4c8996fb92427ae41e4649b934ca495991b7852b855\n",
    "seal 3 ba7816bf8f01cfea414140de5dae2223b00361a396177a9cb410ff61f20015ad\n",
    "left 000102030405060708090a0b0c0d0e0f 5\n",
    "right 000102030405060708090a0b0c0d0e0f 5\n",
    "both 000102030405060708090a0b0c0d0e0f 5 ade0b876903df1a0e56a5d4028bd8653 6\n",
];

/// Lines of version 2 with a code, and one more.
const LINES_2: [&str; 7] = [
    "code 0 1 ec8294ff5ee85c8ea1fe5e2e25131a98 3T4\n",
    "paper 0 C7K V7Q NES\n",
    "dispute 1 0 3T4 posted\n",
    "dispute 1 0 NGF unposted\n",
    "dispute 4 1 ZA2 absent\n",
    "voided 9\n",
    "paper 0 22Z PRJ\n",
];

/// Texts that are no line of version 1.
const OTHERS_1: [&str; 42] = [
    "cast 4294967296\n",
    "cast 01\n",
    "cast  1\n",
    " cast 1\n",
    "cast 1 \n",
    "cast 1\r\n",
    "cast\t1\n",
    "cast 1",
    "cast 1\n\n",
    "cast 1\ncast 2\n",
    "cast 1 2\n",
    "cast\n",
    "cast \n",
    "Cast 1\n",
    "casts 1\n",
    "\n",
    "",
    "scantegrity2 3\n",
    "scantegrity2 0\n",
    "election Town 1\n",
    "election \n",
    "race Mayor 3\n",
    "style All\n",
    "style All 0 1 x\n",
    "paper 0\n",
    "paper 0 000 9999\n",
    "paper 0 0 0\n",
    "flags 0 1 0120\n",
    "flags 0 1\n",
    "draw fu\n",
    "draw 00f\n",
    "draw 00FF\n",
    "draw \n",
    "dispute 3 0 123 other\n",
    "seal 1\n",
    "style All 0 1 2 3 4 5 6 7 8 9 10 11 12 13 14 15 16 17 18 19 20 21 22 23 24 25 26 27 28 29 30 31 32\n",
    "flags 0 1 01010101010101010101010101010101010101010101010101010101010101011\n",
    "code-commit 3 ba7816bf8f01cfea414140de5dae2223b00361a396177a9cb410ff61f20015aD\n",
    "code-commit 3 ba7816bf8f01cfea414140de5dae2223b00361a396177a9cb410ff61f20015a\n",
    "row-commit 3 4 ba7816bf8f01cfea414140de5dae2223b00361a396177a9cb410ff61f20015ad\n",
    "both 000102030405060708090a0b0c0d0e0f 5\n",
    "left 000102030405060708090a0b0c0d0e0f 5 ade0b876903df1a0e56a5d4028bd8653 6\n",
];

/// Texts that are no line of version 2.
const OTHERS_2: [&str; 2] = ["paper 0 22Z PRI\n", "dispute 3 0 123 absent\n"];

/// The text is a line of this version.
fn has_form(version: u32, text: &str) -> bool {
    read_form(version, text.as_bytes()).is_some()
}

/// Each of these lines has a form.
fn expect_formed(rt: &impl Abort, version: u32, lines: &[&str]) {
    for line in lines {
        assert!(rt; has_form(version, line), "{line}");
    }
}

/// None of these texts has a form.
fn expect_formless(rt: &impl Abort, version: u32, texts: &[&str]) {
    for text in texts {
        assert!(rt; !has_form(version, text), "{text}");
    }
}

#[test]
fn forms_are_told(rt: HostRuntime) {
    expect_formed(&rt, 1, &LINES);
    expect_formed(&rt, 2, &LINES);
    expect_formed(&rt, 1, &LINES_1);
    expect_formed(&rt, 2, &LINES_2);
    expect_formless(&rt, 1, &OTHERS_1);
    expect_formless(&rt, 2, &OTHERS_2);
}

/// The text is a line of a code, with these numbers: of its race, its column and the code.
fn has_code(version: u32, text: &str, numbers: [u32; 3]) -> bool {
    match read_form(version, text.as_bytes()) {
        Some(Line::Code(line)) => [line.race, line.column, u32::from(line.code)] == numbers,
        _ => false,
    }
}

#[test]
fn codes_are_read(rt: HostRuntime) {
    let text = "code 0 1 000102030405060708090a0b0c0d0e0f PRJ\n";
    assert!(rt; has_code(2, text, [0, 1, 22_256]));
    assert!(rt; !has_form(1, text));
}
