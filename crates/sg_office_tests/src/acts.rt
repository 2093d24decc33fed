//! Texts of acts, and texts that are none, by another program's reader.
use sg_desks::act_of;
use sg_plan::NoMemory;
use std::alloc::Global;

/// The version of an election, and a text of an act in it.
const ACTS: [(u32, &str); 21] = [
    (1, "scan 5"),
    (1, "scan 5 0:1 12:4294967295"),
    (1, "scan 1 3:1 1:2 1:0 1:3 1:4 1:1"),
    (2, "scan 5 0:2 0:0 0:3"),
    (1, "spoil 7"),
    (1, "audit 3"),
    (1, "audit 3 "),
    (1, "audit 3 001,999  000"),
    (
        1,
        "audit 3 088,837,026 842,962,058 074,601,476 157,808,097,786,581",
    ),
    (2, "audit 3 22A,ZZZ"),
    (2, "audit 4 CYM,2E8,SEH"),
    (1, "close"),
    (1, "draw full"),
    (1, "draw "),
    (1, "draw 00"),
    (1, "draw 3ce7b852"),
    (1, "draw 00ff"),
    (1, "claim 1 2 003"),
    (1, "claim 10 0 958"),
    (2, "claim 1 2 3T4"),
    (3, "void 9"),
];

/// The version of an election, and a text of no act in it.
const OTHERS: [(u32, &str); 36] = [
    (1, "scan 4294967296"),
    (1, "scan 5 "),
    (1, "scan 5 0:1 "),
    (1, "scan 5  0:1"),
    (1, "scan 5 0:1:2"),
    (1, "scan 5 0,1"),
    (1, "scan 5 0:01"),
    (1, "scan 05"),
    (1, "scan +5"),
    (1, "scan"),
    (1, "Scan 5"),
    (1, "spoil 7 8"),
    (1, "audit 3 001,"),
    (1, "audit 3 ,001"),
    (1, "audit 3 1,2"),
    (1, "audit 3 22A"),
    (2, "audit 3 22a"),
    (2, "audit 3 001"),
    (1, "close "),
    (1, "close 1"),
    (1, "draw 00FF"),
    (1, "draw 00f"),
    (1, "draw 00 ff"),
    (1, "draw Full"),
    (1, "draw"),
    (1, "claim 1 2 3"),
    (1, "claim 1 2"),
    (1, "claim 1 2 003 004"),
    (2, "claim 1 2 003"),
    (3, "claim 1 2 003"),
    (1, "void"),
    (1, "close\n"),
    (1, "open"),
    (1, ""),
    (1, " "),
    (1, " scan 5"),
];

/// The text is that of an act of the version.
fn is_act(alloc: Global, version: u32, text: &str) -> Result<bool, NoMemory> {
    Ok(act_of(alloc, version, text.as_bytes())?.is_some())
}

/// How many of the texts are those of acts.
fn count_acts(alloc: Global, texts: &[(u32, &str)]) -> Result<usize, NoMemory> {
    let mut count = 0usize;
    for (version, text) in texts {
        if is_act(alloc, *version, text)? {
            count = count.saturating_add(1);
        }
    }
    Ok(count)
}

#[test]
fn acts_are_read(rt: HostRuntime) -> Result<(), NoMemory> {
    assert!(rt; count_acts(rt.alloc(), &ACTS)? == ACTS.len());
    Ok(())
}

#[test]
fn no_other_text_is_read(rt: HostRuntime) -> Result<(), NoMemory> {
    assert!(rt; count_acts(rt.alloc(), &OTHERS)? == 0);
    Ok(())
}
