//! Small offices that are made up here. Each posts the record of the same election; some lead a vote astray.
//!
//! Such an office exchanges the places of two entries: a marked one of candidate 0, and an unmarked one of candidate 1.
//! Flags, places and totals follow its pointers. Where it does so in all instances alike, the audit says yes whatever
//! the coins are: no ballot is audited, so no row is opened on both sides. Where it does so in one instance alone, the
//! flag of an altered row agrees with the entry on its left, but not with the place on its right, and the audit finds
//! the first of the two rows whose coin opens the right side.
mod altered;
mod election;
mod posting;
mod sealing;
mod tables;

use super::audit::{tell, tell_count};
use crate::fault::Fault;
use altered::tell_altered;
use posting::record_of;
use sealing::sealed_page;
use std::alloc::Global;
use std::io::Write;

/// In which instances an office exchanges the places of two entries.
#[derive(Clone, Copy, Debug, PartialEq, Eq)]
enum Exchange {
    /// In none: each entry is led along its path.
    Nowhere,
    /// In the instance of this number alone.
    In(u16),
    /// In all of them.
    Everywhere,
}

/// An office: the name of its record, where it exchanges places, and the public bytes of its draw.
#[derive(Clone, Copy, Debug)]
struct Office {
    name: &'static [u8],
    exchange: Exchange,
    public: [u8; 4],
}

/// The public bytes of the first draw. The altered rows of instance 1 are row 2, on line 112 of the record, and row 9,
/// on line 119. These bytes open row 2 on its right side.
const FIRST_DRAW: [u8; 4] = [1, 2, 3, 4];

/// Those of the second draw. They open row 2 of instance 1 on its left side, and row 9 on its right one.
const SECOND_DRAW: [u8; 4] = [5, 6, 7, 8];

/// Those of the third draw.
const THIRD_DRAW: [u8; 4] = [9, 10, 11, 12];

/// The offices, in the order in which they are audited.
const OFFICES: [Office; 6] = [
    Office {
        name: b"office-honest",
        exchange: Exchange::Nowhere,
        public: FIRST_DRAW,
    },
    Office {
        name: b"office-moves-vote-1",
        exchange: Exchange::Everywhere,
        public: FIRST_DRAW,
    },
    Office {
        name: b"office-moves-vote-2",
        exchange: Exchange::Everywhere,
        public: SECOND_DRAW,
    },
    Office {
        name: b"office-moves-vote-3",
        exchange: Exchange::Everywhere,
        public: THIRD_DRAW,
    },
    Office {
        name: b"office-moves-vote-in-one-instance-1",
        exchange: Exchange::In(1),
        public: FIRST_DRAW,
    },
    Office {
        name: b"office-moves-vote-in-one-instance-2",
        exchange: Exchange::In(1),
        public: SECOND_DRAW,
    },
];

/// Audits the record of an office. Answers whether it was read, and written back as the same bytes.
fn tell_office<W: Write>(alloc: Global, office: &Office, out: &mut W) -> Result<bool, Fault> {
    let mut posted = record_of(alloc, office)?;
    let page = sealed_page(alloc, &mut posted);
    drop(posted);
    let page = page?;
    let told = tell(alloc, office.name, page.written(), out);
    drop(page);
    told
}

/// Audits the records of these offices, and answers how many of them were read and written back.
fn tell_each<W: Write>(alloc: Global, offices: &[Office], out: &mut W) -> Result<u32, Fault> {
    let mut same: u32 = 0;
    for office in offices {
        if tell_office(alloc, office, out)? {
            same = same.saturating_add(1);
        }
    }
    Ok(same)
}

/// Audits the records of all offices, and writes how many of them were read and written back, and how many rows such
/// offices altered.
pub(super) fn tell_offices<W: Write>(alloc: Global, out: &mut W) -> Result<(), Fault> {
    let same = tell_each(alloc, &OFFICES, out)?;
    tell_count(same, out)?;
    tell_altered(alloc, out)
}
