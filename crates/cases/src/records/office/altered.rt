//! How many rows of the small offices are altered, by plain loops over the five ways in which a row can be.
use super::posting::record_of;
use super::tables::{CANDIDATES, ENTRIES, INSTANCES, code_of, entry_of, left_pointer, place_of};
use super::{Exchange, FIRST_DRAW, Office, SECOND_DRAW, THIRD_DRAW};
use crate::fault::Fault;
use sg_plan::{Items, NoMemory, Side};
use sg_record::{BallotBlock, BlockFate, CastLine, Record, RowOpening};
use std::alloc::Global;
use std::io::Write;

/// What stands behind the halves of rows: what the office committed to, or only what its record posts.
#[derive(Clone, Copy, Debug)]
enum Completion {
    Committed(Exchange),
    Posted,
}

/// A half of a row: whether the record opens it, and the pointer behind it.
#[derive(Clone, Copy, Debug)]
struct Half {
    is_open: bool,
    pointer: Option<u32>,
}

/// The halves of a row.
#[derive(Clone, Copy, Debug)]
struct Halves {
    left: Half,
    right: Half,
}

/// An instance, with the code of each marked entry and the bit of each place.
#[derive(Clone, Copy)]
struct Instance<'a> {
    rows: &'a [Halves],
    flags: &'a [bool],
    codes: &'a [Option<u16>],
    places: &'a [bool],
}

/// The half of a row on a side.
fn half_on(side: Side, halves: &Halves) -> Half {
    match side {
        Side::Left => halves.left,
        Side::Right => halves.right,
    }
}

/// A half that the record opens, with this pointer.
fn open(pointer: u32) -> Half {
    Half {
        is_open: true,
        pointer: Some(pointer),
    }
}

/// The halves of a row, where the committed ones are these.
fn halves_of(opening: &RowOpening, left: Option<u32>, right: Option<u32>) -> Halves {
    let unopened = Halves {
        left: Half {
            is_open: false,
            pointer: left,
        },
        right: Half {
            is_open: false,
            pointer: right,
        },
    };
    match opening {
        RowOpening::Left(left) => Halves {
            left: open(left.value),
            right: unopened.right,
        },
        RowOpening::Right(right) => Halves {
            left: unopened.left,
            right: open(right.value),
        },
        RowOpening::Both(left, right) => Halves {
            left: open(left.value),
            right: open(right.value),
        },
    }
}

/// Another row has the pointer on the side.
fn is_repeated(instance: &Instance, side: Side, row: usize, pointer: u32) -> bool {
    for (other, halves) in instance.rows.iter().enumerate() {
        if other != row && half_on(side, halves).pointer == Some(pointer) {
            return true;
        }
    }
    false
}

/// The code that is posted of an entry, where it is marked.
fn posted_code(instance: &Instance, entry: u32) -> Option<u16> {
    match instance.codes.get(entry as usize) {
        Some(code) => *code,
        None => None,
    }
}

/// The place is set.
fn is_set(instance: &Instance, place: u32) -> bool {
    match instance.places.get(place as usize) {
        Some(bit) => *bit,
        None => false,
    }
}

/// The entry is marked, or the place is set.
fn is_counted(instance: &Instance, side: Side, pointer: u32) -> bool {
    match side {
        Side::Left => posted_code(instance, pointer).is_some(),
        Side::Right => is_set(instance, pointer),
    }
}

/// An unopened half has no pointer, or one of n or more, or another row's, or one to an entry whose mark or to a place
/// whose bit isn't the row's flag.
fn is_half_altered(instance: &Instance, side: Side, row: usize, flag: bool, half: Half) -> bool {
    if half.is_open {
        return false;
    }
    let Some(pointer) = half.pointer else {
        return true;
    };
    pointer >= ENTRIES
        || is_repeated(instance, side, row, pointer)
        || is_counted(instance, side, pointer) != flag
}

/// The left pointer leads to a marked entry, whose code isn't beside the candidate of the right pointer's place.
fn is_misprinted(instance: &Instance, halves: &Halves) -> bool {
    let Some(left) = halves.left.pointer else {
        return false;
    };
    let Some(right) = halves.right.pointer else {
        return false;
    };
    if left >= ENTRIES || right >= ENTRIES {
        return false;
    }
    match posted_code(instance, left) {
        Some(code) => code_of(entry_of(left / CANDIDATES, right % CANDIDATES)) != code,
        None => false,
    }
}

/// The row is altered in an unopened half, or has one and is misprinted.
fn is_altered(instance: &Instance, row: usize, flag: bool, halves: &Halves) -> bool {
    if halves.left.is_open && halves.right.is_open {
        return false;
    }
    is_half_altered(instance, Side::Left, row, flag, halves.left)
        || is_half_altered(instance, Side::Right, row, flag, halves.right)
        || is_misprinted(instance, halves)
}

/// How many rows of the instance are altered.
fn count_altered(instance: &Instance) -> u32 {
    let mut count: u32 = 0;
    for (row, (halves, flag)) in instance.rows.iter().zip(instance.flags).enumerate() {
        if is_altered(instance, row, *flag, halves) {
            count = count.saturating_add(1);
        }
    }
    count
}

/// Notes the code of a line of a cast ballot, if it has one.
fn note_line(codes: &mut Items<Option<u16>>, ballot: u32, line: &CastLine) {
    if let CastLine::Code(code) = line {
        let row = ballot.saturating_sub(1);
        let entry = row.saturating_mul(CANDIDATES).saturating_add(code.column) as usize;
        if entry < codes.len() {
            codes.replace(entry, Some(code.code));
        }
    }
}

/// Notes the codes of a cast ballot's block.
fn note_codes(codes: &mut Items<Option<u16>>, block: &BallotBlock) {
    if let BlockFate::Cast(lines) = &block.fate {
        for line in lines.as_slice() {
            note_line(codes, block.ballot, line);
        }
    }
}

/// The code of each entry that is marked.
fn codes_of(alloc: Global, record: &Record) -> Result<Items<Option<u16>>, NoMemory> {
    let mut codes = Items::filled(alloc, None, ENTRIES as usize)?;
    for block in record.ballots.as_slice() {
        note_codes(&mut codes, block);
    }
    Ok(codes)
}

/// The halves of all rows of an instance.
fn rows_of(
    alloc: Global,
    completion: Completion,
    instance: u16,
    openings: &[RowOpening],
) -> Result<Items<Halves>, NoMemory> {
    let mut rows = Items::new(alloc);
    for (row, opening) in (0..ENTRIES).zip(openings) {
        rows.push(match completion {
            Completion::Posted => halves_of(opening, None, None),
            Completion::Committed(exchange) => {
                let left = left_pointer(instance, row);
                let right = place_of(exchange, instance, left);
                halves_of(opening, Some(left), Some(right))
            }
        })?;
    }
    Ok(rows)
}

/// The list of the one race in an instance.
fn list_of<T>(lists: &Items<Items<Items<T>>>, instance: u16) -> &[T] {
    match lists.as_slice().first() {
        Some(race) => match race.as_slice().get(usize::from(instance)) {
            Some(list) => list.as_slice(),
            None => &[],
        },
        None => &[],
    }
}

/// How many of these rows of an instance of the record are altered.
fn altered_among(record: &Record, instance: u16, rows: &[Halves], codes: &[Option<u16>]) -> u32 {
    match record.places.as_slice().first() {
        Some(places) => count_altered(&Instance {
            rows,
            flags: list_of(&record.flags, instance),
            codes,
            places: places.as_slice(),
        }),
        None => 0,
    }
}

/// How many rows of an instance of the record are altered in the completion.
fn altered_rows(
    alloc: Global,
    record: &Record,
    completion: Completion,
    instance: u16,
) -> Result<u32, NoMemory> {
    let codes = codes_of(alloc, record)?;
    let rows = rows_of(alloc, completion, instance, list_of(&record.rows, instance))?;
    let count = altered_among(record, instance, rows.as_slice(), codes.as_slice());
    drop(rows);
    drop(codes);
    Ok(count)
}

/// Writes how many rows of each instance are altered in the completion.
fn put_counts<W: Write>(
    alloc: Global,
    record: &Record,
    completion: Completion,
    out: &mut W,
) -> Result<(), Fault> {
    for instance in 0..INSTANCES {
        let count = altered_rows(alloc, record, completion, instance)?;
        write!(out, " {count}")?;
    }
    Ok(())
}

/// Writes how many rows of each instance of an office's record are altered in what it committed to, and how many where
/// nothing is known but what the record posts.
fn tell_counts<W: Write>(
    alloc: Global,
    office: &Office,
    record: &Record,
    out: &mut W,
) -> Result<(), Fault> {
    out.write_all(office.name)?;
    out.write_all(b" committed")?;
    put_counts(alloc, record, Completion::Committed(office.exchange), out)?;
    out.write_all(b" posted")?;
    put_counts(alloc, record, Completion::Posted, out)?;
    out.write_all(b"\n")?;
    Ok(())
}

/// Writes how many rows of each instance an office altered in what it committed to, and how many are altered where
/// nothing is known but what its record posts: all, as each row is opened on one side alone.
fn tell_office<W: Write>(alloc: Global, office: &Office, out: &mut W) -> Result<(), Fault> {
    let record = record_of(alloc, office)?;
    let told = tell_counts(alloc, office, &record, out);
    drop(record);
    told
}

/// Writes what an honest office altered under a draw, and one that moves a vote in all instances.
fn tell_both<W: Write>(alloc: Global, public: [u8; 4], out: &mut W) -> Result<(), Fault> {
    let honest = Office {
        name: b"altered-by-honest",
        exchange: Exchange::Nowhere,
        public,
    };
    let moving = Office {
        name: b"altered-by-moves-vote",
        exchange: Exchange::Everywhere,
        public,
    };
    tell_office(alloc, &honest, out)?;
    tell_office(alloc, &moving, out)
}

/// Writes what offices altered, under each draw: an honest one no row, and one that moves a vote in all instances one row
/// in each.
pub(super) fn tell_altered<W: Write>(alloc: Global, out: &mut W) -> Result<(), Fault> {
    for public in [FIRST_DRAW, SECOND_DRAW, THIRD_DRAW] {
        tell_both(alloc, public, out)?;
    }
    Ok(())
}
