//! Files that are as long as they may be, and others that are longer by one.
use sg_clerk::init;
use sg_clerk::scans::answer_scans;
use sg_keeper::{MemoryKeeper, Rows};
use sg_outside::{Bytes, Outcome, Page};
use sg_plan::{Items, NoMemory, Word};
use sg_scans::read_scans;
use std::alloc::Global;
use std::test::Fail;

/// An election file.
const ELECTION: &[u8] =
    b"{\"plan\":{\"version\":2,\"name\":\"E\",\"instances\":1,\"races\":[{\"name\":\"Mayor\",\"candidates\":[\"Ada\",\"Ben\"],\"votes\":1}],\"styles\":[{\"name\":\"All\",\"races\":[0]}],\"runs\":[{\"style\":0,\"ballots\":1}]},\"seed\":\"ff00000000000000000000000000000000000000000000000000000000000001\",\"secrets\":[\"000102030405060708090a0b0c0d0e0f\"]}";

/// The text of the setup of that election's office.
const SETUP: &[u8] = b"scantegrity2 2
election E
instances 1
race Mayor 2 1
cand Ada
cand Ben
style All 0
ballots 0 1
seed ff00000000000000000000000000000000000000000000000000000000000001
secret 000102030405060708090a0b0c0d0e0f
";

/// The first line of a scanner's file.
const HEADER: &[u8] = b"station,secret,ref,ballot,marks\n";

/// The text, and behind it this byte up to so many bytes.
fn padded(alloc: Global, text: &[u8], byte: u8, length: usize) -> Result<Vec<u8>, Fail> {
    let mut file = Vec::from_slice(alloc, text)?;
    file.resize(length, byte)?;
    Ok(file)
}

/// A keeper with this setup, or with no rows.
fn keeper_of(alloc: Global, setup: Option<Word>) -> MemoryKeeper {
    let rows = Rows {
        setup,
        ballots: Items::new(alloc),
        stages: Items::new(alloc),
        claims: Items::new(alloc),
        voids: Items::new(alloc),
        dones: Items::new(alloc),
    };
    MemoryKeeper::new(alloc, rows, Items::new(alloc))
}

/// Sets an office up, and says how that ended.
fn begin(alloc: Global, file: Vec<u8>, page: &mut Page) -> Outcome {
    let mut input = Bytes::new(file, 65_536, Vec::new(alloc));
    let mut keeper = keeper_of(alloc, None);
    init(alloc, &mut input, &mut keeper, page)
}

/// An election file of so many bytes ends so, and this is written.
fn begins(alloc: Global, length: usize, outcome: Outcome, text: &str) -> Result<bool, Fail> {
    let mut page = Page::new(alloc, 40, Vec::new(alloc), 0)?;
    let file = padded(alloc, ELECTION, b' ', length)?;
    Ok(begin(alloc, file, &mut page) == outcome && page.written() == text.as_bytes())
}

#[test]
fn the_longest_election_file_has_a_mebibyte(rt: HostRuntime) -> Result<(), Fail> {
    assert!(rt; begins(rt.alloc(), 1_048_576, Outcome::Done, "begun\n")?);
    assert!(rt; begins(rt.alloc(), 1_048_577, Outcome::Refused, "refused size\n")?);
    Ok(())
}

/// Answers a scanner's file over the office of this setup, and says how that ended.
fn scan(alloc: Global, file: Vec<u8>, setup: Word, page: &mut Page) -> Outcome {
    let mut input = Bytes::new(file, 65_536, Vec::new(alloc));
    let mut keeper = keeper_of(alloc, Some(setup));
    answer_scans(alloc, &mut input, &mut keeper, page)
}

/// The text of the setup.
fn setup_text(alloc: Global) -> Result<Word, NoMemory> {
    let mut text = Word::new(alloc);
    text.extend(SETUP)?;
    Ok(text)
}

/// A scanner's file of so many bytes ends so, and this is written.
fn scans(alloc: Global, length: usize, outcome: Outcome, text: &str) -> Result<bool, Fail> {
    let mut page = Page::new(alloc, 40, Vec::new(alloc), 0)?;
    let file = padded(alloc, HEADER, b'\n', length)?;
    let setup = setup_text(alloc)?;
    Ok(scan(alloc, file, setup, &mut page) == outcome && page.written() == text.as_bytes())
}

#[test]
fn a_scanners_file_has_at_most_16_mebibytes(rt: HostRuntime) -> Result<(), Fail> {
    assert!(rt; scans(rt.alloc(), 16_777_216, Outcome::Done, "")?);
    assert!(rt; scans(rt.alloc(), 16_777_217, Outcome::Refused, "refused size\n")?);
    Ok(())
}

/// A scanner's file with so many records, of one byte each.
fn file_with(alloc: Global, records: usize) -> Result<Vec<u8>, Fail> {
    let mut file = Vec::from_slice(alloc, HEADER)?;
    for _record in 0..records {
        file.extend_from_slice(b"x\n")?;
    }
    Ok(file)
}

/// How many records are read of such a file: none where it is refused.
fn count_read(alloc: Global, records: usize) -> Result<usize, Fail> {
    let file = file_with(alloc, records)?;
    match read_scans(alloc, &file) {
        Ok(lines) => Ok(lines.len()),
        Err(_) => Ok(0),
    }
}

#[test]
fn a_scanners_file_has_at_most_100_000_records(rt: HostRuntime) -> Result<(), Fail> {
    assert!(rt; count_read(rt.alloc(), 100_000)? == 100_000);
    assert!(rt; count_read(rt.alloc(), 100_001)? == 0);
    Ok(())
}
