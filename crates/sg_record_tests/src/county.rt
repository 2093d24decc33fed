//! A county of one small record.
use crate::texts::three_ballots;
use sg_check::Total;
use sg_county::{CountyVerdict, county};
use sg_plan::NoMemory;
use std::alloc::Global;
use std::test::Fail;

/// The totals of the record of three ballots.
const TOTALS: [Total; 2] = [
    Total {
        race: 0,
        candidate: 0,
        count: 1,
    },
    Total {
        race: 0,
        candidate: 1,
        count: 0,
    },
];

/// The county gets yes, with these totals.
fn is_counted(alloc: Global, text: &[u8]) -> Result<bool, NoMemory> {
    match county(alloc, text)? {
        CountyVerdict::Yes(totals) => Ok(totals.as_slice() == TOTALS.as_slice()),
        _ => Ok(false),
    }
}

#[test]
fn one_part_is_counted(rt: HostRuntime) -> Result<(), Fail> {
    assert!(rt; is_counted(rt.alloc(), three_ballots())?);
    Ok(())
}
