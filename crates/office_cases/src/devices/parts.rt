//! The parts of the input.
use crate::fault::Fault;
use std::alloc::Global;

/// What the commands are given.
#[derive(Clone, Copy)]
pub(super) struct Parts<'a> {
    /// The election file.
    pub file: &'a [u8],
    /// The asks.
    pub asks: &'a [u8],
    /// A scanner's file.
    pub scans: &'a [u8],
    /// What a court is handed behind the record.
    pub handed: &'a [u8],
    /// The record of another town.
    pub town: &'a [u8],
}

/// What stands in front of the first empty line, with its last feed, and what stands behind that line.
fn part_of(input: &[u8]) -> Result<(&[u8], &[u8]), Fault> {
    match input.windows(2).position(|two| matches!(two, b"\n\n")) {
        None => Err(Fault::Input),
        Some(at) => {
            let (part, rest) = input.split_at(at + 1);
            Ok((part, &rest[1..]))
        }
    }
}

/// The parts of the input.
pub(super) fn parts_of(input: &[u8]) -> Result<Parts<'_>, Fault> {
    let (file, rest) = part_of(input)?;
    let (asks, rest) = part_of(rest)?;
    let (scans, rest) = part_of(rest)?;
    let (handed, town) = part_of(rest)?;
    Ok(Parts {
        file,
        asks,
        scans,
        handed,
        town,
    })
}

/// The bytes of three parts, one behind another.
pub(super) fn joined(
    alloc: Global,
    front: &[u8],
    between: &[u8],
    behind: &[u8],
) -> Result<Vec<u8>, Fault> {
    let mut bytes = Vec::from_slice(alloc, front)?;
    bytes.extend_from_slice(between)?;
    bytes.extend_from_slice(behind)?;
    Ok(bytes)
}
