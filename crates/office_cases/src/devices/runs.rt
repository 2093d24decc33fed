//! One run of a command over devices of which calls fail.
use crate::commands::status_of;
use crate::fault::Fault;
use sg_keeper::{Keeper, MemoryKeeper, Rows};
use sg_outside::{Bytes, Page};
use sg_plan::Items;
use std::alloc::Global;

/// How many bytes a read gives at most.
const PIECE: usize = 64;

/// A command with what it is given.
#[derive(Clone, Copy)]
pub(super) struct Case<'a> {
    /// The words, with a space between two of them.
    pub words: &'a [u8],
    /// What goes in.
    pub input: &'a [u8],
    /// How many bytes it may write.
    pub room: usize,
}

/// The device of which a call fails.
#[derive(Clone, Copy, PartialEq, Eq)]
pub(super) enum Device {
    /// None.
    None,
    /// The input.
    Read,
    /// The output.
    Put,
    /// The keeper.
    Keep,
}

/// What came of a run.
#[derive(Debug, Drop)]
pub(super) struct Came {
    /// The status.
    pub status: u8,
    /// What was written.
    pub output: Vec<u8>,
    /// How many rows are kept, with the setup.
    pub rows: usize,
}

/// How many rows there are, with the setup.
fn count(rows: &Rows) -> usize {
    let mut count: usize = if rows.setup.is_some() { 1 } else { 0 };
    for length in [
        rows.ballots.len(),
        rows.stages.len(),
        rows.claims.len(),
        rows.voids.len(),
        rows.dones.len(),
    ] {
        count = count.saturating_add(length);
    }
    count
}

/// All rows of a keeper, also where its next call fails.
fn rows_of(alloc: Global, keeper: &mut MemoryKeeper) -> Result<Rows, Fault> {
    match keeper.load(alloc) {
        Ok(rows) => Ok(rows),
        Err(_) => Ok(keeper.load(alloc)?),
    }
}

/// How many rows a keeper has.
fn kept_by(alloc: Global, keeper: &mut MemoryKeeper) -> Result<usize, Fault> {
    let rows = rows_of(alloc, keeper)?;
    let kept = count(&rows);
    drop(rows);
    Ok(kept)
}

/// A keeper with the rows of another, whose calls in `fails` fail.
pub(super) fn keeper_like(
    alloc: Global,
    keeper: &mut MemoryKeeper,
    fails: Items<u32>,
) -> Result<MemoryKeeper, Fault> {
    let rows = rows_of(alloc, keeper)?;
    Ok(MemoryKeeper::new(alloc, rows, fails))
}

/// The call that fails of a device: none where another one is meant.
fn failing(alloc: Global, wanted: bool, call: u32) -> Result<Vec<u32>, Fault> {
    let calls = [call];
    let fails: &[u32] = if wanted { &calls } else { &[] };
    Ok(Vec::from_slice(alloc, fails)?)
}

/// The same of a keeper.
fn failing_keeper(alloc: Global, wanted: bool, call: u32) -> Result<Items<u32>, Fault> {
    let mut fails = Items::new(alloc);
    if wanted {
        fails.push(call)?;
    }
    Ok(fails)
}

/// A keeper with the rows of another, of which this call fails where the device is the keeper.
fn failing_like(
    alloc: Global,
    keeper: &mut MemoryKeeper,
    device: Device,
    call: u32,
) -> Result<MemoryKeeper, Fault> {
    let fails = failing_keeper(alloc, device == Device::Keep, call)?;
    keeper_like(alloc, keeper, fails)
}

/// Runs a command over a keeper and a page, where this read fails if the device is the input, and answers its status.
fn run_on(
    alloc: Global,
    case: &Case<'_>,
    keeper: &mut MemoryKeeper,
    device: Device,
    call: u32,
    page: &mut Page,
) -> Result<u8, Fault> {
    let reads = failing(alloc, device == Device::Read, call)?;
    let mut input = Bytes::new(Vec::from_slice(alloc, case.input)?, PIECE, reads);
    let status = status_of(alloc, case.words, &mut input, keeper, page);
    drop(input);
    status
}

/// What came of a run that ended with this status.
fn came_of(
    alloc: Global,
    keeper: &mut MemoryKeeper,
    page: &Page,
    status: u8,
) -> Result<Came, Fault> {
    let rows = kept_by(alloc, keeper)?;
    let output = Vec::from_slice(alloc, page.written())?;
    Ok(Came {
        status,
        output,
        rows,
    })
}

/// Runs a command over a keeper and a page, where this read fails if the device is the input.
fn run_written(
    alloc: Global,
    case: &Case<'_>,
    keeper: &mut MemoryKeeper,
    device: Device,
    call: u32,
    page: &mut Page,
) -> Result<Came, Fault> {
    let status = run_on(alloc, case, keeper, device, call, page)?;
    came_of(alloc, keeper, page, status)
}

/// Runs a command over a keeper, where this read or this put fails, as the device is; a put that fails writes one byte.
fn run_over(
    alloc: Global,
    case: &Case<'_>,
    keeper: &mut MemoryKeeper,
    device: Device,
    call: u32,
) -> Result<Came, Fault> {
    let puts = failing(alloc, device == Device::Put, call)?;
    let mut page = Page::new(alloc, case.room, puts, 1)?;
    let came = run_written(alloc, case, keeper, device, call, &mut page);
    drop(page);
    came
}

/// Runs a command over a keeper, and no call fails.
pub(super) fn run_case(
    alloc: Global,
    case: &Case<'_>,
    keeper: &mut MemoryKeeper,
) -> Result<Came, Fault> {
    run_over(alloc, case, keeper, Device::None, 0)
}

/// Runs a command over the rows of a keeper, where this call of this device fails. The keeper goes on as it was.
pub(super) fn run_failing(
    alloc: Global,
    case: &Case<'_>,
    keeper: &mut MemoryKeeper,
    device: Device,
    call: u32,
) -> Result<Came, Fault> {
    let mut like = failing_like(alloc, keeper, device, call)?;
    let came = run_over(alloc, case, &mut like, device, call);
    drop(like);
    came
}
