//! Each call of each device failing in turn.
use super::runs::{Came, Case, Device, run_case, run_failing};
use crate::fault::Fault;
use sg_keeper::MemoryKeeper;
use std::alloc::Global;
use std::io::Write;

/// How many calls of a device are tried at most.
const MOST_CALLS: u32 = 10_000;

/// What came of the runs of which one call of a device failed.
#[derive(Clone, Copy, Debug)]
struct Tally {
    /// How many runs there were.
    runs: u32,
    /// How many of these ended with the device's status.
    ended: u32,
    /// How many wrote a front of what is written without a fault.
    fronts: u32,
    /// How many answers say that the keeper failed.
    lost: u32,
    /// How many rows were kept behind them, in all.
    rows: u32,
}

/// The name of a device, and the status that its fault ends a command with.
fn named(device: Device) -> (&'static str, u8) {
    match device {
        Device::None => ("none", 0),
        Device::Read => ("read", 3),
        Device::Put => ("put", 4),
        Device::Keep => ("keeper", 5),
    }
}

/// How many lines say that the keeper failed.
fn lost_in(output: &[u8]) -> u32 {
    let lines = output.split(|byte| *byte == b'\n');
    let lost = lines.filter(|line| line.ends_with(b"\"status\":503}"));
    u32::try_from(lost.count()).unwrap_or(u32::MAX)
}

/// One more where this is so.
fn add(count: u32, is_so: bool) -> u32 {
    if is_so {
        count.saturating_add(1)
    } else {
        count
    }
}

/// The tally with one more run.
fn with_run(tally: Tally, came: &Came, ordinary: &Came, status: u8) -> Tally {
    let rows = u32::try_from(came.rows).unwrap_or(u32::MAX);
    Tally {
        runs: tally.runs.saturating_add(1),
        ended: add(tally.ended, came.status == status),
        fronts: add(tally.fronts, ordinary.output.starts_with(&came.output)),
        lost: tally.lost.saturating_add(lost_in(&came.output)),
        rows: tally.rows.saturating_add(rows),
    }
}

/// Counts a run of a case of which one call of the device fails. Answers whether none did.
fn count_run(
    alloc: Global,
    case: &Case<'_>,
    keeper: &mut MemoryKeeper,
    ordinary: &Came,
    failing: (Device, u32),
    tally: &mut Tally,
) -> Result<bool, Fault> {
    let (device, call) = failing;
    let (_, status) = named(device);
    let came = run_failing(alloc, case, keeper, device, call)?;
    let is_ordinary = came.status == ordinary.status && came.output == ordinary.output;
    if !is_ordinary {
        *tally = with_run(*tally, &came, ordinary, status);
    }
    drop(came);
    Ok(is_ordinary)
}

/// The runs of a case of which one call of the device fails, until none does.
fn tally_of(
    alloc: Global,
    case: &Case<'_>,
    keeper: &mut MemoryKeeper,
    ordinary: &Came,
    device: Device,
) -> Result<Tally, Fault> {
    let mut tally = Tally {
        runs: 0,
        ended: 0,
        fronts: 0,
        lost: 0,
        rows: 0,
    };
    for call in 0..MOST_CALLS {
        if count_run(alloc, case, keeper, ordinary, (device, call), &mut tally)? {
            return Ok(tally);
        }
    }
    Err(Fault::Input)
}

/// Writes what came of the runs of a case where the device fails.
fn tell_device<W: Write>(
    alloc: Global,
    case: &Case<'_>,
    keeper: &mut MemoryKeeper,
    ordinary: &Came,
    device: Device,
    out: &mut W,
) -> Result<(), Fault> {
    let tally = tally_of(alloc, case, keeper, ordinary, device)?;
    let (name, status) = named(device);
    write!(
        out,
        "  {name}: {} runs, {} with {status}",
        tally.runs, tally.ended
    )?;
    write!(out, ", {} fronts, {} lost", tally.fronts, tally.lost)?;
    writeln!(out, ", {} rows", tally.rows)?;
    Ok(())
}

/// Writes what came of a case where no call fails.
fn tell_ordinary<W: Write>(case: &Case<'_>, came: &Came, out: &mut W) -> Result<(), Fault> {
    out.write_all(case.words)?;
    writeln!(
        out,
        ": {}, {} bytes, {} rows",
        came.status,
        came.output.len(),
        came.rows
    )?;
    Ok(())
}

/// Writes what came of a case where no call fails, and then with each call of each device failing in turn.
fn tell_devices<W: Write>(
    alloc: Global,
    case: &Case<'_>,
    keeper: &mut MemoryKeeper,
    ordinary: &Came,
    out: &mut W,
) -> Result<(), Fault> {
    tell_ordinary(case, ordinary, out)?;
    tell_device(alloc, case, keeper, ordinary, Device::Read, out)?;
    tell_device(alloc, case, keeper, ordinary, Device::Put, out)?;
    tell_device(alloc, case, keeper, ordinary, Device::Keep, out)
}

/// Runs a case over the rows of a keeper with each call of each device failing in turn, and then over the keeper itself.
pub(super) fn tell_case<W: Write>(
    alloc: Global,
    case: &Case<'_>,
    keeper: &mut MemoryKeeper,
    out: &mut W,
) -> Result<Came, Fault> {
    let ordinary = run_failing(alloc, case, keeper, Device::None, 0)?;
    let told = tell_devices(alloc, case, keeper, &ordinary, out);
    drop(ordinary);
    told?;
    run_case(alloc, case, keeper)
}
