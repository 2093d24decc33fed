//! Asks, how many of them are accepted, and what time they take.
ghost use Rattle.std.specs.Prelude.{IfOk};
ghost use Rattle.sg_keeper.specs.SetupText.{IsSetup};
ghost use Rattle.sg_talk.specs.Answers.{IsWritable};

use super::rows::no_rows;
use super::setup::{secret_of, setup_text};
use crate::stop::Stop;
use sg_keeper::{MemoryKeeper, Setup};
use sg_office::Office;
use sg_plan::{Items, Word};
use sg_talk::{Answered, answer_to, version_of};
use std::alloc::Global;
use std::time::{CpuClock, Duration};

/// How many ballots the office has.
const BALLOTS: u32 = 20_000;

/// The ballot before the first that is asked about in time: kept acts are on ballots up to this one.
const LAST_KEPT: u32 = BALLOTS / 2;

/// How many asks are timed together: so few that they are seldom disturbed.
const BATCH: u32 = 100;

/// How many small pieces of memory are taken before any ask.
const TAKEN: u32 = 100_000;

/// An office, and the keeper of its rows.
#[derive(Drop)]
struct Desk {
    office: Office,
    keeper: MemoryKeeper,
}

/// What became of asks.
#[derive(Drop)]
pub(super) struct Asked {
    /// How many asks were accepted, in time and before.
    pub(super) accepted: u32,
    /// Of each batch in time, the processor time of its asks.
    pub(super) times: Items<Duration>,
}

/// The setup of this text.
fn setup_of(alloc: Global, text: &str) -> Result<Setup, Stop>
    ensures { IfOk result IsSetup }
{
    match Setup::read(alloc, text.as_bytes())? {
        Some(setup) => Ok(setup),
        None => Err(Stop::Plan),
    }
}

/// An office that has accepted nothing.
fn office_of(alloc: Global) -> Result<Office, Stop> {
    let text = setup_text(alloc, BALLOTS)?;
    let setup = setup_of(alloc, text.as_str())?;
    Ok(Office::new(alloc, setup)?)
}

/// An office that has accepted nothing, with a keeper in memory that keeps nothing yet.
fn desk_of(alloc: Global) -> Result<Desk, Stop> {
    let office = office_of(alloc)?;
    let keeper = MemoryKeeper::new(alloc, no_rows(alloc), Items::new(alloc));
    Ok(Desk { office, keeper })
}

/// Whether an ask of this answer is accepted: 1 where it is, and 0 where it is refused. The text of the reply is written.
fn accepted(alloc: Global, version: u32, answer: &Answered) -> Result<u32, Stop>
    requires { IsWritable version answer.now }
{
    let text = answer.text(alloc, version)?;
    drop(text);
    match answer.status() {
        200 => Ok(1),
        _ => Ok(0),
    }
}

/// Asks, and writes the reply's text. 1 where the ask is accepted, and 0 where it is refused.
fn ask(alloc: Global, desk: &mut Desk, text: &str) -> Result<u32, Stop> {
    let version = version_of(&desk.office);
    let answer = answer_to(alloc, &mut desk.office, &mut desk.keeper, text.as_bytes())?;
    let count = accepted(alloc, version, &answer);
    drop(answer);
    count
}

/// A station asks to scan a ballot.
fn scan(alloc: Global, desk: &mut Desk, station: u32, ballot: u32) -> Result<u32, Stop> {
    let secret = secret_of(station);
    let candidate = ballot % 2;
    let text = format!(in alloc;
        "{{\"ask\":\"scan\",\"station\":{station},\"secret\":\"{secret}\",\"ref\":{ballot},\"ballot\":{ballot},\"marks\":[[0,{candidate}]]}}"
    )?;
    ask(alloc, desk, text.as_str())
}

/// A station asks to void a ballot.
fn void(alloc: Global, desk: &mut Desk, station: u32, ballot: u32) -> Result<u32, Stop> {
    let secret = secret_of(station);
    let text = format!(in alloc;
        "{{\"ask\":\"void\",\"station\":{station},\"secret\":\"{secret}\",\"ref\":{ballot},\"ballot\":{ballot}}}"
    )?;
    ask(alloc, desk, text.as_str())
}

/// A station asks to scan the ballots from the one behind the first number to the last. How many asks are accepted.
fn scan_all(
    alloc: Global,
    desk: &mut Desk,
    station: u32,
    first: u32,
    last: u32,
) -> Result<u32, Stop> {
    let mut accepted: u32 = 0;
    for ballot in first..last {
        accepted = accepted.saturating_add(scan(alloc, desk, station, ballot + 1)?);
    }
    Ok(accepted)
}

/// A station asks to void the first ballots. How many asks are accepted.
fn void_all(alloc: Global, desk: &mut Desk, station: u32, last: u32) -> Result<u32, Stop> {
    let mut accepted: u32 = 0;
    for ballot in 0..last {
        accepted = accepted.saturating_add(void(alloc, desk, station, ballot + 1)?);
    }
    Ok(accepted)
}

/// A piece of memory as small as an act's text.
fn piece(alloc: Global) -> Result<Word, Stop> {
    let mut piece = Word::new(alloc);
    piece.extend(b"scan 10001 0:1")?;
    Ok(piece)
}

/// Takes memory in pieces as small as an act's text. What the reading of a setup lets go is taken by them, so that what an
/// act keeps is memory that was never used before, behind few kept acts as behind many.
fn take_memory(alloc: Global, taken: &mut Items<Word>) -> Result<(), Stop> {
    for _ in 0..TAKEN {
        taken.push(piece(alloc)?)?;
    }
    Ok(())
}

/// A station asks to scan a batch of ballots, and the asks are timed.
fn time_batch(
    rt: &HostRuntime,
    desk: &mut Desk,
    station: u32,
    batch: u32,
    asked: &mut Asked,
) -> Result<(), Stop> {
    let first = LAST_KEPT.saturating_add(batch.saturating_mul(BATCH));
    let start = rt.process_cpu_time()?;
    let scans = scan_all(
        rt.alloc(),
        desk,
        station,
        first,
        first.saturating_add(BATCH),
    )?;
    let time = rt.process_cpu_time()?.saturating_sub(start);
    asked.times.push(time)?;
    asked.accepted = asked.accepted.saturating_add(scans);
    Ok(())
}

/// A station asks to scan the ballots behind the kept ones, so many batches of them. The asks are timed.
fn time_scans(
    rt: &HostRuntime,
    desk: &mut Desk,
    station: u32,
    batches: u32,
    asked: &mut Asked,
) -> Result<(), Stop> {
    for batch in 0..batches {
        time_batch(rt, desk, station, batch, asked)?;
    }
    Ok(())
}

/// Two stations ask to scan and to void the first ballots, which is to be kept.
fn keep_acts(
    alloc: Global,
    desk: &mut Desk,
    station: u32,
    last: u32,
    asked: &mut Asked,
) -> Result<(), Stop> {
    let other = match station {
        0 => 1,
        _ => 0,
    };
    let scans = scan_all(alloc, desk, station, 0, last)?;
    let voids = void_all(alloc, desk, other, last)?;
    asked.accepted = scans.saturating_add(voids);
    Ok(())
}

/// Asks at a desk, with memory taken before any ask.
fn ask_at(
    rt: &HostRuntime,
    desk: &mut Desk,
    numbers: [u32; 3],
    asked: &mut Asked,
) -> Result<(), Stop> {
    let [kept, asks, station] = numbers;
    keep_acts(rt.alloc(), desk, station, LAST_KEPT.min(kept / 2), asked)?;
    time_scans(rt, desk, station, asks / BATCH, asked)
}

/// The same, once memory is taken.
fn ask_behind(
    rt: &HostRuntime,
    desk: &mut Desk,
    numbers: [u32; 3],
    asked: &mut Asked,
) -> Result<(), Stop> {
    let mut taken = Items::new(rt.alloc());
    let ended = match take_memory(rt.alloc(), &mut taken) {
        Ok(()) => ask_at(rt, desk, numbers, asked),
        Err(stop) => Err(stop),
    };
    drop(taken);
    ended
}

/// Asks so many scans behind so many kept acts, by the first station or by the second: the numbers are those of the kept
/// acts, of the asks and of the station. The scans are of the same ballots however many acts are kept, so that the asks
/// are the same. Batches that are not full are left out.
pub(super) fn answers(rt: &HostRuntime, numbers: [u32; 3], asked: &mut Asked) -> Result<(), Stop> {
    let mut desk = desk_of(rt.alloc())?;
    let ended = ask_behind(rt, &mut desk, numbers, asked);
    drop(desk);
    ended
}
