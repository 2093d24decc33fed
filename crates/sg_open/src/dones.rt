//! The rows of acts that were done.
ghost use Rattle.std.specs.Prelude.{◌≡◌, ◌<◌, ◌-◌, ◌^◌, length, take, get_or, true, None, IfErr, IfOk};
ghost use Rattle.std.specs.List.{list_all};
ghost use Rattle.std.specs.Str.{is_utf8};
ghost use Rattle.sg_keeper.specs.Rows.{done_before as before};
ghost use Rattle.sg_histories.specs.ValidRows.{at_table, climbs, done_fault as fault, is_stamp as is_stamp_of};
ghost use Rattle.sg_open.specs.inside.Finding.{IsDamage};

use crate::counts::{all_used, count_all, use_word};
use crate::fault::{OpenFault, bad_row};
use sg_keeper::DoneRow;
use sg_plan::{Items, NoMemory, Word};
use std::alloc::Global;

/// The key of the first row is the lower one.
fn done_before(a: &DoneRow, b: &DoneRow) -> bool
    ensures { result ≡ before a.now b.now }
{
    a.station < b.station || a.station == b.station && a.number < b.number
}

/// The row at the place is behind those before it.
#[tactic(auto, using(crate::proofs::Counting::climbs_at))]
fn climbs_at(rows: &Items<DoneRow>, at: usize, row: &DoneRow) -> bool
    requires { at < length rows.now }
    ensures { result ≡ climbs before (take at rows.now) row.now }
{
    if at == 0 {
        return true;
    }
    done_before(rows.get(at - 1), row)
}

/// The stamp is one of so many stations.
fn is_stamp(stations: usize, row: &DoneRow) -> bool
    requires { stations < 2 ^ 32 }
    ensures { result ≡ is_stamp_of stations row.now }
{
    if row.station < 0 || row.number < 0 {
        return false;
    }
    row.station < stations as i64 && row.number < 1 << 32
}

/// The place of the first bad done row, or one past the last where an act that is told was not done.
#[tactic(auto, using(crate::proofs::Passes::passing))]
fn done_fault(
    alloc: Global,
    stations: usize,
    told: &Items<Word>,
    rows: &Items<DoneRow>,
) -> Result<Option<usize>, NoMemory>
    requires stations { stations < 2 ^ 32 }
    requires utf8 { list_all is_utf8 told.now ≡ true }
    ensures { IfOk result (λ found. found ≡ fault stations told.now rows.now) }
{
    let mut counts = count_all(alloc, told)?;
    for at in 0..rows.len() {
        let row = rows.get(at);
        if !climbs_at(rows, at, row) {
            return Ok(Some(at));
        }
        if !is_stamp(stations, row) {
            return Ok(Some(at));
        }
        if !use_word(&mut counts, &row.act) {
            return Ok(Some(at));
        }
    }
    if all_used(&counts, told) {
        Ok(None)
    } else {
        Ok(Some(rows.len()))
    }
}

/// Judges the rows of acts that were done, where these are the texts of the acts that the other tables tell.
pub fn check_dones(
    alloc: Global,
    stations: usize,
    told: &Items<Word>,
    rows: &Items<DoneRow>,
) -> Result<(), OpenFault>
    requires stations { stations < 2 ^ 32 }
    requires utf8 { list_all is_utf8 told.now ≡ true }
    ensures good { IfOk result (λ done. fault stations told.now rows.now ≡ None) }
    ensures fault { IfErr result (λ f. IsDamage f (at_table 5 (fault stations told.now rows.now))) }
{
    know_few(rows.as_slice());
    let found = done_fault(alloc, stations, told, rows)?;
    match found {
        Some(at) => Err(bad_row(5, at)),
        None => Ok(()),
    }
}

/// There are fewer rows than numbers.
fn know_few(rows: &[DoneRow])
    ensures { length rows.now < 2 ^ 64 - 1 }
{}

/// The same row.
fn copy_done(alloc: Global, row: &DoneRow) -> Result<DoneRow, NoMemory>
    ensures { IfOk result (λ copy. copy ≡ row.now) }
{
    Ok(DoneRow {
        station: row.station,
        number: row.number,
        act: row.act.copy(alloc)?,
    })
}

/// The same rows.
pub fn copy_dones(alloc: Global, rows: &Items<DoneRow>) -> Result<Items<DoneRow>, NoMemory>
    ensures { IfOk result (λ copy. copy ≡ rows.now) }
{
    let mut copy = Items::with_room(alloc, rows.len())?;
    for at in 0..rows.len() {
        copy.push(copy_done(alloc, rows.get(at))?)?;
    }
    Ok(copy)
}
