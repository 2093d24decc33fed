//! The rows of the acts that were done, in a run of each station and a tree of what came late.
ghost use Rattle.std.specs.Prelude.{◌≡◌, pos, true, [], reverse, IfOk, OnOk, OnErr};
ghost use Rattle.std.specs.Option.{option_copied};
ghost use Rattle.sg_keeper.specs.Laws.{Rises};
ghost use Rattle.sg_keeper.specs.Rows.{done_before, done_is, is_new, put};
ghost use Rattle.sg_histories.specs.Standing.{text_at};
ghost use Rattle.sg_office.specs.Acts.{without};
ghost use Rattle.sg_office.specs.inside.Runs.{Inserted, Stations, acts_of, ends_below, row_of, rows_of_late, rows_of_runs, text_in};

use crate::run::Run;
use sg_keeper::DoneRow;
use sg_plan::{Items, NoMemory, Word};
use std::alloc::Global;
use std::collections::BTreeMap;
use std::marker::Model;

/// The rows of the acts that were done, rising by station and number. Contracts see them as a list.
///
/// An act whose number is above all others of its station's run goes to the end of that run, and no other act moves, so
/// it takes no longer behind many acts than behind few. Any other is late, and goes into a tree. So a stamp that is above
/// its station's run is not looked for in it, and any other is found in the logarithm of how many acts there are. The row
/// that was put in last is taken back as fast; to take back one from the middle of a run moves those behind it in its
/// block.
#[derive(Debug, Drop)]
pub struct DoneList {
    /// Of each station, the acts whose numbers came rising.
    runs: BTreeMap<i64, Run>,
    /// Of each station and number, the texts of the other acts.
    late: BTreeMap<(i64, i64), Word>,
}

impl Model for DoneList {
    ghost use Rattle.std.specs.Prelude.{◌++◌, List};
    ghost use Rattle.sg_keeper.specs.declared.rows.DoneRow.{DoneRow};
    ghost use Rattle.sg_office.specs.inside.Runs.{IsWhole, gathered, rows_in};

    ghost Value = { List DoneRow };

    ghost view = { λ dones. gathered (rows_in dones.runs.entries dones.late.entries) };

    ghost invariant = { λ dones. IsWhole dones.runs.entries dones.late.entries };
}

/// Whether the number is above all numbers of the station's run.
fn is_last(runs: &BTreeMap<i64, Run>, station: i64, number: i64) -> bool
    ensures { result ≡ ends_below station number runs.now.entries }
{
    match runs.get(&station) {
        None => true,
        Some(run) => run.is_below(number),
    }
}

/// Puts an act behind the run of its station.
fn push(
    alloc: Global,
    runs: &mut BTreeMap<i64, Run>,
    station: i64,
    number: i64,
    text: Word,
) -> Result<(), NoMemory>
    requires last { ends_below station number runs.old.entries ≡ true }
    ensures order { Stations runs.new.entries }
    ensures ok { OnOk result (Inserted (row_of station (number, text)) (rows_of_runs runs.old.entries) (rows_of_runs runs.new.entries)) }
    ensures err { OnErr result (rows_of_runs runs.new.entries ≡ rows_of_runs runs.old.entries) }
{
    if let Some(run) = runs.get_mut(&station) {
        return run.push(alloc, number, text);
    }
    let mut run = Run::new(alloc);
    run.push(alloc, number, text)?;
    runs.insert(station, run)?;
    Ok(())
}

/// Puts an act in by its station and number.
fn put_late(
    late: &mut BTreeMap<(i64, i64), Word>,
    station: i64,
    number: i64,
    text: Word,
) -> Result<(), NoMemory>
    requires new { is_new done_is (row_of station (number, text)) (rows_of_late late.old.entries) ≡ true }
    ensures ok { OnOk result (Inserted (row_of station (number, text)) (rows_of_late late.old.entries) (rows_of_late late.new.entries)) }
    ensures err { OnErr result (rows_of_late late.new.entries ≡ rows_of_late late.old.entries) }
{
    late.insert((station, number), text)?;
    Ok(())
}

/// The text of the act that the station's run has under the number.
fn text_in(runs: &BTreeMap<i64, Run>, station: i64, number: i64) -> Option<&Word>
    ensures { option_copied result ≡ text_in number (acts_of station runs.now.entries) }
{
    runs.get(&station)?.text_of(number)
}

/// Takes an act out of the run of its station.
fn take_out(runs: &mut BTreeMap<i64, Run>, done: &DoneRow)
    ensures order { Stations runs.new.entries }
    ensures rows { rows_of_runs runs.new.entries ≡ without done.now (rows_of_runs runs.old.entries) }
{
    if let Some(run) = runs.get_mut(&done.station) {
        run.take_out(done.number);
    }
}

/// Takes out the act of a station and number.
fn take_late(late: &mut BTreeMap<(i64, i64), Word>, done: &DoneRow)
    ensures { rows_of_late late.new.entries ≡ without done.now (rows_of_late late.old.entries) }
{
    late.remove(&(done.station, done.number));
}

/// The rows from the last to the first, which are moved.
fn reversed(alloc: Global, mut rows: Items<DoneRow>) -> Result<Items<DoneRow>, NoMemory>
    ensures { IfOk result (λ turned. turned ≡ reverse rows) }
{
    let mut turned = Items::with_room(alloc, rows.len())?;
    'rows: while rows.len() > 0 {
        turned.push(rows.remove(rows.len() - 1))?;
    }
    Ok(turned)
}

impl DoneList {
    /// No rows. It takes no memory.
    pub fn new(alloc: Global) -> DoneList
        ensures { result ≡ [] }
    {
        DoneList {
            runs: BTreeMap::new(alloc),
            late: BTreeMap::new(alloc),
        }
    }

    /// These rows, which are moved and not copied.
    pub fn of(alloc: Global, rows: Items<DoneRow>) -> Result<DoneList, NoMemory>
        requires { Rises done_before rows }
        ensures { IfOk result (λ dones. dones ≡ rows) }
    {
        let mut rest = reversed(alloc, rows)?;
        let mut dones = DoneList::new(alloc);
        'rows: while rest.len() > 0 {
            let row = rest.remove(rest.len() - 1);
            dones.add(alloc, row.station, row.number, row.act)?;
        }
        Ok(dones)
    }

    /// The text of the act to which a station gave the number.
    pub fn text_at(&self, station: u32, number: u32) -> Option<&Word>
        ensures { option_copied result ≡ text_at station number self.now }
    {
        let station = i64::from(station);
        let number = i64::from(number);
        if let Some(text) = text_in(&self.runs, station, number) {
            return Some(text);
        }
        self.late.get(&(station, number))
    }

    /// Puts an act in at its place.
    fn add(&mut self, alloc: Global, station: i64, number: i64, text: Word) -> Result<(), NoMemory>
        requires { is_new done_is (row_of station (number, text)) self.old ≡ true }
        ensures ok { OnOk result (self.new ≡ put done_before (row_of station (number, text)) self.old) }
        ensures err { OnErr result (self.new ≡ self.old) }
    {
        if is_last(&self.runs, station, number) {
            push(alloc, &mut self.runs, station, number, text)
        } else {
            put_late(&mut self.late, station, number, text)
        }
    }

    /// Puts a copy of a row at its place. Only this and `of` take memory.
    pub fn put(&mut self, alloc: Global, done: &DoneRow) -> Result<(), NoMemory>
        requires { is_new done_is done.now self.old ≡ true }
        ensures ok { OnOk result (self.new ≡ put done_before done.now self.old) }
        ensures err { OnErr result (self.new ≡ self.old) }
    {
        let text = done.act.copy(alloc)?;
        self.add(alloc, done.station, done.number, text)
    }

    /// Takes back the row that has the key of this one.
    pub fn take_back(&mut self, done: &DoneRow)
        ensures { self.new ≡ without done.now self.old }
    {
        take_out(&mut self.runs, done);
        take_late(&mut self.late, done);
    }
}
