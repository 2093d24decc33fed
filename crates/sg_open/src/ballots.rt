//! The rows of ballots.
ghost use Rattle.std.specs.Prelude.{◌≡◌, ◌<◌, ◌≤◌, true, None, [], length, take, IfOk, IfErr, OnOk};
ghost use Rattle.std.specs.BTreeMap.{get_by_text};
ghost use Rattle.std.specs.List.{list_all};
ghost use Rattle.std.specs.Str.{is_utf8};
ghost use Rattle.sg_plan.specs.Ballots.{ballots_of};
ghost use Rattle.sg_plan.specs.Limits.{first_bad};
ghost use Rattle.sg_desks.specs.ActReading.{act_in};
ghost use Rattle.sg_keeper.specs.Rows.{ballot_before as before};
ghost use Rattle.sg_histories.specs.ValidRows.{at_table, ballot_keeps, climbs};
ghost use Rattle.sg_open.specs.inside.Finding.{IsDamage, found_after, found_with, nothing_of, scanner_by, station_word as station_word_of};
ghost use Rattle.sg_open.specs.inside.Telling.{act_fate, ballot_told, fit_fate as fit_fate_of};

use crate::fault::{OpenFault, bad_row};
use crate::numbers::{ballot_number, small};
use crate::slots::unused_slots;
use crate::stations::station_in;
use crate::texts::ballot_text;
use sg_acts::Act;
use sg_desks::act_of;
use sg_histories::Slot;
use sg_keeper::BallotRow;
use sg_plan::{BallotIndex, Fate, Items, NoMemory, Word};
use std::alloc::Global;
use std::collections::BTreeMap;

/// What a row tells of its ballot.
#[derive(Debug, Drop)]
pub struct BallotTold {
    /// The ballot's number.
    pub ballot: u32,
    /// The text of the act.
    pub text: Word,
    /// What the act made of the ballot.
    pub fate: Fate,
}

/// What rows tell.
#[derive(Debug, Drop)]
pub struct Found {
    /// The texts of the acts.
    pub told: Items<Word>,
    /// What is known of each ballot.
    pub slots: Items<Slot>,
    /// Of each ballot, the station of the first done row that has the text of its scan.
    pub scanners: Items<Option<i64>>,
}

/// The fate, where it fits the ballot.
fn fit_fate(index: &BallotIndex, ballot: u32, fate: Fate) -> Option<Fate>
    ensures { result ≡ fit_fate_of index.now ballot fate }
{
    if index.fits(ballot, &fate) {
        Some(fate)
    } else {
        None
    }
}

/// What an act makes of its ballot, where it fits the plan.
fn fate_of_act(index: &BallotIndex, act: Act) -> Option<Fate>
    ensures { result ≡ act_fate index.now act }
{
    match act {
        Act::Scan(ballot, marks) => fit_fate(index, ballot, Fate::Cast(marks)),
        Act::Spoil(ballot) => fit_fate(index, ballot, Fate::Spoiled),
        Act::Audit(ballot, paper) => fit_fate(index, ballot, Fate::Audited(paper)),
        Act::Close => None,
        Act::Draw(_) => None,
        Act::Claim(_, _, _) => None,
        Act::Void(_) => None,
    }
}

/// What a row tells of its ballot, where its act is one of the plan's.
fn tell_ballot(
    alloc: Global,
    index: &BallotIndex,
    row: &BallotRow,
) -> Result<Option<BallotTold>, NoMemory>
    ensures told { IfOk result (λ found. found ≡ ballot_told index.now row.now) }
{
    let Some(ballot) = ballot_number(index, row.ballot) else {
        return Ok(None);
    };
    let Some(text) = ballot_text(alloc, ballot, row)? else {
        return Ok(None);
    };
    let Some(act) = act_of(alloc, index.plan().version, text.bytes())? else {
        return Ok(None);
    };
    match fate_of_act(index, act) {
        Some(fate) => Ok(Some(BallotTold { ballot, text, fate })),
        None => Ok(None),
    }
}

/// The row at the place is behind those before it.
#[tactic(auto, using(crate::proofs::Counting::climbs_at))]
fn climbs_at(rows: &Items<BallotRow>, at: usize, row: &BallotRow) -> bool
    requires { at < length rows.now }
    ensures { result ≡ climbs before (take at rows.now) row.now }
{
    if at == 0 {
        return true;
    }
    rows.get(at - 1).ballot < row.ballot
}

/// The station that did the scan, where the ballot was scanned.
fn scanner_of(stations: &BTreeMap<String, i64>, told: &BallotTold) -> Option<i64>
    requires { is_utf8 told.now.text ≡ true }
    ensures { result ≡ scanner_by (λ text. get_by_text stations.now text) told.now.text told.now.fate }
{
    match told.fate {
        Fate::Unused => None,
        Fate::Cast(_) => station_in(stations, &told.text),
        Fate::Spoiled => None,
        Fate::Audited(_) => None,
        Fate::Voided => None,
    }
}

/// The station as a slot has it.
fn station_word(station: Option<i64>) -> u32
    ensures { result ≡ station_word_of station }
{
    match station {
        Some(number) => small(number).unwrap_or(0),
        None => 0,
    }
}

impl Found {
    /// Nothing of so many ballots.
    pub fn new(alloc: Global, ballots: u32) -> Result<Found, NoMemory>
        ensures { IfOk result (λ found. found ≡ nothing_of ballots) }
    {
        Ok(Found {
            told: Items::new(alloc),
            slots: unused_slots(alloc, ballots)?,
            scanners: Items::filled(alloc, None, ballots as usize)?,
        })
    }
}

/// Puts what a row tells to what was found.
fn put_told(found: &mut Found, told: BallotTold, scanner: Option<i64>) -> Result<(), NoMemory>
    requires first { 1 ≤ told.ballot }
    requires slots { told.ballot ≤ length found.old.slots }
    requires scanners { told.ballot ≤ length found.old.scanners }
    ensures { OnOk result (found.new ≡ found_with found.old told scanner) }
{
    let place = told.ballot as usize - 1;
    let station = station_word(scanner);
    found.told.push(told.text)?;
    found.slots.replace(
        place,
        Slot {
            fate: told.fate,
            station,
        },
    );
    found.scanners.replace(place, scanner);
    Ok(())
}

/// Reads the rows of ballots, and puts what they tell to what was found.
pub fn read_ballots(
    alloc: Global,
    index: &BallotIndex,
    stations: &BTreeMap<String, i64>,
    rows: &Items<BallotRow>,
    found: &mut Found,
) -> Result<(), OpenFault>
    requires slots { length found.old.slots ≡ ballots_of index.now }
    requires scanners { length found.old.scanners ≡ ballots_of index.now }
    requires utf8 { list_all is_utf8 found.old.told ≡ true }
    ensures good { OnOk result (first_bad (ballot_keeps index.now (act_in index.now.version)) [] rows.now ≡ None) }
    ensures found { OnOk result (found.new ≡ found_after index.now (λ text. get_by_text stations.now text) found.old rows.now) }
    ensures utf8 { OnOk result (list_all is_utf8 found.new.told ≡ true) }
    ensures fault { IfErr result (λ fault. IsDamage fault (at_table 2 (first_bad (ballot_keeps index.now (act_in index.now.version)) [] rows.now))) }
{
    for at in 0..rows.len() {
        let row = rows.get(at);
        if !climbs_at(rows, at, row) {
            return Err(bad_row(2, at));
        }
        let Some(told) = tell_ballot(alloc, index, row)? else {
            return Err(bad_row(2, at));
        };
        let scanner = scanner_of(stations, &told);
        put_told(found, told, scanner)?;
    }
    Ok(())
}
