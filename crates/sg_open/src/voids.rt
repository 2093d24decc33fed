//! The rows of voids.
ghost use Rattle.std.specs.Prelude.{◌≡◌, ◌++◌, ◌<◌, true, None, Some, [], length, take, IfOk, IfErr, OnOk, IfSome};
ghost use Rattle.std.specs.BTreeMap.{get_by_text};
ghost use Rattle.std.specs.List.{filter_map, list_all};
ghost use Rattle.std.specs.Str.{is_utf8};
ghost use Rattle.sg_plan.specs.Limits.{first_bad};
ghost use Rattle.sg_desks.specs.ActTexts.{act_text as act_text_of};
ghost use Rattle.sg_keeper.specs.Rows.{void_before as before};
ghost use Rattle.sg_acts.specs.declared.asks.Act.TheVariants as act;
ghost use Rattle.sg_histories.specs.ValidRows.{at_table, climbs, void_text};
ghost use Rattle.sg_open.specs.inside.Finding.{IsDamage, void_passes, void_place as void_place_of, void_slot, voided_after};

use crate::fault::{OpenFault, bad_row};
use crate::numbers::small;
use crate::stations::station_in;
use sg_acts::Act;
use sg_desks::act_text;
use sg_histories::Slot;
use sg_keeper::VoidRow;
use sg_plan::{Fate, Items, NoMemory, Word};
use std::alloc::Global;
use std::collections::BTreeMap;

/// The text of the void of a ballot.
#[tactic(auto, using(crate::proofs::TellingRows::ascii_utf8))]
fn text_of_void(alloc: Global, version: u32, ballot: u32) -> Result<Word, NoMemory>
    ensures text { IfOk result (λ text. text ≡ act_text_of version (act.Void ballot)) }
    ensures utf8 { IfOk result (λ text. is_utf8 text ≡ true) }
{
    act_text(alloc, version, &Act::Void(ballot))
}

/// Puts the texts of voids behind those that are told.
pub fn tell_voids(
    alloc: Global,
    version: u32,
    rows: &Items<VoidRow>,
    told: &mut Items<Word>,
) -> Result<(), NoMemory>
    requires utf8 { list_all is_utf8 told.old ≡ true }
    ensures told { OnOk result (told.new ≡ told.old ++ filter_map (void_text version) rows.now) }
    ensures utf8 { OnOk result (list_all is_utf8 told.new ≡ true) }
{
    for at in 0..rows.len() {
        if let Some(ballot) = small(rows.get(at).ballot) {
            told.push(text_of_void(alloc, version, ballot)?)?;
        }
    }
    Ok(())
}

/// The row at the place is behind those before it.
#[tactic(auto, using(crate::proofs::Counting::climbs_at))]
fn climbs_at(rows: &Items<VoidRow>, at: usize, row: &VoidRow) -> bool
    requires { at < length rows.now }
    ensures { result ≡ climbs before (take at rows.now) row.now }
{
    if at == 0 {
        return true;
    }
    rows.get(at - 1).ballot < row.ballot
}

/// The place of the ballot that a row voids: where another station did the void than the scan.
fn void_place(
    alloc: Global,
    version: u32,
    stations: &BTreeMap<String, i64>,
    scanners: &Items<Option<i64>>,
    row: &VoidRow,
) -> Result<Option<usize>, NoMemory>
    ensures { IfOk result (λ found. found ≡ void_place_of version (λ text. get_by_text stations.now text) scanners.now row.now) }
{
    let Some(ballot) = small(row.ballot) else {
        return Ok(None);
    };
    if ballot == 0 || ballot as usize > scanners.len() {
        return Ok(None);
    }
    let place = ballot as usize - 1;
    let Some(scanner) = *scanners.get(place) else {
        return Ok(None);
    };
    let text = text_of_void(alloc, version, ballot)?;
    let Some(voider) = station_in(stations, &text) else {
        return Ok(None);
    };
    if scanner == voider {
        return Ok(None);
    }
    Ok(Some(place))
}

/// The slot at the place is of a voided ballot from now on.
fn void_at(slots: &mut Items<Slot>, place: usize)
    requires { place < length slots.old }
    ensures { slots.new ≡ void_slot slots.old (Some place) }
{
    let station = slots.get(place).station;
    slots.replace(
        place,
        Slot {
            fate: Fate::Voided,
            station,
        },
    );
}

/// Reads the rows of voids, and marks their ballots as voided.
pub fn read_voids(
    alloc: Global,
    version: u32,
    stations: &BTreeMap<String, i64>,
    scanners: &Items<Option<i64>>,
    rows: &Items<VoidRow>,
    slots: &mut Items<Slot>,
) -> Result<(), OpenFault>
    requires { length slots.old ≡ length scanners.now }
    ensures good { OnOk result (first_bad (void_passes version (λ text. get_by_text stations.now text) scanners.now) [] rows.now ≡ None) }
    ensures slots { OnOk result (slots.new ≡ voided_after version (λ text. get_by_text stations.now text) scanners.now slots.old rows.now) }
    ensures fault { IfErr result (λ fault. IsDamage fault (at_table 6 (first_bad (void_passes version (λ text. get_by_text stations.now text) scanners.now) [] rows.now))) }
{
    for at in 0..rows.len() {
        let row = rows.get(at);
        if !climbs_at(rows, at, row) {
            return Err(bad_row(6, at));
        }
        let Some(place) = void_place(alloc, version, stations, scanners, row)? else {
            return Err(bad_row(6, at));
        };
        void_at(slots, place);
    }
    Ok(())
}
