//! Which station did a text first.
ghost use Rattle.std.specs.Prelude.{◌≡◌, ℕ, ℤ, List, Option, Some, true, if◌then◌else◌, IfOk, OnOk};
ghost use Rattle.std.specs.BTreeMap.{get_by_text};
ghost use Rattle.std.specs.Str.{bytes_eq, is_utf8};
ghost use Rattle.sg_open.specs.inside.Counts.{TellsStations};

use crate::counts::text_in;
use sg_keeper::DoneRow;
use sg_plan::{Items, NoMemory, Word};
use std::alloc::Global;
use std::collections::BTreeMap;
use std::str;

/// The station that is noted for a text.
pub fn station_in(stations: &BTreeMap<String, i64>, word: &Word) -> Option<i64>
    requires { is_utf8 word.now ≡ true }
    ensures { result ≡ get_by_text stations.now word.now }
{
    stations.get(text_in(word)).copied()
}

/// Notes the station for the text, in place of an earlier one.
fn note_text(
    stations: &mut BTreeMap<String, i64>,
    alloc: Global,
    text: &str,
    station: i64,
) -> Result<(), NoMemory>
    ensures { OnOk result ((other : List ℕ) → get_by_text stations.new other ≡ (if bytes_eq text.now other then Some station else get_by_text stations.old other)) }
{
    let key = String::from_str(alloc, text)?;
    stations.insert(key, station)?;
    Ok(())
}

/// Notes the station of a row for its text. What is no text is not noted.
#[tactic(auto, using(crate::proofs::Counting::other_text))]
fn note_row(
    stations: &mut BTreeMap<String, i64>,
    alloc: Global,
    row: &DoneRow,
) -> Result<(), NoMemory>
    ensures { OnOk result ((other : List ℕ) → is_utf8 other ≡ true → get_by_text stations.new other ≡ (if bytes_eq row.now.act other then Some row.now.station else get_by_text stations.old other)) }
{
    match str::from_utf8(row.act.bytes()) {
        Ok(text) => note_text(stations, alloc, text, row.station),
        Err(_) => Ok(()),
    }
}

/// Of each text, the station of the first of the rows that have it.
pub fn first_stations(
    alloc: Global,
    rows: &Items<DoneRow>,
) -> Result<BTreeMap<String, i64>, NoMemory>
    ensures { IfOk result (λ stations. TellsStations stations rows.now) }
{
    let mut stations = BTreeMap::new(alloc);
    let mut left = rows.len();
    while left > 0 {
        left -= 1;
        note_row(&mut stations, alloc, rows.get(left))?;
    }
    Ok(stations)
}
