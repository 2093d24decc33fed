//! Marks of entries, and audited ballots, made from the fates of ballots.
ghost use Rattle.std.specs.Prelude.{◌≡◌, ◌<◌, ◌≤◌, ◌+◌, ◌==◌, if◌then◌else◌, true, List, [], ◌∷◌, length, map, slice_set, All, IfOk};
ghost use Rattle.std.specs.List.{list_all};
ghost use Rattle.sg_plan.specs.Ballots.{ballots_of, candidates_of, entries_of, races_of_ballot, rows_of};
ghost use Rattle.sg_plan.specs.Fates.{fate_fits, mark_fits};
ghost use Rattle.sg_streams.specs.Numbers.{numbers_below};
ghost use Rattle.sg_tables.specs.Tables.{entry_showing};
ghost use Rattle.sg_post.specs.Fits.{fates_fit};
ghost use Rattle.sg_post.specs.Marks.{is_audit_fate, is_entry_marked};
ghost use Rattle.sg_post.specs.Posted.{by_entry};
ghost use Rattle.sg_post.specs.Posting.{is_audited_ballot};
ghost use Rattle.sg_post.specs.inside.RowMarks.{marked_cast, marked_fates, marked_row};

use crate::counts::{count_entries, count_races, has_race, row_in};
use crate::making::set_where;
use crate::story::Told;
use sg_plan::{BallotIndex, Fate, Items, Mark, NoMemory};
use sg_tables::Tables;
use std::alloc::Global;

/// The marks of all races: which of their entries are marked.
pub fn mark_races(
    alloc: Global,
    tables: &Tables,
    index: &BallotIndex,
    fates: &Items<Told>,
) -> Result<Items<Items<bool>>, NoMemory>
    requires index { index.now ≡ tables.now.plan }
    requires fits { fates_fit tables.now.plan 0 fates.now ≡ true }
    ensures { IfOk result (λ marks. marks ≡ by_entry tables.now.plan (is_entry_marked tables.now.plan tables.now.seed fates.now)) }
{
    let count = count_races(tables);
    let mut marks = Items::with_room(alloc, count as usize)?;
    for race in 0..count {
        marks.push(mark_entries(alloc, tables, index, race, fates)?)?;
    }
    Ok(marks)
}

/// The marks of a race: which of its entries are marked.
fn mark_entries(
    alloc: Global,
    tables: &Tables,
    index: &BallotIndex,
    race: u32,
    fates: &Items<Told>,
) -> Result<Items<bool>, NoMemory>
    requires index { index.now ≡ tables.now.plan }
    requires race { race < length tables.now.plan.races }
    requires fits { fates_fit tables.now.plan 0 fates.now ≡ true }
    ensures { IfOk result (λ marks. marks ≡ map (is_entry_marked tables.now.plan tables.now.seed fates.now race) (numbers_below (entries_of tables.now.plan race))) }
{
    let mut marks = Items::filled(alloc, false, count_entries(tables, race) as usize)?;
    mark_fates(tables, index, race, fates, &mut marks);
    Ok(marks)
}

/// Sets the bits of all marks in a race.
fn mark_fates(
    tables: &Tables,
    index: &BallotIndex,
    race: u32,
    fates: &Items<Told>,
    bits: &mut Items<bool>,
)
    requires index { index.now ≡ tables.now.plan }
    requires race { race < length tables.now.plan.races }
    requires bits { length bits.old ≡ entries_of tables.now.plan race }
    requires fits { fates_fit tables.now.plan 0 fates.now ≡ true }
    ensures { bits.new ≡ marked_fates tables.now.plan tables.now.seed race fates.now bits.old }
{
    for at in 0..fates.len() {
        mark_told(tables, index, race, fates.get(at), bits);
    }
}

/// Sets the bits of a ballot's marks in a race.
fn mark_told(tables: &Tables, index: &BallotIndex, race: u32, told: &Told, bits: &mut Items<bool>)
    requires index { index.now ≡ tables.now.plan }
    requires race { race < length tables.now.plan.races }
    requires bits { length bits.old ≡ entries_of tables.now.plan race }
    requires fits { fate_fits tables.now.plan told.now.ballot told.now.fate ≡ true }
    ensures { bits.new ≡ marked_fates tables.now.plan tables.now.seed race (told.now ∷ []) bits.old }
{
    match &told.fate {
        Fate::Cast(marks) => mark_cast(tables, index, race, told.ballot, marks, bits),
        Fate::Unused => {}
        Fate::Spoiled => {}
        Fate::Audited(_) => {}
        Fate::Voided => {}
    }
}

/// Sets the bits of a cast ballot's marks in a race.
fn mark_cast(
    tables: &Tables,
    index: &BallotIndex,
    race: u32,
    ballot: u32,
    marks: &Items<Mark>,
    bits: &mut Items<bool>,
)
    requires index { index.now ≡ tables.now.plan }
    requires race { race < length tables.now.plan.races }
    requires bits { length bits.old ≡ entries_of tables.now.plan race }
    requires fits { list_all (mark_fits tables.now.plan (races_of_ballot tables.now.plan ballot)) marks.now ≡ true }
    ensures { bits.new ≡ marked_cast tables.now.plan tables.now.seed race ballot marks.now bits.old }
{
    if !has_race(tables, index, ballot, race) {
        return;
    }
    if tables.plan().over(marks, race) {
        return;
    }
    let row = row_in(tables, index, race, ballot);
    mark_row(tables, race, row, marks, bits);
}

/// Sets the bits of a ballot row's marks in a race.
fn mark_row(tables: &Tables, race: u32, row: u32, marks: &Items<Mark>, bits: &mut Items<bool>)
    requires race { race < length tables.now.plan.races }
    requires row { row < rows_of tables.now.plan race }
    requires bits { length bits.old ≡ entries_of tables.now.plan race }
    requires fits { All (λ mark. mark.race ≡ race → mark.candidate < candidates_of tables.now.plan race) marks.now }
    ensures { bits.new ≡ marked_row tables.now.plan tables.now.seed race row marks.now bits.old }
{
    for at in 0..marks.len() {
        mark_one(tables, race, row, *marks.get(at), bits);
    }
}

/// Sets the bit of the entry that the mark is beside, where the mark is of the race.
fn mark_one(tables: &Tables, race: u32, row: u32, mark: Mark, bits: &mut Items<bool>)
    requires race { race < length tables.now.plan.races }
    requires row { row < rows_of tables.now.plan race }
    requires bits { length bits.old ≡ entries_of tables.now.plan race }
    requires fits { mark.race ≡ race → mark.candidate < candidates_of tables.now.plan race }
    ensures { bits.new ≡ (if mark.race == race then slice_set bits.old (entry_showing tables.now.plan tables.now.seed race row mark.candidate) true else bits.old) }
{
    if mark.race == race {
        let entry = tables.q_entry(race, row, mark.candidate);
        bits.replace(entry as usize, true);
    }
}

/// Whether each ballot was audited, from number 0 on, which is none.
pub fn audited_ballots(
    alloc: Global,
    index: &BallotIndex,
    fates: &Items<Told>,
) -> Result<Items<bool>, NoMemory>
    requires { fates_fit index.now 0 fates.now ≡ true }
    ensures { IfOk result (λ bits. bits ≡ map (is_audited_ballot fates.now) (numbers_below (ballots_of index.now + 1))) }
{
    let mut bits = Items::filled(alloc, false, index.ballots() as usize + 1)?;
    for at in 0..fates.len() {
        let told = fates.get(at);
        set_where(&mut bits, told.ballot as usize, is_audit(&told.fate));
    }
    Ok(bits)
}

/// The ballot was audited.
pub fn is_audit(fate: &Fate) -> bool
    ensures { result ≡ is_audit_fate fate.now }
{
    match fate {
        Fate::Audited(_) => true,
        Fate::Unused => false,
        Fate::Cast(_) => false,
        Fate::Spoiled => false,
        Fate::Voided => false,
    }
}
