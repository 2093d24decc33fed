//! All that an office keeps, from its rows.
ghost use Rattle.std.specs.Prelude.{◌≡◌, ◌≤◌, length, None, IfErr, IfOk, OnOk};
ghost use Rattle.std.specs.BTreeMap.{get_by_text};
ghost use Rattle.std.specs.List.{filter_map};
ghost use Rattle.sg_desks.specs.ActReading.{act_in};
ghost use Rattle.sg_keeper.specs.SetupText.{IsSetup};
ghost use Rattle.sg_histories.specs.Opens.{OpenTo, Whole};
ghost use Rattle.sg_histories.specs.Standing.{HasRows, IsOffice};
ghost use Rattle.sg_histories.specs.ValidRows.{damage_of};
ghost use Rattle.sg_open.specs.Opened.{IsFault, StandsForEach};
ghost use Rattle.sg_open.specs.inside.Counts.{TellsStations};
ghost use Rattle.sg_open.specs.inside.Finding.{IsDamage, IsJudged, IsRead, KeepsRows, kept_of, nothing_found, stage_told};
ghost use Rattle.sg_open.specs.inside.Telling.{row_claim};

use crate::ballots::{Found, read_ballots};
use crate::claims::read_claims;
use crate::dones::{check_dones, copy_dones};
use crate::fault::OpenFault;
use crate::stages::read_stages;
use crate::stations::first_stations;
use crate::voids::{read_voids, tell_voids};
use sg_histories::{Claim, Kept, Slot};
use sg_keeper::{DoneRow, Rows, Setup};
use sg_plan::{BallotIndex, Items, Stage};
use std::alloc::Global;
use std::collections::BTreeMap;
use std::mem;

/// All that an office keeps, where these are the rows of an office: those of a lawful history of its setup. Then it
/// stands for each such history. The rows are judged in n log n.
///
/// Refused are rows without a setup (`Empty`), and rows that are no office's, with the first bad table and row
/// (`Damaged`), each exactly. `NoMemory` says nothing of the rows.
pub fn open_rows(alloc: Global, rows: &Rows) -> Result<Kept, OpenFault>
    ensures setup { IfOk result (λ kept. OpenTo rows.now (Whole kept.setup)) }
    ensures stands { IfOk result (λ kept. HasRows kept rows.now × IsOffice kept) }
    ensures each { IfOk result (λ kept. StandsForEach kept rows.now) }
    ensures fault { IfErr result (λ fault. IsFault fault rows.now) }
{
    let Some(text) = &rows.setup else {
        return Err(OpenFault::Empty);
    };
    let Some(setup) = Setup::read(alloc, text.bytes())? else {
        return Err(OpenFault::Damaged { table: 1, row: 1 });
    };
    open_setup(alloc, setup, rows)
}

/// How far the election of rows is, and its claims.
#[derive(Debug, Drop)]
struct Course {
    /// How far the election is.
    stage: Stage,
    /// The claims, the oldest first.
    claims: Items<Claim>,
}

/// Reads the rows of ballots, stages and claims, and gathers what they and the voids tell.
fn read_tables(
    alloc: Global,
    setup: &Setup,
    index: &BallotIndex,
    stations: &BTreeMap<String, i64>,
    rows: &Rows,
    found: &mut Found,
) -> Result<Course, OpenFault>
    requires plan { index.now ≡ setup.now.plan }
    requires start { found.old ≡ nothing_found setup.now.plan }
    ensures read { IfOk result (λ course. IsRead setup.now rows.now (λ text. get_by_text stations.now text) found.new) }
    ensures stage { IfOk result (λ course. course.stage ≡ stage_told setup.now.plan.version rows.now.stages) }
    ensures claims { IfOk result (λ course. course.claims ≡ filter_map (row_claim setup.now.plan) rows.now.claims) }
    ensures fault { IfErr result (λ fault. IsDamage fault (damage_of setup.now (act_in setup.now.plan.version) rows.now)) }
{
    read_ballots(alloc, index, stations, &rows.ballots, found)?;
    let stage = read_stages(alloc, &setup.plan, &rows.stages, &mut found.told)?;
    let drawn = rows.stages.len() >= 2;
    let claims = read_claims(alloc, index, drawn, &rows.claims, &mut found.told)?;
    tell_voids(alloc, setup.plan.version, &rows.voids, &mut found.told)?;
    Ok(Course { stage, claims })
}

/// Judges the done rows and the rows of voids by what the other tables tell, and marks the voided ballots.
fn judge_tables(
    alloc: Global,
    setup: &Setup,
    stations: &BTreeMap<String, i64>,
    rows: &Rows,
    found: &mut Found,
) -> Result<(), OpenFault>
    requires few { length setup.now.secrets ≤ 32 }
    requires first { TellsStations stations.now rows.now.dones }
    requires read { IsRead setup.now rows.now (λ text. get_by_text stations.now text) found.old }
    ensures judged { OnOk result (IsJudged setup.now rows.now (λ text. get_by_text stations.now text) found.new.slots) }
    ensures fault { IfErr result (λ fault. IsDamage fault (damage_of setup.now (act_in setup.now.plan.version) rows.now)) }
{
    check_dones(alloc, setup.secrets.len(), &found.told, &rows.dones)?;
    read_voids(
        alloc,
        setup.plan.version,
        stations,
        &found.scanners,
        &rows.voids,
        &mut found.slots,
    )
}

/// What the rows of an office tell beside its setup.
#[derive(Debug, Drop)]
struct Told {
    /// What is known of each ballot.
    slots: Items<Slot>,
    /// How far the election is, and its claims.
    course: Course,
    /// The acts that were done.
    dones: Items<DoneRow>,
}

/// Reads all tables and judges them.
fn judge_rows(
    alloc: Global,
    setup: &Setup,
    index: &BallotIndex,
    stations: &BTreeMap<String, i64>,
    rows: &Rows,
    found: &mut Found,
) -> Result<Course, OpenFault>
    requires setup { IsSetup setup.now }
    requires plan { index.now ≡ setup.now.plan }
    requires first { TellsStations stations.now rows.now.dones }
    requires start { found.old ≡ nothing_found setup.now.plan }
    ensures judged { IfOk result (λ course. IsJudged setup.now rows.now (λ text. get_by_text stations.now text) found.new.slots) }
    ensures stage { IfOk result (λ course. course.stage ≡ stage_told setup.now.plan.version rows.now.stages) }
    ensures claims { IfOk result (λ course. course.claims ≡ filter_map (row_claim setup.now.plan) rows.now.claims) }
    ensures fault { IfErr result (λ fault. IsDamage fault (damage_of setup.now (act_in setup.now.plan.version) rows.now)) }
{
    let course = read_tables(alloc, setup, index, stations, rows, found)?;
    judge_tables(alloc, setup, stations, rows, found)?;
    Ok(course)
}

/// What the rows tell, from the stations of the done rows.
fn tell_tables(
    alloc: Global,
    setup: &Setup,
    index: &BallotIndex,
    stations: &BTreeMap<String, i64>,
    rows: &Rows,
) -> Result<Told, OpenFault>
    requires setup { IsSetup setup.now }
    requires plan { index.now ≡ setup.now.plan }
    requires first { TellsStations stations.now rows.now.dones }
    ensures good { IfOk result (λ told. damage_of setup.now (act_in setup.now.plan.version) rows.now ≡ None) }
    ensures kept { IfOk result (λ told. KeepsRows (kept_of setup.now told) rows.now) }
    ensures fault { IfErr result (λ fault. IsDamage fault (damage_of setup.now (act_in setup.now.plan.version) rows.now)) }
{
    let mut found = Found::new(alloc, index.ballots())?;
    let course = judge_rows(alloc, setup, index, stations, rows, &mut found)?;
    let slots = mem::replace(&mut found.slots, Items::new(alloc));
    drop(found);
    Ok(Told {
        slots,
        course,
        dones: copy_dones(alloc, &rows.dones)?,
    })
}

/// What the rows tell of an office with this setup.
fn tell_rows(alloc: Global, setup: &Setup, rows: &Rows) -> Result<Told, OpenFault>
    requires { IsSetup setup.now }
    ensures good { IfOk result (λ told. damage_of setup.now (act_in setup.now.plan.version) rows.now ≡ None) }
    ensures kept { IfOk result (λ told. KeepsRows (kept_of setup.now told) rows.now) }
    ensures fault { IfErr result (λ fault. IsDamage fault (damage_of setup.now (act_in setup.now.plan.version) rows.now)) }
{
    let index = BallotIndex::make(alloc, &setup.plan)?;
    let stations = first_stations(alloc, &rows.dones)?;
    tell_tables(alloc, setup, &index, &stations, rows)
}

/// What an office keeps, with this setup. It takes no memory.
fn keep(setup: Setup, told: Told) -> Kept
    ensures { result ≡ kept_of setup told }
{
    Kept {
        setup,
        slots: told.slots,
        stage: told.course.stage,
        claims: told.course.claims,
        dones: told.dones,
    }
}

/// All that an office with this setup keeps.
fn open_setup(alloc: Global, setup: Setup, rows: &Rows) -> Result<Kept, OpenFault>
    requires { IsSetup setup }
    ensures good { IfOk result (λ kept. damage_of setup (act_in setup.plan.version) rows.now ≡ None) }
    ensures setup { IfOk result (λ kept. kept.setup ≡ setup) }
    ensures kept { IfOk result (λ kept. KeepsRows kept rows.now) }
    ensures fault { IfErr result (λ fault. IsDamage fault (damage_of setup (act_in setup.plan.version) rows.now)) }
{
    let told = tell_rows(alloc, &setup, rows)?;
    Ok(keep(setup, told))
}
