//! Values that another program computed: all commitments of records.
ghost use Rattle.std.specs.Prelude.{◌≡◌, ◌<◌, ◌≤◌, length, IfOk};

use crate::commit::digest_of;
use crate::plan_text::plan_of;
use crate::streams::{RISING, ZERO};
use sg_commit::{CommitKind, Digest, Sealer, commit};
use sg_plan::Plan;
use sg_streams::Seed;
use sg_tables::Tables;
use std::alloc::Global;
use std::test::Fail;

/// An election of each version with two styles: style 0 has both races, and style 1 the first alone.
const PLAN_1: &str = "1|A|3|A:ABC:1;B:ABCD:1|A:01;B:0|0:7;1:3;0:2";

const PLAN_2: &str = "2|A|3|A:ABC:1;B:ABCD:1|A:01;B:0|0:7;1:3;0:2";

/// A town of 1,700 ballots, with 59,500 rows of table R.
const TOWN: &str = "1|A|5|A:ABCD:1;B:ABC:1|A:01;B:0|0:1700";

/// As many rows as a plan may have, all of one race. The other has none.
const LARGEST: &str = "1|A|5|A:AB:1;B:ABCDEFGHIJKLMNOP:1|A:01;B:0|1:20000";

/// The tables of a plan with two races.
fn tables_over(alloc: Global, plan: &Plan, seed: &Seed) -> Result<Tables, Fail>
    ensures { IfOk result (λ tables. length tables.plan.races ≡ 2) }
{
    plan.check()?;
    if plan.races.len() != 2 {
        return Err(Fail::new("the plan has two races"));
    }
    Ok(Tables::make(alloc, plan, seed)?)
}

/// The tables of the text's plan, which has two races.
fn tables_of(alloc: Global, text: &str, seed: &Seed) -> Result<Tables, Fail>
    ensures { IfOk result (λ tables. length tables.plan.races ≡ 2) }
{
    let plan = plan_of(alloc, text)?;
    let tables = tables_over(alloc, &plan, seed);
    drop(plan);
    tables
}

/// Adds the commitments to the codes of a race's entries.
fn seal_codes(tables: &Tables, race: u32, seal: &mut Sealer)
    requires race { race < length tables.now.plan.races }
    requires small_race { race < 2 }
{
    for entry in 0..tables.plan().entries(race) {
        let opening = tables.q_opening(race, entry);
        seal.add(&commit(CommitKind::Q, race, 0, entry, &opening).0);
    }
}

/// Adds the commitments to the pointers of an instance's rows.
fn seal_rows(tables: &Tables, race: u32, instance: u32, seal: &mut Sealer)
    requires race { race < length tables.now.plan.races }
    requires small_race { race < 2 }
    requires instance { instance < tables.now.plan.instances }
    requires few_instances { instance < 16 }
{
    for row in 0..tables.plan().entries(race) {
        let left = tables.left_opening(race, instance, row);
        seal.add(&commit(CommitKind::L, race, instance, row, &left).0);
        let right = tables.right_opening(race, instance, row);
        seal.add(&commit(CommitKind::R, race, instance, row, &right).0);
    }
}

/// Adds those of all instances of a race.
fn seal_race(tables: &Tables, race: u32, seal: &mut Sealer)
    requires race { race < length tables.now.plan.races }
    requires small_race { race < 2 }
{
    for instance in 0..tables.plan().instances.min(16) {
        seal_rows(tables, race, instance, seal);
    }
}

/// The hash of all commitments to codes.
fn hash_codes(tables: &Tables) -> Digest
    requires { length tables.now.plan.races ≡ 2 }
{
    let mut seal = Sealer::new();
    seal_codes(tables, 0, &mut seal);
    seal_codes(tables, 1, &mut seal);
    seal.digest()
}

/// The hash of all commitments to pointers, in the order of a record.
fn hash_rows(tables: &Tables) -> Digest
    requires { length tables.now.plan.races ≡ 2 }
{
    let mut seal = Sealer::new();
    seal_race(tables, 0, &mut seal);
    seal_race(tables, 1, &mut seal);
    seal.digest()
}

/// The commitments of the text's plan to codes and to rows have these hashes.
fn have_hashes(
    alloc: Global,
    text: &str,
    seed: &Seed,
    codes: &str,
    rows: &str,
) -> Result<bool, Fail> {
    let tables = tables_of(alloc, text, seed)?;
    let hashes = [hash_codes(&tables), hash_rows(&tables)];
    drop(tables);
    Ok(hashes == [digest_of(codes), digest_of(rows)])
}

#[test]
fn elections_match(rt: HostRuntime) -> Result<(), Fail> {
    let rows = "0f62e3b10be0cea3c21f3131c7bf0bd22a6187eee8d12cc8124d59b36acec461";
    let codes_1 = "d56fb396ca2b83329053fd7cea78bfbdbe18ee6c995b9cdb5667d439ca3d3363";
    assert!(rt; have_hashes(rt.alloc(), PLAN_1, &RISING, codes_1, rows)?);
    let codes_2 = "fdcb32fee8f94197d1cb69a30bc9e4e03ba745462e56d2252b35cf8a04439eee";
    assert!(rt; have_hashes(rt.alloc(), PLAN_2, &RISING, codes_2, rows)?);
    Ok(())
}

#[test]
fn town_matches(rt: HostRuntime) -> Result<(), Fail> {
    let codes = "c848738f3434cde49e48a83aa2fe48121d97f186affefdf45812665b1e427842";
    let rows = "428ffc5074528db391c4da25df5cfb5c012ba2011cb291791935612b7c080760";
    assert!(rt; have_hashes(rt.alloc(), TOWN, &ZERO, codes, rows)?);
    Ok(())
}

#[test]
fn largest_tables_are_made(rt: HostRuntime) -> Result<(), Fail> {
    drop(tables_of(rt.alloc(), LARGEST, &ZERO)?);
    Ok(())
}
