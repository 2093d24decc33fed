//! Rows that were read one after another, cut into races and instances.
ghost use Rattle.std.specs.Prelude.{◌≡◌, ◌*◌, IfOk, length};
ghost use Rattle.sg_parts.specs.inside.Cutting.{AreCut, AreInstances};
ghost use Rattle.sg_plan.specs.Ballots.{r_rows};

use crate::parts::RowGiven;
use sg_plan::{BallotIndex, Items, NoMemory};
use std::alloc::Global;

/// How many rows a completion has.
pub(crate) fn count_rows(index: &BallotIndex) -> u32
    ensures { result ≡ r_rows index.now }
{
    sg_plan::laws::bounds_law();
    let plan = index.plan();
    let mut entries = 0;
    for race in 0..plan.races.len() as u32 {
        entries += plan.entries(race);
    }
    plan.instances * entries
}

/// A list of these rows.
fn copy_rows(alloc: Global, rows: &[RowGiven]) -> Result<Items<RowGiven>, NoMemory>
    ensures { IfOk result (λ list. list ≡ rows.now) }
{
    let mut list = Items::with_room(alloc, rows.len())?;
    list.extend(rows)?;
    Ok(list)
}

/// The rows of so many instances, of so many rows each.
fn cut_instances(
    alloc: Global,
    rows: &[RowGiven],
    instances: usize,
    count: usize,
) -> Result<Items<Items<RowGiven>>, NoMemory>
    requires { length rows.now ≡ instances * count }
    ensures { IfOk result (AreInstances instances count rows.now) }
{
    let mut cut = Items::with_room(alloc, instances)?;
    let mut done = 0;
    for _at in 0..instances {
        let next = done + count;
        let here = copy_rows(alloc, &rows[done..next])?;
        cut.push(here)?;
        done = next;
    }
    Ok(cut)
}

/// The rows of all races.
pub(crate) fn cut_races(
    alloc: Global,
    index: &BallotIndex,
    rows: &[RowGiven],
) -> Result<Items<Items<Items<RowGiven>>>, NoMemory>
    requires { length rows.now ≡ r_rows index.now }
    ensures { IfOk result (AreCut index.now rows.now) }
{
    let plan = index.plan();
    let instances = plan.instances as usize;
    let mut cut = Items::with_room(alloc, plan.races.len())?;
    let mut done = 0;
    for race in 0..plan.races.len() {
        let count = plan.entries(race as u32) as usize;
        let next = done + instances * count;
        let here = cut_instances(alloc, &rows[done..next], instances, count)?;
        cut.push(here)?;
        done = next;
    }
    Ok(cut)
}
