//! How many races, instances and rows the plan of the tables has.
ghost use Rattle.std.specs.Prelude.{◌≡◌, ◌<◌, None, length};
ghost use Rattle.sg_plan.specs.Ballots.{entries_of};
ghost use Rattle.sg_plan.specs.Limits.{fault_of};
ghost use Rattle.sg_record.specs.Writing.{IsVersion};

use sg_tables::Tables;

/// The version of the plan, which keeps its limits.
pub(crate) fn version_of(tables: &Tables) -> u32
    ensures value { result ≡ tables.now.plan.version }
    ensures known { IsVersion tables.now.plan.version }
    ensures limits { fault_of tables.now.plan ≡ None }
{
    tables.plan().version
}

/// How many races the plan has.
pub(crate) fn count_races(tables: &Tables) -> u32
    ensures { result ≡ length tables.now.plan.races }
{
    sg_plan::laws::bounds_law();
    tables.plan().races.len() as u32
}

/// How many instances of table R each race has.
pub(crate) fn count_instances(tables: &Tables) -> u32
    ensures { result ≡ tables.now.plan.instances }
{
    tables.plan().instances
}

/// How many rows each instance of a race has.
pub(crate) fn count_rows(tables: &Tables, race: u32) -> u32
    requires { race < length tables.now.plan.races }
    ensures { result ≡ entries_of tables.now.plan race }
{
    tables.plan().entries(race)
}
