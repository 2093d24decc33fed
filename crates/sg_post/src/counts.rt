//! How many races, instances and entries the plan of the tables has, and the rows of its ballots.
ghost use Rattle.std.specs.Prelude.{◌≡◌, ◌<◌, ◌≤◌, ℕ, None, true, length};
ghost use Rattle.sg_plan.specs.Ballots.{ballot_has, ballot_row, candidates_of, entries_of, rows_of};
ghost use Rattle.sg_plan.specs.Limits.{fault_of};

use sg_plan::BallotIndex;
use sg_tables::Tables;

/// How many races the plan has. They are few, as are instances and candidates.
pub fn count_races(tables: &Tables) -> u32
    ensures limits { fault_of tables.now.plan ≡ None }
    ensures races { result ≡ length tables.now.plan.races }
    ensures few { result ≤ 32 }
    ensures few_instances { tables.now.plan.instances ≤ 16 }
    ensures few_candidates { (race : ℕ) → candidates_of tables.now.plan race ≤ 16 }
{
    sg_plan::laws::bounds_law();
    tables.plan().races.len() as u32
}

/// How many instances of table R each race has.
pub fn count_instances(tables: &Tables) -> u32
    ensures { result ≡ tables.now.plan.instances }
{
    tables.plan().instances
}

/// How many entries, places and rows of each instance a race has.
pub fn count_entries(tables: &Tables, race: u32) -> u32
    requires { race < length tables.now.plan.races }
    ensures { result ≡ entries_of tables.now.plan race }
{
    tables.plan().entries(race)
}

/// The ballot has the race.
pub fn has_race(tables: &Tables, index: &BallotIndex, ballot: u32, race: u32) -> bool
    requires { index.now ≡ tables.now.plan }
    ensures { result ≡ ballot_has tables.now.plan ballot race }
{
    let _ = tables;
    index.has(ballot, race)
}

/// The ballot row of a ballot that has the race.
pub fn row_in(tables: &Tables, index: &BallotIndex, race: u32, ballot: u32) -> u32
    requires index { index.now ≡ tables.now.plan }
    requires race { race < length tables.now.plan.races }
    requires has { ballot_has tables.now.plan ballot race ≡ true }
    ensures value { result ≡ ballot_row tables.now.plan race ballot }
    ensures bound { result < rows_of tables.now.plan race }
{
    let _ = tables;
    index.row(race, ballot)
}
