//! The tables of an election, and what they answer.
ghost use Rattle.std.specs.Prelude.{◌≡◌, ◌<◌, ◌≤◌, length, IfOk, None};
ghost use Rattle.sg_plan.specs.Ballots.{candidates_of, entries_of, rows_of};
ghost use Rattle.sg_plan.specs.Codes.{codes_of};
ghost use Rattle.sg_plan.specs.Limits.{fault_of};
ghost use Rattle.sg_streams.specs.Streams.{stream_number};
ghost use Rattle.sg_tables.specs.inside.Kept.{KeepsKeys, KeepsRace};
ghost use Rattle.sg_tables.specs.Tables.{code_beside, code_of_entry, entry_showing, left_of, left_opening_of, path_of, place_row, q_opening_of, right_of, right_opening_of, shown_by};

use crate::drawing::draw_races;
use crate::opening_walks::{QOpenings, RowOpenings};
use crate::purposes::{ENTRY_KEYS, LEFT_KEYS, RIGHT_KEYS};
use crate::race_lists::RaceLists;
use sg_commit::{Key, Opening};
use sg_plan::{Items, NoMemory, Plan};
use sg_streams::{Keys, Seed, stream};
use std::alloc::Global;
use std::marker::Model;

/// The tables P, Q, R and S of an election.
///
/// Contracts see them as the plan and the seed that they were made from.
#[derive(Drop)]
pub struct Tables {
    plan: Plan,
    seed: Seed,
    races: Items<RaceLists>,
}

impl Model for Tables {
    ghost use Rattle.sg_streams.specs.Streams.{stream_number};
    ghost use Rattle.sg_tables.specs.inside.Kept.{Keeps};
    ghost use Rattle.sg_tables.specs.Tables.{MadeFrom};

    ghost Value = { MadeFrom };

    ghost view = { λ t. record { plan = t.plan; seed = t.seed.0 } };

    ghost invariant = { λ t. Keeps t.plan t.seed.0 t.races };
}

impl Tables {
    /// The tables of a plan that keeps its limits. It refuses for want of memory alone.
    pub fn make(alloc: Global, plan: &Plan, seed: &Seed) -> Result<Tables, NoMemory>
        requires { fault_of plan.now ≡ None }
        ensures { IfOk result (λ tables. tables ≡ record { plan = plan.now; seed = seed.now.0 }) }
    {
        let races = draw_races(alloc, plan, seed)?;
        let plan = plan.copy(alloc)?;
        Ok(Tables {
            plan,
            seed: *seed,
            races,
        })
    }

    /// The plan that the tables were made for. It keeps its limits.
    pub fn plan(&self) -> &Plan
        ensures plan { result.now ≡ self.now.plan }
        ensures limits { fault_of self.now.plan ≡ None }
    {
        &self.plan
    }

    /// The lists of a race.
    pub(crate) fn lists(&self, race: u32) -> &RaceLists
        requires { race < length self.now.plan.races }
        ensures lists { KeepsRace self.now.plan self.now.seed race result.now }
        ensures limits { fault_of self.now.plan ≡ None }
    {
        self.races.get(race as usize)
    }

    /// The code beside a candidate of a ballot row: what stands on paper. It is a code of the plan's version.
    pub fn code(&self, race: u32, ballot_row: u32, candidate: u32) -> u16
        requires race { race < length self.now.plan.races }
        requires ballot_row { ballot_row < rows_of self.now.plan race }
        requires candidate { candidate < candidates_of self.now.plan race }
        ensures value { result ≡ code_beside self.now.plan self.now.seed race ballot_row candidate }
        ensures bound { result < codes_of self.now.plan.version }
    {
        let lists = self.lists(race);
        *lists
            .codes
            .get((ballot_row * lists.candidates + candidate) as usize)
    }

    /// The entry of a ballot row that shows a candidate.
    pub fn q_entry(&self, race: u32, ballot_row: u32, candidate: u32) -> u32
        requires race { race < length self.now.plan.races }
        requires ballot_row { ballot_row < rows_of self.now.plan race }
        requires candidate { candidate < candidates_of self.now.plan race }
        ensures value { result ≡ entry_showing self.now.plan self.now.seed race ballot_row candidate }
        ensures bound { result < entries_of self.now.plan race }
    {
        let lists = self.lists(race);
        let first = ballot_row * lists.candidates;
        first + *lists.columns.get((first + candidate) as usize)
    }

    /// The candidate that an entry shows.
    pub fn shown(&self, race: u32, entry: u32) -> u32
        requires race { race < length self.now.plan.races }
        requires entry { entry < entries_of self.now.plan race }
        ensures value { result ≡ shown_by self.now.plan self.now.seed race entry }
        ensures bound { result < candidates_of self.now.plan race }
    {
        *self.lists(race).shown.get(entry as usize)
    }

    /// The left and the right pointer of a row of an instance: an entry, and the place to which it leads.
    #[tactic(auto, unfolding(crate::specs::Tables::right_of))]
    pub fn r_row(&self, race: u32, instance: u32, row: u32) -> (u32, u32)
        requires race { race < length self.now.plan.races }
        requires instance { instance < self.now.plan.instances }
        requires row { row < entries_of self.now.plan race }
        ensures left { result.0 ≡ left_of self.now.plan self.now.seed race instance row }
        ensures right { result.1 ≡ right_of self.now.plan self.now.seed race instance row }
        ensures path { result.1 ≡ path_of self.now.plan self.now.seed race result.0 }
        ensures left_bound { result.0 < entries_of self.now.plan race }
        ensures right_bound { result.1 < entries_of self.now.plan race }
    {
        let left = self.left(race, instance, row);
        (left, self.path(race, left))
    }

    /// The place to which an entry leads, in every instance.
    #[tactic(auto, unfolding(crate::specs::Tables::path_of))]
    pub fn path(&self, race: u32, entry: u32) -> u32
        requires race { race < length self.now.plan.races }
        requires entry { entry < entries_of self.now.plan race }
        ensures value { result ≡ path_of self.now.plan self.now.seed race entry }
        ensures bound { result < entries_of self.now.plan race }
    {
        let candidates = self.lists(race).candidates;
        let candidate = self.shown(race, entry);
        self.place_row(race, entry / candidates, candidate) * candidates + candidate
    }

    /// The row of the place to which the entry of a ballot row for a candidate leads.
    fn place_row(&self, race: u32, ballot_row: u32, candidate: u32) -> u32
        requires race { race < length self.now.plan.races }
        requires ballot_row { ballot_row < rows_of self.now.plan race }
        requires candidate { candidate < candidates_of self.now.plan race }
        ensures value { result ≡ place_row self.now.plan self.now.seed race ballot_row candidate }
        ensures bound { result < rows_of self.now.plan race }
    {
        let rows = self.lists(race).place_rows.get(candidate as usize);
        *rows.get(ballot_row as usize)
    }

    /// The left pointer of a row of an instance: an entry.
    pub(crate) fn left(&self, race: u32, instance: u32, row: u32) -> u32
        requires race { race < length self.now.plan.races }
        requires instance { instance < self.now.plan.instances }
        requires row { row < entries_of self.now.plan race }
        ensures value { result ≡ left_of self.now.plan self.now.seed race instance row }
        ensures bound { result < entries_of self.now.plan race }
    {
        let entries = self.lists(race).lefts.get(instance as usize);
        *entries.get(row as usize)
    }

    /// The code of an entry: the one beside the candidate that it shows. It is a code of the plan's version.
    #[tactic(auto, unfolding(crate::specs::Tables::code_of_entry))]
    pub fn entry_code(&self, race: u32, entry: u32) -> u16
        requires race { race < length self.now.plan.races }
        requires entry { entry < entries_of self.now.plan race }
        ensures value { result ≡ code_of_entry self.now.plan self.now.seed race entry }
        ensures bound { result < codes_of self.now.plan.version }
    {
        let ballot_row = entry / self.lists(race).candidates;
        self.code(race, ballot_row, self.shown(race, entry))
    }

    /// The keys of a stream, from an item on.
    pub(crate) fn keys(&self, purpose: u32, race: u32, index: u32, item: u32) -> Keys
        requires known_purpose { (1 ≤ purpose) × (purpose ≤ 7) }
        requires race { race < length self.now.plan.races }
        ensures { KeepsKeys self.now.plan self.now.seed purpose race index item result }
    {
        Keys::at(&self.seed, stream(purpose, race, index), item)
    }

    /// The openings of a race's entries in turn, from `entry` on.
    pub fn q_openings(&self, race: u32, entry: u32) -> QOpenings<'_>
        requires { race < length self.now.plan.races }
        ensures { result ≡ record { plan = self.now.plan; seed = self.now.seed; race = race; entry = entry } }
    {
        QOpenings::at(self, race, entry)
    }

    /// The openings of both pointers of an instance's rows in turn, from `row` on.
    pub fn row_openings(&self, race: u32, instance: u32, row: u32) -> RowOpenings<'_>
        requires race { race < length self.now.plan.races }
        requires instance { instance < self.now.plan.instances }
        ensures { result ≡ record { plan = self.now.plan; seed = self.now.seed; race = race; instance = instance; row = row } }
    {
        RowOpenings::at(self, race, instance, row)
    }

    /// What opens the commitment to an entry's code. Its value is a code of the plan's version.
    #[tactic(auto, unfolding(crate::specs::Tables::q_opening_of))]
    pub fn q_opening(&self, race: u32, entry: u32) -> Opening
        requires race { race < length self.now.plan.races }
        requires entry { entry < entries_of self.now.plan race }
        ensures opening { result ≡ q_opening_of self.now.plan self.now.seed race entry }
        ensures bound { result.value < codes_of self.now.plan.version }
    {
        let value = u32::from(self.entry_code(race, entry));
        let key = Key(self.keys(ENTRY_KEYS, race, 0, entry).next());
        Opening { key, value }
    }

    /// What opens the commitment to a row's left pointer. Its value is an entry of the race.
    #[tactic(auto, unfolding(crate::specs::Tables::left_opening_of))]
    pub fn left_opening(&self, race: u32, instance: u32, row: u32) -> Opening
        requires race { race < length self.now.plan.races }
        requires instance { instance < self.now.plan.instances }
        requires row { row < entries_of self.now.plan race }
        ensures opening { result ≡ left_opening_of self.now.plan self.now.seed race instance row }
        ensures bound { result.value < entries_of self.now.plan race }
    {
        let value = self.left(race, instance, row);
        let key = Key(self.keys(LEFT_KEYS, race, instance, row).next());
        Opening { key, value }
    }

    /// What opens the commitment to a row's right pointer. Its value is a place of the race.
    #[tactic(auto, unfolding(crate::specs::Tables::right_opening_of))]
    pub fn right_opening(&self, race: u32, instance: u32, row: u32) -> Opening
        requires race { race < length self.now.plan.races }
        requires instance { instance < self.now.plan.instances }
        requires row { row < entries_of self.now.plan race }
        ensures opening { result ≡ right_opening_of self.now.plan self.now.seed race instance row }
        ensures bound { result.value < entries_of self.now.plan race }
    {
        let (_, value) = self.r_row(race, instance, row);
        let key = Key(self.keys(RIGHT_KEYS, race, instance, row).next());
        Opening { key, value }
    }
}
