//! The book of a plan: its ballots, how large its races are, and where a coordinate stands in a flat table.
ghost use Rattle.std.specs.Prelude.{◌≡◌, ◌+◌, ◌<◌, ◌≤◌, IfOk, None, length, true};
ghost use Rattle.sg_ledger.specs.inside.Sizes.{AreSizes};
ghost use Rattle.sg_plan.specs.Ballots.{all_entries, ballot_has, candidates_of, entries_of, entry_at, entry_place, r_rows, row_place, votes_of};
ghost use Rattle.sg_plan.specs.Limits.{fault_of};

use sg_plan::{BallotIndex, Items, NoMemory, Plan};
use std::alloc::Global;
use std::marker::Model;

/// How many entries the races have.
#[derive(Debug, Drop)]
pub struct Sizes {
    /// How many entries the races before each race have.
    pub before: Items<u32>,
    /// How many entries each race has.
    pub entries: Items<u32>,
    /// How many entries all races have.
    pub all: u32,
}

/// A plan without a fault, with an index of its ballots and how many entries its races have, so that a place in a table
/// is found in constant time. Contracts see the plan alone.
#[derive(Debug, Drop)]
pub struct Book {
    index: BallotIndex,
    sizes: Sizes,
}

impl Model for Book {
    ghost use Rattle.sg_ledger.specs.inside.Sizes.{AreSizes};
    ghost use Rattle.sg_plan.specs.declared.plan.Plan.{Plan};

    ghost Value = { Plan };

    ghost view = { λ book. book.index };

    ghost invariant = { λ book. AreSizes book.index book.sizes };
}

impl Book {
    /// The book of the plan that is indexed, with the sizes of its races.
    pub fn open(index: BallotIndex, sizes: Sizes) -> Book
        requires { AreSizes index sizes }
        ensures { result ≡ index }
    {
        Book { index, sizes }
    }

    /// The plan itself. It has no fault.
    pub fn plan(&self) -> &Plan
        ensures plan { result.now ≡ self.now }
        ensures good { fault_of self.now ≡ None }
    {
        self.index.plan()
    }

    /// How many candidates the race has.
    pub fn candidates(&self, race: u32) -> usize
        ensures { result ≡ candidates_of self.now race }
    {
        self.index.plan().candidates(race)
    }

    /// How many votes a voter has in the race.
    pub fn votes(&self, race: u32) -> u32
        ensures { result ≡ votes_of self.now race }
    {
        self.index.plan().votes(race)
    }

    /// How many entries the race has.
    pub fn entries(&self, race: u32) -> u32
        requires race { race < length self.now.races }
        ensures { result ≡ entries_of self.now race }
    {
        *self.sizes.entries.get(race as usize)
    }

    /// The first entry of the ballot in the race.
    pub fn first_entry(&self, race: u32, ballot: u32) -> u32
        requires race { race < length self.now.races }
        requires has { ballot_has self.now ballot race ≡ true }
        ensures first { result ≡ entry_at self.now race ballot 0 }
        ensures within { result + candidates_of self.now race ≤ entries_of self.now race }
    {
        let row = self.index.row(race, ballot);
        row * self.index.plan().candidates(race) as u32
    }

    /// Where the entry stands in a table of all entries.
    pub fn entry_place(&self, race: u32, entry: u32) -> usize
        requires race { race < length self.now.races }
        requires entry { entry ≤ entries_of self.now race }
        ensures place { result ≡ entry_place self.now race entry }
        ensures within { entry < entries_of self.now race → result < all_entries self.now }
    {
        *self.sizes.before.get(race as usize) as usize + entry as usize
    }

    /// Where the row of an instance stands in a table of all rows.
    pub fn row_place(&self, race: u32, instance: u32, row: u32) -> usize
        requires race { race < length self.now.races }
        requires instance { instance < self.now.instances }
        requires row { row ≤ entries_of self.now race }
        ensures place { result ≡ row_place self.now race instance row }
        ensures within { row < entries_of self.now race → result < r_rows self.now }
    {
        let before = *self.sizes.before.get(race as usize) as usize;
        let entries = *self.sizes.entries.get(race as usize) as usize;
        self.index.plan().instances as usize * before + (instance as usize * entries + row as usize)
    }
}

/// The sizes of the races of the plan.
pub fn measure(alloc: Global, index: &BallotIndex) -> Result<Sizes, NoMemory>
    ensures { IfOk result (λ sizes. AreSizes index.now sizes) }
{
    let plan = index.plan();
    let mut before = Items::with_room(alloc, plan.races.len())?;
    let mut entries = Items::with_room(alloc, plan.races.len())?;
    let mut all = 0;
    for race in 0..plan.races.len() {
        let count = plan.entries(race as u32);
        before.push(all)?;
        entries.push(count)?;
        all += count;
    }
    Ok(Sizes {
        before,
        entries,
        all,
    })
}

/// How many rows all races have in all instances.
pub fn count_rows(index: &BallotIndex, sizes: &Sizes) -> usize
    requires { AreSizes index.now sizes.now }
    ensures { result ≡ r_rows index.now }
{
    index.plan().instances as usize * sizes.all as usize
}
