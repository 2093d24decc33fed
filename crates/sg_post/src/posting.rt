//! The marks, flags, places and totals of a story, and what they answer.
ghost use Rattle.std.specs.Prelude.{◌≡◌, ◌<◌, ℕ, List, IfOk, OnOk, true};
ghost use Rattle.sg_plan.specs.declared.plan.Plan.{Plan};
ghost use Rattle.sg_post.specs.Fits.{fates_fit, story_fits};
ghost use Rattle.sg_post.specs.Marks.{flag_of, is_entry_marked, is_place_set, total_of};
ghost use Rattle.sg_post.specs.Posting.{HasItem, HasItemIn, IsPosting};
ghost use Rattle.sg_post.specs.declared.story.Told.{Told};

use crate::ballot_marks::{audited_ballots, mark_races};
use crate::making::{flag_races, place_races};
use crate::story::{Story, Told};
use crate::totals::total_races;
use sg_plan::{BallotIndex, Items, NoMemory};
use sg_tables::Tables;
use std::alloc::Global;
use std::mem;

/// What the fates of the ballots make of the tables: lists by race, instance and number.
///
/// `IsPosting` says whose they are. Only `make` takes memory: a byte for each entry, row and place, and an index of
/// the plan's ballots.
#[derive(Debug, Drop)]
pub struct Posting {
    /// The index of the plan's ballots.
    pub(crate) index: BallotIndex,
    /// Whether each entry is marked, by race.
    pub(crate) marks: Items<Items<bool>>,
    /// The flag of each row, by race and instance.
    pub(crate) flags: Items<Items<Items<bool>>>,
    /// Whether each place is set, by race.
    pub(crate) places: Items<Items<bool>>,
    /// The total of each candidate, by race.
    pub(crate) totals: Items<Items<u32>>,
    /// Whether each ballot was audited, from number 0 on, which is none.
    pub(crate) audited: Items<bool>,
}

/// Lets a posting go, for want of memory.
fn dropped(posting: Posting) -> NoMemory {
    drop(posting);
    NoMemory
}

impl Posting {
    /// The posting of a story over these tables, made in the time of the ballots in their races, the marks and the
    /// rows. It refuses for want of memory alone.
    pub fn make(alloc: Global, tables: &Tables, story: &Story) -> Result<Posting, NoMemory>
        requires { story_fits tables.now.plan story.now ≡ true }
        ensures { IfOk result (λ posting. IsPosting tables.now.plan tables.now.seed story.now.fates posting) }
    {
        let index = BallotIndex::make(alloc, tables.plan())?;
        let mut posting = Posting::blank(alloc, index);
        match posting.fill(alloc, tables, &story.fates) {
            Ok(()) => Ok(posting),
            Err(NoMemory) => Err(dropped(posting)),
        }
    }

    /// No list yet, over this index.
    fn blank(alloc: Global, index: BallotIndex) -> Posting
        ensures { result.index ≡ index }
    {
        Posting {
            index,
            marks: Items::new(alloc),
            flags: Items::new(alloc),
            places: Items::new(alloc),
            totals: Items::new(alloc),
            audited: Items::new(alloc),
        }
    }

    /// Makes the lists, each from those before it.
    fn fill(&mut self, alloc: Global, tables: &Tables, fates: &Items<Told>) -> Result<(), NoMemory>
        requires index { self.old.index ≡ tables.now.plan }
        requires fits { fates_fit tables.now.plan 0 fates.now ≡ true }
        ensures { OnOk result (IsPosting tables.now.plan tables.now.seed fates.now self.new) }
    {
        let marks = mark_races(alloc, tables, &self.index, fates)?;
        drop(mem::replace(&mut self.marks, marks));
        let flags = flag_races(alloc, tables, &self.marks)?;
        drop(mem::replace(&mut self.flags, flags));
        let places = place_races(alloc, tables, &self.marks)?;
        drop(mem::replace(&mut self.places, places));
        let totals = total_races(alloc, tables, &self.places)?;
        drop(mem::replace(&mut self.totals, totals));
        let audited = audited_ballots(alloc, &self.index, fates)?;
        drop(mem::replace(&mut self.audited, audited));
        Ok(())
    }

    /// Whether an entry of a race is marked: its code is posted.
    pub fn marked(&self, race: u32, entry: u32) -> bool
        requires { HasItem self.now.marks race entry }
        ensures { (plan : Plan) (seed : List ℕ) (fates : List Told) → IsPosting plan seed fates self.now → result ≡ is_entry_marked plan seed fates race entry }
    {
        *self.marks.get(race as usize).get(entry as usize)
    }

    /// The flag of a row of an instance: whether the entry to which it points is marked.
    pub fn flag(&self, race: u32, instance: u32, row: u32) -> bool
        requires { HasItemIn self.now.flags race instance row }
        ensures { (plan : Plan) (seed : List ℕ) (fates : List Told) → IsPosting plan seed fates self.now → result ≡ flag_of plan seed fates race instance row }
    {
        *self
            .flags
            .get(race as usize)
            .get(instance as usize)
            .get(row as usize)
    }

    /// Whether a place of a race is set: a marked entry leads to it.
    pub fn s_flag(&self, race: u32, place: u32) -> bool
        requires { HasItem self.now.places race place }
        ensures { (plan : Plan) (seed : List ℕ) (fates : List Told) → IsPosting plan seed fates self.now → result ≡ is_place_set plan seed fates race place }
    {
        *self.places.get(race as usize).get(place as usize)
    }

    /// The total of a candidate of a race: how many places in its column are set.
    pub fn total(&self, race: u32, candidate: u32) -> u32
        requires { HasItem self.now.totals race candidate }
        ensures { (plan : Plan) (seed : List ℕ) (fates : List Told) → IsPosting plan seed fates self.now → result ≡ total_of plan seed fates race candidate }
    {
        *self.totals.get(race as usize).get(candidate as usize)
    }
}
