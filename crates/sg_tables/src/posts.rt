//! What a ballot posts in a race, by its ballot row and its fate.
ghost use Rattle.std.specs.Prelude.{◌≡◌, ◌<◌, ◌==◌, ◌&&◌, length, IfOk};
ghost use Rattle.sg_plan.specs.Ballots.{candidates_of, entries_of, rows_of};
ghost use Rattle.sg_plan.specs.Fates.{has_mark};
ghost use Rattle.sg_tables.specs.Posts.{column_marked, fate_marks, has_code, is_void, posted_codes, right_word, row_entry, void_races};
ghost use Rattle.sg_tables.specs.Tables.{code_of_entry, codes_of_row, shown_by};

use crate::table_set::Tables;
use sg_plan::{ClaimWord, Fate, Items, Mark, NoMemory, Plan};
use std::alloc::Global;

/// One of the marks is beside the candidate of the race.
fn has_mark(marks: &Items<Mark>, race: u32, candidate: u32) -> bool
    ensures { result ≡ has_mark marks.now race candidate }
{
    marks
        .as_slice()
        .iter()
        .any(|mark| mark.race == race && mark.candidate == candidate)
}

/// A ballot with this fate marks the candidate.
fn fate_marks(plan: &Plan, race: u32, candidate: u32, fate: &Fate) -> bool
    requires { race < length plan.now.races }
    ensures { result ≡ fate_marks plan.now race candidate fate.now }
{
    match fate {
        Fate::Cast(marks) => has_mark(marks, race, candidate) && !plan.over(marks, race),
        Fate::Unused => false,
        Fate::Spoiled => false,
        Fate::Audited(_) => false,
        Fate::Voided => false,
    }
}

impl Tables {
    /// The race is void on a ballot with this fate: it is cast, and has more marks there than a voter has votes.
    pub fn is_void(&self, fate: &Fate, race: u32) -> bool
        requires { race < length self.now.plan.races }
        ensures { result ≡ is_void self.now.plan fate.now race }
    {
        match fate {
            Fate::Cast(marks) => self.plan().over(marks, race),
            Fate::Unused => false,
            Fate::Spoiled => false,
            Fate::Audited(_) => false,
            Fate::Voided => false,
        }
    }

    /// The void races of a ballot with this fate, rising. It refuses for want of memory alone.
    pub fn void_races(&self, alloc: Global, fate: &Fate) -> Result<Items<u32>, NoMemory>
        ensures { IfOk result (λ races. races ≡ void_races self.now.plan fate.now) }
    {
        let count = self.plan().races.len() as u32;
        let mut races = Items::new(alloc);
        for race in 0..count {
            if !self.is_void(fate, race) {
                continue;
            }
            races.push(race)?;
        }
        Ok(races)
    }

    /// The entry in a column of a ballot row.
    pub fn row_entry(&self, race: u32, ballot_row: u32, column: u32) -> u32
        requires race { race < length self.now.plan.races }
        requires ballot_row { ballot_row < rows_of self.now.plan race }
        requires column { column < candidates_of self.now.plan race }
        ensures value { result ≡ row_entry self.now.plan race ballot_row column }
        ensures bound { result < entries_of self.now.plan race }
    {
        ballot_row * self.lists(race).candidates + column
    }

    /// The column of a ballot row shows a candidate that a ballot with this fate marks.
    pub fn column_marked(&self, race: u32, ballot_row: u32, fate: &Fate, column: u32) -> bool
        requires race { race < length self.now.plan.races }
        requires ballot_row { ballot_row < rows_of self.now.plan race }
        requires column { column < candidates_of self.now.plan race }
        ensures { result ≡ column_marked self.now.plan self.now.seed race ballot_row fate.now column }
    {
        let shown = self.shown(race, self.row_entry(race, ballot_row, column));
        fate_marks(self.plan(), race, shown, fate)
    }

    /// The codes that a ballot with this fate posts in a race, by column. It refuses for want of memory alone.
    pub fn posted_codes(
        &self,
        alloc: Global,
        race: u32,
        ballot_row: u32,
        fate: &Fate,
    ) -> Result<Items<u16>, NoMemory>
        requires race { race < length self.now.plan.races }
        requires ballot_row { ballot_row < rows_of self.now.plan race }
        ensures { IfOk result (λ codes. codes ≡ posted_codes self.now.plan self.now.seed race ballot_row fate.now) }
    {
        let candidates = self.lists(race).candidates;
        let mut codes = Items::new(alloc);
        for column in 0..candidates {
            if !self.column_marked(race, ballot_row, fate, column) {
                continue;
            }
            codes.push(self.entry_code(race, self.row_entry(race, ballot_row, column)))?;
        }
        Ok(codes)
    }

    /// The code is one of those that a ballot with this fate posts in a race.
    fn posts_code(&self, race: u32, ballot_row: u32, fate: &Fate, code: u16) -> bool
        requires race { race < length self.now.plan.races }
        requires ballot_row { ballot_row < rows_of self.now.plan race }
        ensures { result ≡ has_code (posted_codes self.now.plan self.now.seed race ballot_row fate.now) code }
    {
        let candidates = self.lists(race).candidates;
        for column in 0..candidates {
            if self.column_posts(race, ballot_row, fate, column, code) {
                return true;
            }
        }
        false
    }

    /// The column of a ballot row is marked, and its entry has the code.
    fn column_posts(&self, race: u32, ballot_row: u32, fate: &Fate, column: u32, code: u16) -> bool
        requires race { race < length self.now.plan.races }
        requires ballot_row { ballot_row < rows_of self.now.plan race }
        requires column { column < candidates_of self.now.plan race }
        ensures { result ≡ (column_marked self.now.plan self.now.seed race ballot_row fate.now column
            && code_of_entry self.now.plan self.now.seed race (row_entry self.now.plan race ballot_row column) == code) }
    {
        if !self.column_marked(race, ballot_row, fate, column) {
            return false;
        }
        self.entry_code(race, self.row_entry(race, ballot_row, column)) == code
    }

    /// The code stands on the paper of the ballot row.
    fn prints_code(&self, race: u32, ballot_row: u32, code: u16) -> bool
        requires race { race < length self.now.plan.races }
        requires ballot_row { ballot_row < rows_of self.now.plan race }
        ensures { result ≡ has_code (codes_of_row self.now.plan self.now.seed race ballot_row) code }
    {
        let candidates = self.lists(race).candidates;
        for candidate in 0..candidates {
            if self.code(race, ballot_row, candidate) == code {
                return true;
            }
        }
        false
    }

    /// The right answer to a claim of a code in a race, where the ballot of this row has this fate: `Posted`
    /// where the code is posted, else `Unposted` where it stands on the ballot's paper, else `Absent`.
    #[tactic(auto, unfolding(crate::specs::Posts::right_word))]
    pub fn right_word(&self, race: u32, ballot_row: u32, fate: &Fate, code: u16) -> ClaimWord
        requires race { race < length self.now.plan.races }
        requires ballot_row { ballot_row < rows_of self.now.plan race }
        ensures { result ≡ right_word self.now.plan self.now.seed race ballot_row fate.now code }
    {
        if self.posts_code(race, ballot_row, fate, code) {
            return ClaimWord::Posted;
        }
        if self.prints_code(race, ballot_row, code) {
            return ClaimWord::Unposted;
        }
        ClaimWord::Absent
    }
}
