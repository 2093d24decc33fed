//! The numbering of ballots, entries and places, which follows from the plan alone.
ghost use Rattle.std.specs.Prelude.{◌≡◌, ◌%◌, ◌<◌, ◌≤◌, true, length, None, Some};
ghost use Rattle.sg_plan.specs.Ballots.{IsBallotOf, ballot_has, ballot_row, ballots_of, candidates_of, entries_of, entry_in, is_over, rows_of, style_has, style_of_ballot, votes_of};
ghost use Rattle.sg_plan.specs.Limits.{fault_of};

use crate::ballots::{
    count_ballots, count_entries, count_rows, count_rows_before, place_of_row, style_at,
};
use crate::items::Items;
use crate::plan::{Mark, Plan};

impl Plan {
    /// How many ballots the plan has.
    pub fn ballots(&self) -> u32
        requires { fault_of self.now ≡ None }
        ensures { result ≡ ballots_of self.now }
    {
        count_ballots(&self.runs)
    }

    /// The number of the style of a ballot of the plan. Ballots are numbered from 1.
    pub fn style_of(&self, ballot: u32) -> u32
        requires first { 1 ≤ ballot }
        requires last { ballot ≤ ballots_of self.now }
        ensures { style_of_ballot self.now ballot ≡ Some result }
    {
        match style_at(&self.runs, ballot - 1) {
            Some(style) => style,
            None => unreachable!(),
        }
    }

    /// The style has the race. A style that the plan does not have has none.
    pub fn style_carries(&self, style: u32, race: u32) -> bool
        ensures { result ≡ style_has self.now race style }
    {
        let style = style as usize;
        if style >= self.styles.len() {
            return false;
        }
        self.styles
            .get(style)
            .races
            .as_slice()
            .iter()
            .any(|carried| *carried == race)
    }

    /// The ballot is in the plan, and its style has the race.
    pub fn carries(&self, ballot: u32, race: u32) -> bool
        ensures { result ≡ ballot_has self.now ballot race }
    {
        if ballot == 0 {
            return false;
        }
        match style_at(&self.runs, ballot - 1) {
            Some(style) => self.style_carries(style, race),
            None => false,
        }
    }

    /// How many candidates the race has: none where the plan has no such race.
    pub fn candidates(&self, race: u32) -> usize
        ensures { result ≡ candidates_of self.now race }
    {
        if race as usize >= self.races.len() {
            return 0;
        }
        self.races.get(race as usize).candidates.len()
    }

    /// How many votes a voter has in the race: none where the plan has no such race.
    pub fn votes(&self, race: u32) -> u32
        ensures { result ≡ votes_of self.now race }
    {
        if race as usize >= self.races.len() {
            return 0;
        }
        self.races.get(race as usize).votes
    }

    /// How many ballots have the race.
    pub fn rows(&self, race: u32) -> u32
        requires limits { fault_of self.now ≡ None }
        requires race { race < length self.now.races }
        ensures { result ≡ rows_of self.now race }
    {
        count_rows(self, race)
    }

    /// How many entries, places and rows of each instance the race has.
    pub fn entries(&self, race: u32) -> u32
        requires limits { fault_of self.now ≡ None }
        requires race { race < length self.now.races }
        ensures { result ≡ entries_of self.now race }
    {
        count_entries(self, race)
    }

    /// The ballot row of a ballot in a race: how many earlier ballots have the race.
    pub fn row_of(&self, race: u32, ballot: u32) -> u32
        requires first { 1 ≤ ballot }
        ensures { result ≡ ballot_row self.now race ballot }
    {
        count_rows_before(self, race, ballot - 1)
    }

    /// The entry in a column of a ballot.
    ///
    /// `None` exactly where the ballot is not in the plan or does not have the race, or where the race
    /// has no such column.
    pub fn entry(&self, race: u32, ballot: u32, column: u32) -> Option<u32>
        requires limits { fault_of self.now ≡ None }
        requires race { race < length self.now.races }
        ensures { result ≡ entry_in self.now race ballot column }
    {
        let candidates = self.candidates(race);
        if column as usize >= candidates {
            return None;
        }
        if !self.carries(ballot, race) {
            return None;
        }
        Some(self.row_of(race, ballot) * candidates as u32 + column)
    }

    /// The ballot that an entry of a race belongs to.
    pub fn ballot_of(&self, race: u32, entry: u32) -> u32
        requires limits { fault_of self.now ≡ None }
        requires race { race < length self.now.races }
        requires entry { entry < entries_of self.now race }
        ensures { IsBallotOf self.now race entry result }
    {
        place_of_row(self, race, entry / self.candidates(race) as u32) + 1
    }

    /// The candidate in whose column a place of a race stands.
    pub fn candidate_of(&self, race: u32, place: u32) -> u32
        requires limits { fault_of self.now ≡ None }
        requires race { race < length self.now.races }
        ensures { result ≡ place % candidates_of self.now race }
    {
        place % self.candidates(race) as u32
    }

    /// More of the marks name the race than a voter has votes in it.
    pub fn over(&self, marks: &Items<Mark>, race: u32) -> bool
        requires { race < length self.now.races }
        ensures { result ≡ is_over self.now marks.now race }
    {
        let votes = self.votes(race);
        let marked = marks
            .as_slice()
            .iter()
            .filter(|mark| mark.race == race)
            .count();
        marked > votes as usize
    }
}
