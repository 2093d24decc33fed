//! The plain types of an election that all crates share.
use crate::items::Items;
use crate::word::Word;

/// What an election votes on, how, and on which papers.
///
/// `Plan::check` says whether the plan keeps its limits.
#[derive(Debug, Drop)]
pub struct Plan {
    /// The version of the record: 1 or 2.
    pub version: u32,
    /// The election's name.
    pub name: Word,
    /// How many instances of table R each race has: 1 to 16.
    pub instances: u32,
    /// The races, 1 to 32 of them. A race is named by its place here.
    pub races: Items<Race>,
    /// The styles of paper, 1 to 32 of them. A style is named by its place here.
    pub styles: Items<Style>,
    /// Which ballots have which style. Ballots are numbered from 1 on through all runs.
    pub runs: Items<Run>,
}

/// A race: its name, who stands in it, and how many votes a voter has.
#[derive(Debug, Drop)]
pub struct Race {
    /// The race's name. No other race has it.
    pub name: Word,
    /// The candidates' names, 2 to 16 of them, all different.
    pub candidates: Items<Word>,
    /// How many candidates a voter may mark: 1 to the number of candidates.
    pub votes: u32,
}

/// A kind of paper: its name, and the races that it carries.
#[derive(Debug, Drop)]
pub struct Style {
    /// The style's name. No other style has it.
    pub name: Word,
    /// The numbers of its races, strictly rising.
    pub races: Items<u32>,
}

/// The next `count` ballots are of this style.
#[derive(Clone, Copy, Debug, PartialEq, Eq)]
pub struct Run {
    /// The style's number.
    pub style: u32,
    /// How many ballots: at least 1.
    pub count: u32,
}

/// A voter's mark beside a candidate of a race.
#[derive(Clone, Copy, Debug, PartialEq, Eq)]
pub struct Mark {
    /// The race's number.
    pub race: u32,
    /// The candidate's number in the race.
    pub candidate: u32,
}

/// The codes read from one paper: a list for each race of its style, by candidate.
pub type Paper = Items<Items<u16>>;

/// What became of a ballot.
#[derive(Debug, Drop)]
pub enum Fate {
    /// Nothing was told of it.
    Unused,
    /// It was scanned with these marks.
    Cast(Items<Mark>),
    /// It was spoiled.
    Spoiled,
    /// It was taken out for a print audit, and these codes were read from it.
    Audited(Paper),
    /// Its scan was voided by another station.
    Voided,
}

/// How the sides to open are drawn.
#[derive(Debug, Drop)]
pub enum Draw {
    /// Both sides of each row are opened.
    Full,
    /// These public bytes decide, 1 to 4,096 of them.
    Public(Word),
}

/// How far the election has come.
#[derive(Debug, Drop)]
pub enum Stage {
    /// Ballots are scanned, spoiled and audited.
    Voting,
    /// Marks and totals are posted.
    Closed,
    /// Sides are drawn and opened.
    Drawn(Draw),
}

/// What the office answers a voter who claims that a code should be posted.
#[derive(Clone, Copy, Debug, PartialEq, Eq)]
pub enum ClaimWord {
    /// The code is among the ballot's posted codes of the race.
    Posted,
    /// The code is one of the ballot's codes in the race, and not posted.
    Unposted,
    /// The ballot has no such code in the race.
    Absent,
}

/// A side of a row of table R.
#[derive(Clone, Copy, Debug, PartialEq, Eq)]
pub enum Side {
    /// The pointer to an entry of table Q.
    Left,
    /// The pointer to a place of table S.
    Right,
}
