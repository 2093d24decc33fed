//! What an office keeps.
use sg_keeper::{DoneRow, Setup};
use sg_plan::{Fate, Items, Stage};

/// What is known of a ballot: its fate, and the station of its scan.
#[derive(Debug, Drop)]
pub struct Slot {
    /// What became of the ballot.
    pub fate: Fate,
    /// The station that scanned it; 0 where none did.
    pub station: u32,
}

/// A claim that was accepted.
#[derive(Clone, Copy, Debug)]
pub struct Claim {
    /// The ballot's number, from 1.
    pub ballot: u32,
    /// The race's number, from 0.
    pub race: u32,
    /// The code that is claimed.
    pub code: u16,
}

/// All that an office keeps of an election.
#[derive(Drop)]
pub struct Kept {
    /// The plan, the seed and the stations' secrets.
    pub setup: Setup,
    /// What is known of each ballot: ballot 1 stands first.
    pub slots: Items<Slot>,
    /// How far the election is.
    pub stage: Stage,
    /// The claims, the oldest first.
    pub claims: Items<Claim>,
    /// The acts that were done, rising by station and number.
    pub dones: Items<DoneRow>,
}
