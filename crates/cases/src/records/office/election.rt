//! The election of the small offices: its plan, and what became of each ballot.
use super::tables::{BALLOTS, CANDIDATES, INSTANCES, code_of, entry_of, key_of, shown};
use sg_commit::CommitKind;
use sg_plan::{Items, NoMemory, Plan, Race, Run, Style, Word};
use sg_record::{BallotBlock, BlockFate, CastLine, CodeLine};
use std::alloc::Global;

/// The version of the record.
const VERSION: u32 = 1;

/// How many candidates a voter may mark.
const VOTES: u32 = 1;

/// The number of the race.
pub(super) const RACE: u32 = 0;

/// The number of the style.
const STYLE: u32 = 0;

/// What became of a ballot.
#[derive(Clone, Copy, Debug, PartialEq, Eq)]
enum BallotUse {
    /// It was cast with a mark beside this candidate.
    Marked(u32),
    /// It was cast without a mark.
    Blank,
    /// It was spoiled.
    Spoiled,
    /// It was not used.
    Unused,
}

/// What became of the ballots, from the first one on.
const USES: [BallotUse; 8] = [
    BallotUse::Marked(0),
    BallotUse::Marked(1),
    BallotUse::Spoiled,
    BallotUse::Marked(0),
    BallotUse::Blank,
    BallotUse::Marked(0),
    BallotUse::Unused,
    BallotUse::Marked(1),
];

/// What became of the ballot of this row.
fn use_of(ballot_row: u32) -> BallotUse {
    match USES.get(ballot_row as usize) {
        Some(ballot_use) => *ballot_use,
        None => BallotUse::Unused,
    }
}

/// The entry is marked.
pub(super) fn is_marked(entry: u32) -> bool {
    use_of(entry / CANDIDATES) == BallotUse::Marked(shown(entry))
}

/// A word of these bytes.
fn word(alloc: Global, text: &[u8]) -> Result<Word, NoMemory> {
    let mut word = Word::new(alloc);
    word.extend(text)?;
    Ok(word)
}

/// Puts a candidate.
fn put_candidate(alloc: Global, race: &mut Race, name: &[u8]) -> Result<(), NoMemory> {
    race.candidates.push(word(alloc, name)?)
}

/// The one race.
fn race_of(alloc: Global) -> Result<Race, NoMemory> {
    let mut race = Race {
        name: word(alloc, b"Mayor")?,
        candidates: Items::new(alloc),
        votes: VOTES,
    };
    put_candidate(alloc, &mut race, b"Ada")?;
    put_candidate(alloc, &mut race, b"Ben")?;
    Ok(race)
}

/// The one style.
fn style_of(alloc: Global) -> Result<Style, NoMemory> {
    let mut style = Style {
        name: word(alloc, b"All")?,
        races: Items::new(alloc),
    };
    style.races.push(RACE)?;
    Ok(style)
}

/// The plan: one race, and one style for all ballots.
pub(super) fn plan_of(alloc: Global) -> Result<Plan, NoMemory> {
    let mut plan = Plan {
        version: VERSION,
        name: word(alloc, b"E")?,
        instances: u32::from(INSTANCES),
        races: Items::new(alloc),
        styles: Items::new(alloc),
        runs: Items::new(alloc),
    };
    plan.races.push(race_of(alloc)?)?;
    plan.styles.push(style_of(alloc)?)?;
    plan.runs.push(Run {
        style: STYLE,
        count: BALLOTS,
    })?;
    Ok(plan)
}

/// The line that opens the code of an entry.
fn code_line(entry: u32) -> CodeLine {
    CodeLine {
        race: RACE,
        column: entry % CANDIDATES,
        key: key_of(CommitKind::Q, 0, entry),
        code: code_of(entry),
    }
}

/// What the block of a ballot says. An unused one has none.
fn fate_of(alloc: Global, ballot_row: u32) -> Result<Option<BlockFate>, NoMemory> {
    let mut lines = Items::new(alloc);
    match use_of(ballot_row) {
        BallotUse::Marked(candidate) => {
            lines.push(CastLine::Code(code_line(entry_of(ballot_row, candidate))))?;
        }
        BallotUse::Blank => {}
        BallotUse::Spoiled => return Ok(Some(BlockFate::Spoiled)),
        BallotUse::Unused => return Ok(None),
    }
    Ok(Some(BlockFate::Cast(lines)))
}

/// Puts the blocks of all ballots.
pub(super) fn put_blocks(alloc: Global, blocks: &mut Items<BallotBlock>) -> Result<(), NoMemory> {
    for ballot_row in 0..BALLOTS {
        if let Some(fate) = fate_of(alloc, ballot_row)? {
            blocks.push(BallotBlock {
                ballot: ballot_row + 1,
                fate,
            })?;
        }
    }
    Ok(())
}
