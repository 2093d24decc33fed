//! What is kept of ballots.
ghost use Rattle.std.specs.Prelude.{◌≡◌, ◌<◌, ◌≤◌, Some, length};
ghost use Rattle.sg_histories.specs.Histories.{fate_word, phase_word};
ghost use Rattle.sg_office.specs.inside.Now.{fate_at, scanner_at, slot_at, word_at};

use sg_acts::{FateWord, Phase};
use sg_histories::Slot;
use sg_plan::{Fate, Items, Stage};

/// A fate without its details.
pub fn fate_word(fate: &Fate) -> FateWord
    ensures { result ≡ fate_word fate.now }
{
    match fate {
        Fate::Unused => FateWord::Unused,
        Fate::Cast(_) => FateWord::Cast,
        Fate::Spoiled => FateWord::Spoiled,
        Fate::Audited(_) => FateWord::Audited,
        Fate::Voided => FateWord::Voided,
    }
}

/// A stage without its draw.
pub fn phase_word(stage: &Stage) -> Phase
    ensures { result ≡ phase_word stage.now }
{
    match stage {
        Stage::Voting => Phase::Voting,
        Stage::Closed => Phase::Closed,
        Stage::Drawn(_) => Phase::Drawn,
    }
}

/// The fate that is kept of a ballot.
pub fn word_at(slots: &Items<Slot>, ballot: u32) -> FateWord
    ensures { result ≡ word_at slots.now ballot }
{
    if ballot == 0 {
        return FateWord::Unused;
    }
    let place = ballot as usize - 1;
    if place >= slots.len() {
        return FateWord::Unused;
    }
    fate_word(&slots.get(place).fate)
}

/// The station that is kept of a ballot.
pub fn scanner_at(slots: &Items<Slot>, ballot: u32) -> u32
    ensures { result ≡ scanner_at slots.now ballot }
{
    if ballot == 0 {
        return 0;
    }
    let place = ballot as usize - 1;
    if place >= slots.len() {
        return 0;
    }
    slots.get(place).station
}

/// The fate that is kept of a ballot, with its details.
pub fn fate_at(slots: &Items<Slot>, ballot: u32) -> &Fate
    requires first { 1 ≤ ballot }
    requires last { ballot ≤ length slots.now }
    ensures { result.now ≡ fate_at slots.now ballot }
{
    &slots.get(ballot as usize - 1).fate
}
