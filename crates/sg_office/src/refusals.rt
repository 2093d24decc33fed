//! Why an act is refused, in the order in which the reasons are tried.
ghost use Rattle.std.specs.Prelude.{◌≡◌, ◌<◌, ◌≤◌, ◌^◌, None, length};
ghost use Rattle.sg_histories.specs.Answers.{audit_refusal, claim_refusal, close_refusal, draw_refusal, early_refusal, scan_refusal, void_refusal, is_ballot};

use crate::marks::{first_in_no_race, first_of_no_candidate, first_twice};
use crate::papers::fits_paper;
use sg_acts::{FateWord, Phase, Reply};
use sg_plan::limits::MOST_CLAIMS;
use sg_plan::{BallotIndex, Draw, Items, Mark, Paper};
use sg_record::is_draw;

/// The ballot is in the plan.
pub fn is_ballot(index: &BallotIndex, ballot: u32) -> bool
    ensures { result ≡ is_ballot index.now ballot }
{
    1 <= ballot && ballot <= index.ballots()
}

/// Why a ballot that should have no fate yet is refused, as far as marks and papers say nothing.
pub fn early_refusal(
    index: &BallotIndex,
    phase: Phase,
    fate: FateWord,
    ballot: u32,
) -> Option<Reply>
    ensures { result ≡ early_refusal index.now phase fate ballot }
{
    match phase {
        Phase::Voting => {}
        Phase::Closed => return Some(Reply::Phase(Phase::Closed)),
        Phase::Drawn => return Some(Reply::Phase(Phase::Drawn)),
    }
    if !is_ballot(index, ballot) {
        return Some(Reply::Ballot);
    }
    match fate {
        FateWord::Unused => None,
        FateWord::Cast => Some(Reply::Fate(FateWord::Cast)),
        FateWord::Spoiled => Some(Reply::Fate(FateWord::Spoiled)),
        FateWord::Audited => Some(Reply::Fate(FateWord::Audited)),
        FateWord::Voided => Some(Reply::Fate(FateWord::Voided)),
    }
}

/// Why a scan is refused.
pub fn scan_refusal(
    index: &BallotIndex,
    phase: Phase,
    fate: FateWord,
    ballot: u32,
    marks: &Items<Mark>,
) -> Option<Reply>
    requires { length marks.now < 2 ^ 32 }
    ensures { result ≡ scan_refusal index.now phase fate ballot marks.now }
{
    if let Some(refusal) = early_refusal(index, phase, fate, ballot) {
        return Some(refusal);
    }
    if let Some(at) = first_in_no_race(index, ballot, marks) {
        return Some(Reply::Race(at));
    }
    if let Some(at) = first_of_no_candidate(index.plan(), marks) {
        return Some(Reply::Candidate(at));
    }
    if let Some(at) = first_twice(marks) {
        return Some(Reply::Twice(at));
    }
    None
}

/// Why a print audit is refused.
pub fn audit_refusal(
    index: &BallotIndex,
    phase: Phase,
    fate: FateWord,
    ballot: u32,
    paper: &Paper,
) -> Option<Reply>
    ensures { result ≡ audit_refusal index.now phase fate ballot paper.now }
{
    if let Some(refusal) = early_refusal(index, phase, fate, ballot) {
        return Some(refusal);
    }
    if !fits_paper(index, ballot, paper) {
        return Some(Reply::Paper);
    }
    None
}

/// Why a claim is refused, where so many are kept.
pub fn claim_refusal(
    index: &BallotIndex,
    phase: Phase,
    kept: usize,
    ballot: u32,
    race: u32,
) -> Option<Reply>
    ensures { result ≡ claim_refusal index.now phase kept ballot race }
{
    match phase {
        Phase::Drawn => {}
        Phase::Voting => return Some(Reply::Phase(Phase::Voting)),
        Phase::Closed => return Some(Reply::Phase(Phase::Closed)),
    }
    if !is_ballot(index, ballot) {
        return Some(Reply::Ballot);
    }
    if !index.has(ballot, race) {
        return Some(Reply::Race(0));
    }
    if kept >= MOST_CLAIMS {
        return Some(Reply::Full);
    }
    None
}

/// Why a station may not void the scan of a ballot.
pub fn void_refusal(
    index: &BallotIndex,
    phase: Phase,
    fate: FateWord,
    scanner: u32,
    station: u32,
    ballot: u32,
) -> Option<Reply>
    ensures { result ≡ void_refusal index.now phase fate scanner station ballot }
{
    match phase {
        Phase::Voting => {}
        Phase::Closed => return Some(Reply::Phase(Phase::Closed)),
        Phase::Drawn => return Some(Reply::Phase(Phase::Drawn)),
    }
    if !is_ballot(index, ballot) {
        return Some(Reply::Ballot);
    }
    match fate {
        FateWord::Cast => {}
        FateWord::Unused => return Some(Reply::Fate(FateWord::Unused)),
        FateWord::Spoiled => return Some(Reply::Fate(FateWord::Spoiled)),
        FateWord::Audited => return Some(Reply::Fate(FateWord::Audited)),
        FateWord::Voided => return Some(Reply::Fate(FateWord::Voided)),
    }
    if station == scanner {
        return Some(Reply::Station(scanner));
    }
    None
}

/// Why the close is refused.
pub fn close_refusal(phase: Phase) -> Option<Reply>
    ensures { result ≡ close_refusal phase }
{
    match phase {
        Phase::Voting => None,
        Phase::Closed => Some(Reply::Phase(Phase::Closed)),
        Phase::Drawn => Some(Reply::Phase(Phase::Drawn)),
    }
}

/// Why the draw is refused.
pub fn draw_refusal(phase: Phase, draw: &Draw) -> Option<Reply>
    ensures { result ≡ draw_refusal phase draw.now }
{
    match phase {
        Phase::Closed => {}
        Phase::Voting => return Some(Reply::Phase(Phase::Voting)),
        Phase::Drawn => return Some(Reply::Phase(Phase::Drawn)),
    }
    if !is_draw(draw) {
        return Some(Reply::Draw);
    }
    None
}
