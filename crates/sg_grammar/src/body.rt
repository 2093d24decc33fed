//! Where a line behind the plan stands, and what may stand behind it.
ghost use Rattle.std.specs.Prelude.{◌≡◌, ◌<◌, ◌≤◌, nat_lt, Bool, true, false, ◌&&◌, None, IfSome, length};
ghost use Rattle.std.specs.Option.{option_map};
ghost use Rattle.sg_plan.specs.Ballots.{ballots_of, ballot_has, candidates_of};
ghost use Rattle.sg_forms.specs.Said.{said};
ghost use Rattle.sg_forms.specs.Said.Said.{Audited, Cast, Code, Dispute, Over, Spoiled, Voided};
ghost use Rattle.sg_grammar.specs.Head.{head_line};
ghost use Rattle.sg_grammar.specs.Made.{HasSizes, IsMade};
ghost use Rattle.sg_grammar.specs.Slots.{due_of, rest_of, IsIn, IsInSome, IsPartIn};
ghost use Rattle.sg_grammar.specs.Standing.{taken_at, IsStandingIn};
ghost use Rattle.sg_grammar.specs.Coordinates.{IsRaceOf};
ghost use Rattle.sg_grammar.specs.Walk.{after_block, after_dispute, after_run, begins, body_line, in_cast, follows_in_order, is_column, is_later, place, take_at, taking};

use crate::counted::CountedPlan;
use crate::placed::PlacedLine;
use crate::placing::place_in;
use crate::slots::{first_commit, first_of_audit, first_of_dispute, first_result, next_slot};
use crate::state::{Block, Head, Part, Slot};
use sg_forms::{CodeLine, Line};
use sg_plan::ClaimWord;
use sg_plan::limits::MOST_CLAIMS;

/// A line behind the plan in its place, and what may stand behind it.
///
/// `Expect::stand` gives it of a line, and `Expect::go_on` takes it.
#[derive(Clone, Copy, Debug)]
pub struct Standing<'a> {
    /// The line in its place.
    pub line: PlacedLine<'a>,
    /// The line that is due behind it.
    pub slot: Option<Slot>,
    /// What may begin where none is.
    pub part: Part,
}

/// The line in the place of the one that is due.
#[tactic(auto, using(crate::proofs::DueLines::standing))]
#[inline(always)]
fn stand_due<'a>(
    plan: &CountedPlan,
    slot: &Slot,
    part: Part,
    line: &Line<'a>,
) -> Option<Standing<'a>>
    requires sized { HasSizes plan.now }
    requires slot { IsIn plan.now slot.now }
    requires part { IsPartIn plan.now part }
    ensures stands { option_map (taken_at plan.now) result ≡ taking plan.now (rest_of plan.now slot.now) part (place slot.now (said line.now)) }
    ensures within { IfSome result (IsStandingIn plan.now) }
{
    match place_in(slot, line) {
        Some(line) => Some(Standing {
            line,
            slot: next_slot(plan, *slot),
            part,
        }),
        None => None,
    }
}

// WHAT THE BALLOT HAS

/// The ballot is one of the plan behind the last one.
fn is_later_ballot(plan: &CountedPlan, last: u32, ballot: u32) -> bool
    ensures is { result ≡ is_later plan.now last ballot }
    ensures within { result ≡ true → (1 ≤ ballot) × (ballot ≤ ballots_of plan.now) }
{
    last < ballot && ballot <= plan.ballots()
}

/// The race is one of the ballot.
#[tactic(auto, using(crate::proofs::Steps::audit_steps))]
fn has_race(plan: &CountedPlan, ballot: u32, race: u32) -> bool
    ensures is { result ≡ (nat_lt race (length plan.now.races) && ballot_has plan.now ballot race) }
    ensures within { result ≡ true → IsRaceOf plan.now ballot race }
{
    race < plan.races() && plan.has(ballot, race)
}

/// The column is of a race of the ballot.
fn has_column(plan: &CountedPlan, ballot: u32, race: u32, column: u32) -> bool
    requires { HasSizes plan.now }
    ensures is { result ≡ is_column plan.now ballot race column }
    ensures within { result ≡ true → (race < length plan.now.races) × (column < candidates_of plan.now race) × (ballot_has plan.now ballot race ≡ true) }
{
    if race >= plan.races() {
        return false;
    }
    if column >= plan.candidates(race) {
        return false;
    }
    plan.has(ballot, race)
}

// BLOCKS OF BALLOTS

/// The block of a later ballot that was cast.
fn stand_cast<'a>(plan: &CountedPlan, last: u32, ballot: u32) -> Option<Standing<'a>>
    ensures stands { option_map (taken_at plan.now) result ≡ after_block plan.now last (Cast ballot) }
    ensures within { IfSome result (IsStandingIn plan.now) }
{
    if !is_later_ballot(plan, last, ballot) {
        return None;
    }
    Some(Standing {
        line: PlacedLine::Begun { ballot },
        slot: None,
        part: Part::Cast {
            ballot,
            race: 0,
            column: 0,
        },
    })
}

/// The block of a later ballot that was spoiled: it has no other line.
fn stand_spoiled<'a>(plan: &CountedPlan, last: u32, ballot: u32) -> Option<Standing<'a>>
    ensures stands { option_map (taken_at plan.now) result ≡ after_block plan.now last (Spoiled ballot) }
    ensures within { IfSome result (IsStandingIn plan.now) }
{
    if !is_later_ballot(plan, last, ballot) {
        return None;
    }
    Some(Standing {
        line: PlacedLine::Begun { ballot },
        slot: None,
        part: Part::Ballots { last: ballot },
    })
}

/// The block of a later ballot that was audited: its papers are due, and then its codes.
fn stand_audited<'a>(plan: &CountedPlan, last: u32, ballot: u32) -> Option<Standing<'a>>
    requires { HasSizes plan.now }
    ensures stands { option_map (taken_at plan.now) result ≡ after_block plan.now last (Audited ballot) }
    ensures within { IfSome result (IsStandingIn plan.now) }
{
    if !is_later_ballot(plan, last, ballot) {
        return None;
    }
    Some(Standing {
        line: PlacedLine::Begun { ballot },
        slot: first_of_audit(plan, ballot),
        part: Part::Ballots { last: ballot },
    })
}

/// The block of a later ballot that was voided, which stands in version 2 alone: it has no other line.
fn stand_voided<'a>(plan: &CountedPlan, last: u32, ballot: u32) -> Option<Standing<'a>>
    ensures stands { option_map (taken_at plan.now) result ≡ after_block plan.now last (Voided ballot) }
    ensures within { IfSome result (IsStandingIn plan.now) }
{
    if plan.plan().version != 2 {
        return None;
    }
    if !is_later_ballot(plan, last, ballot) {
        return None;
    }
    Some(Standing {
        line: PlacedLine::Begun { ballot },
        slot: None,
        part: Part::Ballots { last: ballot },
    })
}

/// The block of a later ballot, or the first line of the results.
fn stand_after_block<'a>(plan: &CountedPlan, last: u32, line: &Line<'a>) -> Option<Standing<'a>>
    requires { HasSizes plan.now }
    ensures stands { option_map (taken_at plan.now) result ≡ after_block plan.now last (said line.now) }
    ensures within { IfSome result (IsStandingIn plan.now) }
{
    match line {
        Line::Cast(ballot) => stand_cast(plan, last, *ballot),
        Line::Spoiled(ballot) => stand_spoiled(plan, last, *ballot),
        Line::Audited(ballot) => stand_audited(plan, last, *ballot),
        Line::Voided(ballot) => stand_voided(plan, last, *ballot),
        _ => stand_due(plan, &first_result(plan), Part::Disputes { count: 0 }, line),
    }
}

// THE BLOCK OF A CAST BALLOT

/// Races don't fall, and in one race columns rise.
fn is_in_order(race: u32, column: u32, next_race: u32, next_column: u32) -> bool
    ensures { result ≡ follows_in_order race column next_race next_column }
{
    race < next_race || (race == next_race && column <= next_column)
}

/// A code of a later column in the block of a cast ballot.
fn stand_code<'a>(
    plan: &CountedPlan,
    ballot: u32,
    race: u32,
    column: u32,
    code: CodeLine,
) -> Option<Standing<'a>>
    requires sized { HasSizes plan.now }
    requires first { 1 ≤ ballot }
    requires last { ballot ≤ ballots_of plan.now }
    ensures stands { option_map (taken_at plan.now) result ≡ in_cast plan.now ballot race column (Code code) }
    ensures within { IfSome result (IsStandingIn plan.now) }
{
    if !has_column(plan, ballot, code.race, code.column) {
        return None;
    }
    if !is_in_order(race, column, code.race, code.column) {
        return None;
    }
    Some(Standing {
        line: PlacedLine::Code {
            block: Block::Cast,
            ballot,
            race: code.race,
            column: code.column,
            code,
        },
        slot: None,
        part: Part::Cast {
            ballot,
            race: code.race,
            column: code.column + 1,
        },
    })
}

/// In the block of a cast ballot, that a race is over: no line of that race comes behind it.
fn stand_over<'a>(
    plan: &CountedPlan,
    ballot: u32,
    race: u32,
    column: u32,
    next_race: u32,
) -> Option<Standing<'a>>
    requires sized { HasSizes plan.now }
    requires first { 1 ≤ ballot }
    requires last { ballot ≤ ballots_of plan.now }
    ensures stands { option_map (taken_at plan.now) result ≡ in_cast plan.now ballot race column (Over next_race) }
    ensures within { IfSome result (IsStandingIn plan.now) }
{
    if !has_race(plan, ballot, next_race) {
        return None;
    }
    if next_race < race {
        return None;
    }
    Some(Standing {
        line: PlacedLine::Over {
            ballot,
            race: next_race,
        },
        slot: None,
        part: Part::Cast {
            ballot,
            race: next_race + 1,
            column: 0,
        },
    })
}

/// In the block of a cast ballot: a code of a later column, that a race is over, or what may follow the block.
fn stand_in_cast<'a>(
    plan: &CountedPlan,
    ballot: u32,
    race: u32,
    column: u32,
    line: &Line<'a>,
) -> Option<Standing<'a>>
    requires sized { HasSizes plan.now }
    requires first { 1 ≤ ballot }
    requires last { ballot ≤ ballots_of plan.now }
    ensures stands { option_map (taken_at plan.now) result ≡ in_cast plan.now ballot race column (said line.now) }
    ensures within { IfSome result (IsStandingIn plan.now) }
{
    match line {
        Line::Code(code) => stand_code(plan, ballot, race, column, *code),
        Line::Over(next_race) => stand_over(plan, ballot, race, column, *next_race),
        _ => stand_after_block(plan, ballot, line),
    }
}

// DISPUTES

/// A dispute of a ballot in one of its races, behind so many: its codes in that race are due.
fn stand_dispute<'a>(
    plan: &CountedPlan,
    count: u32,
    ballot: u32,
    race: u32,
    code: u16,
    word: ClaimWord,
) -> Option<Standing<'a>>
    requires { HasSizes plan.now }
    ensures stands { option_map (taken_at plan.now) result ≡ after_dispute plan.now count (Dispute ballot race code word) }
    ensures within { IfSome result (IsStandingIn plan.now) }
{
    if count as usize >= MOST_CLAIMS {
        return None;
    }
    if !has_race(plan, ballot, race) {
        return None;
    }
    Some(Standing {
        line: PlacedLine::Dispute {
            ballot,
            race,
            code,
            word,
        },
        slot: Some(first_of_dispute(plan, ballot, race)),
        part: Part::Disputes { count: count + 1 },
    })
}

/// Behind so many disputes, a further one.
fn stand_after_dispute<'a>(plan: &CountedPlan, count: u32, line: &Line<'a>) -> Option<Standing<'a>>
    requires { HasSizes plan.now }
    ensures stands { option_map (taken_at plan.now) result ≡ after_dispute plan.now count (said line.now) }
    ensures within { IfSome result (IsStandingIn plan.now) }
{
    match line {
        Line::Dispute {
            ballot,
            race,
            code,
            word,
        } => stand_dispute(plan, count, *ballot, *race, *code, *word),
        _ => None,
    }
}

// ANY LINE BEHIND THE PLAN

/// A line that may begin where none is due.
#[inline(always)]
fn stand_beginning<'a>(plan: &CountedPlan, part: Part, line: &Line<'a>) -> Option<Standing<'a>>
    requires sized { HasSizes plan.now }
    requires part { IsPartIn plan.now part }
    ensures stands { option_map (taken_at plan.now) result ≡ begins plan.now part (said line.now) }
    ensures within { IfSome result (IsStandingIn plan.now) }
{
    match part {
        Part::Ballots { last } => stand_after_block(plan, last, line),
        Part::Cast {
            ballot,
            race,
            column,
        } => stand_in_cast(plan, ballot, race, column, line),
        Part::Disputes { count } => stand_after_dispute(plan, count, line),
    }
}

/// A line behind the plan, where it may stand.
#[inline(always)]
pub(crate) fn stand<'a>(
    plan: &CountedPlan,
    slot: &Option<Slot>,
    part: Part,
    line: &Line<'a>,
) -> Option<Standing<'a>>
    requires sized { HasSizes plan.now }
    requires slot { IsInSome plan.now slot.now }
    requires part { IsPartIn plan.now part }
    ensures stands { option_map (taken_at plan.now) result ≡ body_line plan.now (due_of plan.now slot.now) part (said line.now) }
    ensures within { IfSome result (IsStandingIn plan.now) }
{
    match slot {
        Some(slot) => stand_due(plan, slot, part, line),
        None => stand_beginning(plan, part, line),
    }
}

/// The first line behind the plan, which is no further run of ballots.
#[tactic(auto, using(crate::proofs::Walking::behind_runs))]
fn stand_first<'a>(plan: &CountedPlan, line: &Line<'a>) -> Option<Standing<'a>>
    requires { HasSizes plan.now }
    ensures stands { head_line plan.now Head.Runs (said line.now) ≡ None → option_map (taken_at plan.now) result ≡ after_run plan.now (said line.now) }
    ensures within { IfSome result (IsStandingIn plan.now) }
{
    match line {
        Line::Ballots { .. } => None,
        _ => stand_due(plan, &first_commit(plan), Part::Ballots { last: 0 }, line),
    }
}

/// A line that is none of the plan, where it may stand.
#[tactic(auto, using(crate::proofs::Walking::sizes))]
#[inline(always)]
pub(crate) fn stand_behind<'a>(
    plan: &CountedPlan,
    head: Head,
    slot: &Option<Slot>,
    part: Part,
    line: &Line<'a>,
) -> Option<Standing<'a>>
    requires made { IsMade plan.now head }
    requires slot { IsInSome plan.now slot.now }
    requires part { IsPartIn plan.now part }
    ensures stands { head_line plan.now head (said line.now) ≡ None → option_map (taken_at plan.now) result ≡ take_at plan.now head (due_of plan.now slot.now) part (said line.now) }
    ensures within { IfSome result (IsStandingIn plan.now) }
{
    match head {
        Head::Whole => stand(plan, slot, part, line),
        Head::Runs => stand_first(plan, line),
        _ => None,
    }
}
