//! The line that is due, and the one behind it.
ghost use Rattle.std.specs.Prelude.{◌≡◌, ◌+◌, ◌*◌, ◌<◌, ◌≤◌, true, false, length, ◌∷◌, IfSome, IfNone};
ghost use Rattle.sg_plan.specs.Ballots.{ballot_has, candidates_of, entries_of};
ghost use Rattle.sg_plan.specs.declared.plan.Plan.{Plan};
ghost use Rattle.sg_grammar.specs.Due.{due_audit, commits, race_codes, results, lines_for, bits_on};
ghost use Rattle.sg_grammar.specs.Made.{HasSizes};
ghost use Rattle.sg_grammar.specs.Slots.{code_commits_from, row_commits_from, codes_from, papers_from, results_from, totals_from, places_from, rows_from, rest_of, rest_of_codes, rest_of_seal, due_of, IsIn, IsInSome, HasNoEntries};
ghost use Rattle.sg_grammar.specs.Coordinates.{IsRaceOf, LacksRaces};

use crate::counted::CountedPlan;
use crate::state::{Block, Slot};
use sg_plan::limits::MOST_BITS;

/// A number of so many is not the last of them.
fn is_before_last(at: u32, end: u32) -> bool
    requires { at < end }
    ensures more { result ≡ true → at + 1 < end }
    ensures last { result ≡ false → end ≤ at + 1 }
{
    at + 1 < end
}

/// On how many lines so many bits stand.
fn lines_of_bits(bits: u32) -> u32
    ensures { result ≡ lines_for bits }
{
    ((bits as usize + MOST_BITS - 1) / MOST_BITS) as u32
}

/// How many of so many bits stand on a line.
fn bits_of_line(bits: u32, line: u32) -> u32
    requires { line < lines_for bits }
    ensures { result ≡ bits_on bits line }
{
    (bits - MOST_BITS as u32 * line).min(MOST_BITS as u32)
}

/// The first race from this one on that has an entry.
fn first_with_entries(plan: &CountedPlan, from: u32) -> Option<u32>
    requires { from ≤ length plan.now.races }
    ensures found { IfSome result (λ race. (from ≤ race) × (race < length plan.now.races) × (0 < entries_of plan.now race) × HasNoEntries plan.now from race) }
    ensures none { IfNone result (HasNoEntries plan.now from (length plan.now.races)) }
{
    for race in from..plan.races() {
        if plan.entries(race) > 0 {
            return Some(race);
        }
    }
    None
}

/// The first commitment of a row from this race on, or the seal behind the commitments.
#[tactic(auto, using(crate::proofs::Steps::commit_steps))]
fn first_row_commit(plan: &CountedPlan, from: u32) -> Slot
    requires sized { HasSizes plan.now }
    requires from { from ≤ length plan.now.races }
    ensures due { result ∷ rest_of plan.now result ≡ row_commits_from plan.now from }
    ensures within { IsIn plan.now result }
{
    match first_with_entries(plan, from) {
        Some(race) => Slot::RowCommit {
            race,
            instance: 0,
            row: 0,
        },
        None => Slot::Seal { number: 1 },
    }
}

/// The first commitment of a code from this race on, or the first of a row.
#[tactic(auto, using(crate::proofs::Steps::commit_steps))]
fn first_code_commit(plan: &CountedPlan, from: u32) -> Slot
    requires sized { HasSizes plan.now }
    requires from { from ≤ length plan.now.races }
    ensures due { result ∷ rest_of plan.now result ≡ code_commits_from plan.now from }
    ensures within { IsIn plan.now result }
{
    match first_with_entries(plan, from) {
        Some(race) => Slot::CodeCommit { race, entry: 0 },
        None => first_row_commit(plan, 0),
    }
}

/// The first line behind the plan.
pub(crate) fn first_commit(plan: &CountedPlan) -> Slot
    requires sized { HasSizes plan.now }
    ensures due { result ∷ rest_of plan.now result ≡ commits plan.now }
    ensures within { IsIn plan.now result }
{
    first_code_commit(plan, 0)
}

/// The line behind the commitment of a code.
#[tactic(auto, using(crate::proofs::Steps::commit_steps))]
#[inline(always)]
fn after_code_commit(plan: &CountedPlan, race: u32, entry: u32) -> Slot
    requires sized { HasSizes plan.now }
    requires race { race < length plan.now.races }
    requires entry { entry < entries_of plan.now race }
    ensures due { result ∷ rest_of plan.now result ≡ rest_of plan.now (Slot.CodeCommit race entry) }
    ensures within { IsIn plan.now result }
{
    if is_before_last(entry, plan.entries(race)) {
        Slot::CodeCommit {
            race,
            entry: entry + 1,
        }
    } else {
        first_code_commit(plan, race + 1)
    }
}

/// The line behind the commitments of a row.
#[tactic(auto, using(crate::proofs::Steps::commit_steps))]
#[inline(always)]
fn after_row_commit(plan: &CountedPlan, race: u32, instance: u32, row: u32) -> Slot
    requires sized { HasSizes plan.now }
    requires race { race < length plan.now.races }
    requires instance { instance < plan.now.instances }
    requires row { row < entries_of plan.now race }
    ensures due { result ∷ rest_of plan.now result ≡ rest_of plan.now (Slot.RowCommit race instance row) }
    ensures within { IsIn plan.now result }
{
    if is_before_last(row, plan.entries(race)) {
        return Slot::RowCommit {
            race,
            instance,
            row: row + 1,
        };
    }
    if is_before_last(instance, plan.instances()) {
        return Slot::RowCommit {
            race,
            instance: instance + 1,
            row: 0,
        };
    }
    first_row_commit(plan, race + 1)
}

/// The first race from this one on that the ballot has.
fn first_of_ballot(plan: &CountedPlan, ballot: u32, from: u32) -> Option<u32>
    requires { from ≤ length plan.now.races }
    ensures found { IfSome result (λ race. (from ≤ race) × (race < length plan.now.races) × (ballot_has plan.now ballot race ≡ true) × LacksRaces plan.now ballot from race) }
    ensures none { IfNone result (LacksRaces plan.now ballot from (length plan.now.races)) }
{
    for race in from..plan.races() {
        if plan.has(ballot, race) {
            return Some(race);
        }
    }
    None
}

/// The first code of an audited ballot from this race on.
#[tactic(auto, using(crate::proofs::Steps::audit_steps))]
fn first_code(plan: &CountedPlan, ballot: u32, from: u32) -> Option<Slot>
    requires sized { HasSizes plan.now }
    requires from { from ≤ length plan.now.races }
    ensures due { due_of plan.now result ≡ codes_from plan.now ballot from }
    ensures within { IsInSome plan.now result }
{
    match first_of_ballot(plan, ballot, from) {
        Some(race) => Some(Slot::Code {
            block: Block::Audited,
            ballot,
            race,
            column: 0,
        }),
        None => None,
    }
}

/// The first paper of an audited ballot from this race on, or its first code.
#[tactic(auto, using(crate::proofs::Steps::audit_steps))]
fn first_paper(plan: &CountedPlan, ballot: u32, from: u32) -> Option<Slot>
    requires sized { HasSizes plan.now }
    requires from { from ≤ length plan.now.races }
    ensures due { due_of plan.now result ≡ papers_from plan.now ballot from }
    ensures within { IsInSome plan.now result }
{
    match first_of_ballot(plan, ballot, from) {
        Some(race) => Some(Slot::Paper {
            ballot,
            race,
            count: plan.candidates(race),
        }),
        None => first_code(plan, ballot, 0),
    }
}

/// The first line that is due in the block of an audited ballot: none where the ballot has no race.
pub(crate) fn first_of_audit(plan: &CountedPlan, ballot: u32) -> Option<Slot>
    requires sized { HasSizes plan.now }
    ensures due { due_of plan.now result ≡ due_audit plan.now ballot }
    ensures within { IsInSome plan.now result }
{
    first_paper(plan, ballot, 0)
}

/// The line behind the codes of a race.
fn after_codes(plan: &CountedPlan, block: Block, ballot: u32, race: u32) -> Option<Slot>
    requires sized { HasSizes plan.now }
    requires race { race < length plan.now.races }
    ensures due { due_of plan.now result ≡ rest_of_codes plan.now block ballot race }
    ensures within { IsInSome plan.now result }
{
    match block {
        Block::Cast => None,
        Block::Audited => first_code(plan, ballot, race + 1),
        Block::Dispute => None,
    }
}

/// The line behind a code.
#[tactic(auto, using(crate::proofs::Steps::audit_steps))]
fn after_code(plan: &CountedPlan, block: Block, ballot: u32, race: u32, column: u32) -> Option<Slot>
    requires sized { HasSizes plan.now }
    requires within { IsIn plan.now (Slot.Code block ballot race column) }
    ensures due { due_of plan.now result ≡ rest_of plan.now (Slot.Code block ballot race column) }
    ensures result_within { IsInSome plan.now result }
{
    if is_before_last(column, plan.candidates(race)) {
        return Some(Slot::Code {
            block,
            ballot,
            race,
            column: column + 1,
        });
    }
    after_codes(plan, block, ballot, race)
}

/// The first code of a dispute.
#[tactic(auto, using(crate::proofs::Steps::audit_steps))]
pub(crate) fn first_of_dispute(plan: &CountedPlan, ballot: u32, race: u32) -> Slot
    requires sized { HasSizes plan.now }
    requires race { IsRaceOf plan.now ballot race }
    ensures due { result ∷ rest_of plan.now result ≡ race_codes plan.now Block.Dispute ballot race }
    ensures within { IsIn plan.now result }
{
    Slot::Code {
        block: Block::Dispute,
        ballot,
        race,
        column: 0,
    }
}

/// The first line of the results from this race on, or the seal behind them.
#[tactic(auto, using(crate::proofs::Steps::result_steps))]
fn first_of_results(plan: &CountedPlan, race: u32) -> Slot
    requires { HasSizes plan.now }
    ensures due { result ∷ rest_of plan.now result ≡ results_from plan.now race }
    ensures within { IsIn plan.now result }
{
    if race >= plan.races() {
        return Slot::Seal { number: 2 };
    }
    let entries = plan.entries(race);
    if entries == 0 {
        return Slot::Total { race, candidate: 0 };
    }
    Slot::Flags {
        race,
        instance: 0,
        line: 0,
        count: bits_of_line(entries, 0),
    }
}

/// The first line of the results.
pub(crate) fn first_result(plan: &CountedPlan) -> Slot
    requires { HasSizes plan.now }
    ensures due { result ∷ rest_of plan.now result ≡ results plan.now }
    ensures within { IsIn plan.now result }
{
    first_of_results(plan, 0)
}

/// The first line of the places of a race with so many entries.
fn first_of_places(race: u32, entries: u32) -> Slot
    requires { 0 < lines_for entries }
    ensures { result ≡ Slot.Places race 0 (bits_on entries 0) }
{
    Slot::Places {
        race,
        line: 0,
        count: bits_of_line(entries, 0),
    }
}

/// The line behind a line of flags.
#[tactic(auto, using(crate::proofs::Steps::result_steps))]
fn after_flags(plan: &CountedPlan, race: u32, instance: u32, line: u32) -> Slot
    requires sized { HasSizes plan.now }
    requires race { race < length plan.now.races }
    requires instance { instance < plan.now.instances }
    requires line { line < lines_for (entries_of plan.now race) }
    ensures due { result ∷ rest_of plan.now result ≡ rest_of plan.now (Slot.Flags race instance line 0) }
    ensures within { IsIn plan.now result }
{
    let entries = plan.entries(race);
    if is_before_last(line, lines_of_bits(entries)) {
        return Slot::Flags {
            race,
            instance,
            line: line + 1,
            count: bits_of_line(entries, line + 1),
        };
    }
    if is_before_last(instance, plan.instances()) {
        return Slot::Flags {
            race,
            instance: instance + 1,
            line: 0,
            count: bits_of_line(entries, 0),
        };
    }
    first_of_places(race, entries)
}

/// The line behind a line of places.
#[tactic(auto, using(crate::proofs::Steps::result_steps))]
fn after_places(plan: &CountedPlan, race: u32, line: u32) -> Slot
    requires sized { HasSizes plan.now }
    requires race { race < length plan.now.races }
    requires line { line < lines_for (entries_of plan.now race) }
    ensures due { result ∷ rest_of plan.now result ≡ rest_of plan.now (Slot.Places race line 0) }
    ensures within { IsIn plan.now result }
{
    let entries = plan.entries(race);
    if is_before_last(line, lines_of_bits(entries)) {
        return Slot::Places {
            race,
            line: line + 1,
            count: bits_of_line(entries, line + 1),
        };
    }
    Slot::Total { race, candidate: 0 }
}

/// The line behind a candidate's total.
#[tactic(auto, using(crate::proofs::Steps::result_steps))]
fn after_total(plan: &CountedPlan, race: u32, candidate: u32) -> Slot
    requires sized { HasSizes plan.now }
    requires race { race < length plan.now.races }
    requires candidate { candidate < candidates_of plan.now race }
    ensures due { result ∷ rest_of plan.now result ≡ rest_of plan.now (Slot.Total race candidate) }
    ensures within { IsIn plan.now result }
{
    if is_before_last(candidate, plan.candidates(race)) {
        return Slot::Total {
            race,
            candidate: candidate + 1,
        };
    }
    first_of_results(plan, race + 1)
}

/// The first row from this race on, or the last seal.
#[tactic(auto, using(crate::proofs::Steps::row_steps))]
fn first_row(plan: &CountedPlan, from: u32) -> Slot
    requires sized { HasSizes plan.now }
    requires from { from ≤ length plan.now.races }
    ensures due { result ∷ rest_of plan.now result ≡ rows_from plan.now from }
    ensures within { IsIn plan.now result }
{
    match first_with_entries(plan, from) {
        Some(race) => Slot::Row {
            race,
            instance: 0,
            row: 0,
        },
        None => Slot::Seal { number: 3 },
    }
}

/// The line behind the opening of a row.
#[tactic(auto, using(crate::proofs::Steps::row_steps))]
#[inline(always)]
fn after_row(plan: &CountedPlan, race: u32, instance: u32, row: u32) -> Slot
    requires sized { HasSizes plan.now }
    requires race { race < length plan.now.races }
    requires instance { instance < plan.now.instances }
    requires row { row < entries_of plan.now race }
    ensures due { result ∷ rest_of plan.now result ≡ rest_of plan.now (Slot.Row race instance row) }
    ensures within { IsIn plan.now result }
{
    if is_before_last(row, plan.entries(race)) {
        return Slot::Row {
            race,
            instance,
            row: row + 1,
        };
    }
    if is_before_last(instance, plan.instances()) {
        return Slot::Row {
            race,
            instance: instance + 1,
            row: 0,
        };
    }
    first_row(plan, race + 1)
}

/// The line behind a seal.
fn after_seal(number: u32) -> Option<Slot>
    ensures due { (plan : Plan) → due_of plan result ≡ rest_of_seal plan number }
    ensures within { (plan : Plan) → IsInSome plan result }
{
    if number == 2 { Some(Slot::Draw) } else { None }
}

/// The line that is due behind the one in this slot.
#[inline(always)]
pub(crate) fn next_slot(plan: &CountedPlan, slot: Slot) -> Option<Slot>
    requires sized { HasSizes plan.now }
    requires within { IsIn plan.now slot }
    ensures due { due_of plan.now result ≡ rest_of plan.now slot }
    ensures result_within { IsInSome plan.now result }
{
    match slot {
        Slot::CodeCommit { race, entry } => Some(after_code_commit(plan, race, entry)),
        Slot::RowCommit {
            race,
            instance,
            row,
        } => Some(after_row_commit(plan, race, instance, row)),
        Slot::Seal { number } => after_seal(number),
        Slot::Paper { ballot, race, .. } => first_paper(plan, ballot, race + 1),
        Slot::Code {
            block,
            ballot,
            race,
            column,
        } => after_code(plan, block, ballot, race, column),
        Slot::Flags {
            race,
            instance,
            line,
            ..
        } => Some(after_flags(plan, race, instance, line)),
        Slot::Places { race, line, .. } => Some(after_places(plan, race, line)),
        Slot::Total { race, candidate } => Some(after_total(plan, race, candidate)),
        Slot::Draw => Some(first_row(plan, 0)),
        Slot::Row {
            race,
            instance,
            row,
        } => Some(after_row(plan, race, instance, row)),
    }
}
