//! The codes of entries: those of marked entries, and all that are known.
ghost use Rattle.std.specs.Prelude.{◌≡◌, ◌+◌, ◌<◌, ◌==◌, ◌&&◌, IfOk, None, length, true};
ghost use Rattle.sg_check.specs.Facts.{first_given, known_code};
ghost use Rattle.sg_check.specs.Printings.{marked_code};
ghost use Rattle.sg_facts.specs.Listed.{block_code, block_mark, cast_shown, code_shown, dispute_code};
ghost use Rattle.sg_facts.specs.Tables.{HasTable};
ghost use Rattle.sg_facts.specs.inside.Putting.{AreDisputes, AreFates, AreOwn, AreOwnLines, IsOwnLine, IsSized, Puts};
ghost use Rattle.sg_grammar.specs.Walk.{is_column};
ghost use Rattle.sg_plan.specs.Ballots.{entries_of, entry_at};
ghost use Rattle.sg_record.specs.Formed.{is_dispute, is_fate, is_formed};
ghost use Rattle.sg_record.specs.Places.{places_in};

use crate::tables::{blank_table, put_code};
use sg_forms::CodeLine;
use sg_plan::{BallotIndex, Items, NoMemory};
use sg_record::{BallotBlock, BlockFate, CastLine, DisputeBlock, Record};
use std::alloc::Global;

/// The entry of a code of a ballot.
#[tactic(auto, using(crate::proofs::Tabling::column_entry, crate::proofs::Tabling::column_race))]
fn entry_of(index: &BallotIndex, ballot: u32, code: &CodeLine) -> u32
    requires { is_column index.now ballot code.now.race code.now.column ≡ true }
    ensures entry { result ≡ entry_at index.now code.now.race ballot code.now.column }
    ensures within { result < entries_of index.now code.now.race }
    ensures race { code.now.race < length index.now.races }
{
    sg_plan::laws::bounds_law();
    let plan = index.plan();
    let row = index.row(code.race, ballot);
    row * plan.candidates(code.race) as u32 + code.column
}

/// Puts a code of a ballot.
#[tactic(auto, using(crate::proofs::Tabling::one_sized, crate::proofs::Tabling::one_puts))]
fn note_code(
    alloc: Global,
    table: &mut Items<Items<Option<u16>>>,
    index: &BallotIndex,
    ballot: u32,
    code: &CodeLine,
)
    requires own { is_column index.now ballot code.now.race code.now.column ≡ true }
    requires sized { IsSized index.now table.old }
    ensures sized { IsSized index.now table.new }
    ensures puts { Puts index.now table.old table.new (λ race entry. code_shown index.now race entry ballot code.now) }
{
    let entry = entry_of(index, ballot, code);
    put_code(alloc, table, code.race as usize, entry as usize, code.code);
}

/// Puts the code of a line of a cast ballot, if it has one.
fn note_line(
    alloc: Global,
    table: &mut Items<Items<Option<u16>>>,
    index: &BallotIndex,
    ballot: u32,
    line: &CastLine,
)
    requires own { IsOwnLine index.now ballot line.now }
    requires sized { IsSized index.now table.old }
    ensures sized { IsSized index.now table.new }
    ensures puts { Puts index.now table.old table.new (λ race entry. cast_shown index.now race entry ballot line.now) }
{
    if let CastLine::Code(code) = line {
        note_code(alloc, table, index, ballot, code);
    }
}

/// Puts the codes of the lines of a cast ballot.
#[tactic(auto, using(crate::proofs::Tabling::then_three))]
fn note_lines(
    alloc: Global,
    table: &mut Items<Items<Option<u16>>>,
    index: &BallotIndex,
    ballot: u32,
    lines: &Items<CastLine>,
)
    requires own { AreOwnLines index.now ballot lines.now }
    requires sized { IsSized index.now table.old }
    ensures sized { IsSized index.now table.new }
    ensures puts { Puts index.now table.old table.new (λ race entry. first_given (cast_shown index.now race entry ballot) lines.now) }
{
    for at in 0..lines.len() {
        note_line(alloc, table, index, ballot, lines.get(at));
    }
}

/// Puts the codes of a ballot.
#[tactic(auto, using(crate::proofs::Tabling::then_three))]
fn note_codes(
    alloc: Global,
    table: &mut Items<Items<Option<u16>>>,
    index: &BallotIndex,
    ballot: u32,
    codes: &Items<CodeLine>,
)
    requires own { AreOwn index.now ballot codes.now }
    requires sized { IsSized index.now table.old }
    ensures sized { IsSized index.now table.new }
    ensures puts { Puts index.now table.old table.new (λ race entry. first_given (code_shown index.now race entry ballot) codes.now) }
{
    for at in 0..codes.len() {
        note_code(alloc, table, index, ballot, codes.get(at));
    }
}

/// Puts the codes of a ballot that was cast.
#[tactic(auto, using(crate::proofs::Tabling::own_codes))]
fn note_mark(
    alloc: Global,
    table: &mut Items<Items<Option<u16>>>,
    index: &BallotIndex,
    block: &BallotBlock,
)
    requires fate { is_fate index.now block.now.ballot block.now.fate ≡ true }
    requires sized { IsSized index.now table.old }
    ensures sized { IsSized index.now table.new }
    ensures puts { Puts index.now table.old table.new (λ race entry. block_mark index.now race entry block.now) }
{
    if let BlockFate::Cast(lines) = &block.fate {
        note_lines(alloc, table, index, block.ballot, lines);
    }
}

/// Puts the codes of a ballot that was cast or audited.
#[tactic(auto, using(crate::proofs::Tabling::own_codes))]
fn note_block(
    alloc: Global,
    table: &mut Items<Items<Option<u16>>>,
    index: &BallotIndex,
    block: &BallotBlock,
)
    requires fate { is_fate index.now block.now.ballot block.now.fate ≡ true }
    requires sized { IsSized index.now table.old }
    ensures sized { IsSized index.now table.new }
    ensures puts { Puts index.now table.old table.new (λ race entry. block_code index.now race entry block.now) }
{
    match &block.fate {
        BlockFate::Cast(lines) => note_lines(alloc, table, index, block.ballot, lines),
        BlockFate::Audited(_, codes) => note_codes(alloc, table, index, block.ballot, codes),
        BlockFate::Spoiled => {}
        BlockFate::Voided => {}
    }
}

/// Puts the codes of the ballots that were cast.
#[tactic(auto, using(crate::proofs::Tabling::then_three))]
fn note_marks(
    alloc: Global,
    table: &mut Items<Items<Option<u16>>>,
    index: &BallotIndex,
    blocks: &Items<BallotBlock>,
)
    requires fates { AreFates index.now blocks.now }
    requires sized { IsSized index.now table.old }
    ensures sized { IsSized index.now table.new }
    ensures puts { Puts index.now table.old table.new (λ race entry. first_given (block_mark index.now race entry) blocks.now) }
{
    for at in 0..blocks.len() {
        note_mark(alloc, table, index, blocks.get(at));
    }
}

/// Puts the codes of the ballots that were cast or audited.
#[tactic(auto, using(crate::proofs::Tabling::then_three))]
fn note_blocks(
    alloc: Global,
    table: &mut Items<Items<Option<u16>>>,
    index: &BallotIndex,
    blocks: &Items<BallotBlock>,
)
    requires fates { AreFates index.now blocks.now }
    requires sized { IsSized index.now table.old }
    ensures sized { IsSized index.now table.new }
    ensures puts { Puts index.now table.old table.new (λ race entry. first_given (block_code index.now race entry) blocks.now) }
{
    for at in 0..blocks.len() {
        note_block(alloc, table, index, blocks.get(at));
    }
}

/// Puts the codes of the disputes.
#[tactic(auto, using(crate::proofs::Tabling::dispute_own, crate::proofs::Tabling::then_three))]
fn note_disputes(
    alloc: Global,
    table: &mut Items<Items<Option<u16>>>,
    index: &BallotIndex,
    blocks: &Items<DisputeBlock>,
)
    requires disputes { AreDisputes index.now blocks.now }
    requires sized { IsSized index.now table.old }
    ensures sized { IsSized index.now table.new }
    ensures puts { Puts index.now table.old table.new (λ race entry. first_given (dispute_code index.now race entry) blocks.now) }
{
    for at in 0..blocks.len() {
        let block = blocks.get(at);
        note_codes(alloc, table, index, block.ballot, &block.codes);
    }
}

/// The code of each marked entry, by race and entry.
#[tactic(auto, using(crate::proofs::Tabling::blank_sized))]
pub fn marked_codes(
    alloc: Global,
    posted: &Record,
    index: &BallotIndex,
) -> Result<Items<Items<Option<u16>>>, NoMemory>
    requires formed { is_formed posted.now ≡ true }
    requires index { index.now ≡ posted.now.plan }
    ensures { IfOk result (λ table. HasTable posted.now.plan table (λ race entry. marked_code posted.now.plan race entry (places_in posted.now))) }
{
    let mut table = blank_table(alloc, index)?;
    note_marks(alloc, &mut table, index, &posted.ballots);
    Ok(table)
}

/// The code that is known of each entry, by race and entry.
#[tactic(auto, using(crate::proofs::Tabling::blank_sized))]
pub fn known_codes(
    alloc: Global,
    posted: &Record,
    index: &BallotIndex,
) -> Result<Items<Items<Option<u16>>>, NoMemory>
    requires formed { is_formed posted.now ≡ true }
    requires index { index.now ≡ posted.now.plan }
    ensures { IfOk result (λ table. HasTable posted.now.plan table (λ race entry. known_code posted.now.plan race entry (places_in posted.now))) }
{
    let mut table = blank_table(alloc, index)?;
    note_blocks(alloc, &mut table, index, &posted.ballots);
    note_disputes(alloc, &mut table, index, &posted.disputes);
    Ok(table)
}
