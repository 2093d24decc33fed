//! Which records have a text: each list is as long as the plan says, and codes, blocks and disputes stand in order.
//!
//! Each list is walked over once, and only the index of the plan's ballots takes memory.
ghost use Rattle.std.specs.Prelude.{◌≡◌, ℕ, ◌+◌, ◌==◌, ◌<◌, IsTrue, IfOk, nat_lt, nat_le, ◌&&◌, length};
ghost use Rattle.std.specs.List.{list_all, list_any};
ghost use Rattle.sg_plan.specs.Ballots.{candidates_of, entries_of, races_of_ballot};
ghost use Rattle.sg_plan.specs.Limits.{most_claims};
ghost use Rattle.sg_grammar.specs.Head.{if_then};
ghost use Rattle.sg_grammar.specs.Walk.{follows_in_order, is_race_left};
ghost use Rattle.sg_plan.specs.Codes.{is_code};
ghost use Rattle.sg_plan.specs.Fates.{paper_fits};
ghost use Rattle.sg_record.specs.Formed.{are_blocks, are_cast, are_columns, has_candidates, has_columns, has_entries, has_rows, is_dispute, is_draw, is_fate, is_formed};
ghost use Rattle.sg_record.specs.Tree.{behind_cast};
ghost use Rattle.sg_record.specs.declared.record.CastLine.TheVariants as cast;

use crate::record::{BallotBlock, BlockFate, CastLine, DisputeBlock, Record};
use sg_forms::CodeLine;
use sg_plan::limits::{MOST_CLAIMS, MOST_PUBLIC_BYTES};
use sg_plan::{BallotIndex, Draw, Items, NoMemory, Paper, Plan};
use std::alloc::Global;

/// How many entries the race has.
fn entries_in(index: &BallotIndex, race: u32) -> usize
    requires { race < length index.now.races }
    ensures { result ≡ entries_of index.now race }
{
    index.plan().entries(race) as usize
}

/// Each race has a list with an item for each of its entries.
#[tactic(auto, using(crate::proofs::Limits::few_races))]
fn has_entries<T>(index: &BallotIndex, lists: &Items<Items<T>>) -> bool
    ensures { result ≡ has_entries index.now lists.now }
{
    if lists.len() != index.plan().races.len() {
        return false;
    }
    for race in 0..lists.len() {
        if lists.get(race).len() != entries_in(index, race as u32) {
            return false;
        }
    }
    true
}

/// Each of the lists has so many items.
fn have_items<T>(lists: &Items<Items<T>>, count: usize) -> bool
    ensures { result ≡ list_all (λ items. length items == count) lists.now }
{
    lists.as_slice().iter().all(|items| items.len() == count)
}

/// The race has a list for each instance, with an item for each of its rows.
fn has_race_rows<T>(index: &BallotIndex, race: u32, lists: &Items<Items<T>>) -> bool
    requires { race < length index.now.races }
    ensures { result ≡ (length lists.now == index.now.instances && list_all (λ items. length items == entries_of index.now race) lists.now) }
{
    if lists.len() != index.plan().instances as usize {
        return false;
    }
    have_items(lists, entries_in(index, race))
}

/// Each race has a list for each instance, with an item for each of its rows.
#[tactic(auto, using(crate::proofs::Limits::few_races))]
fn has_rows<T>(index: &BallotIndex, lists: &Items<Items<Items<T>>>) -> bool
    ensures { result ≡ has_rows index.now lists.now }
{
    if lists.len() != index.plan().races.len() {
        return false;
    }
    for race in 0..lists.len() {
        if !has_race_rows(index, race as u32, lists.get(race)) {
            return false;
        }
    }
    true
}

/// Each race has a list with an item for each of its candidates.
fn has_candidates<T>(plan: &Plan, lists: &Items<Items<T>>) -> bool
    ensures { result ≡ has_candidates plan.now lists.now }
{
    if lists.len() != plan.races.len() {
        return false;
    }
    for race in 0..lists.len() {
        if lists.get(race).len() != plan.races.get(race).candidates.len() {
            return false;
        }
    }
    true
}

/// The race is one of these.
pub(crate) fn has_race(races: &[u32], race: u32) -> bool
    ensures { result ≡ list_any (λ carried. carried == race) races.now }
{
    races.iter().any(|carried| *carried == race)
}

/// The column is of one of the races.
fn is_column(plan: &Plan, races: &[u32], race: u32, column: u32) -> bool
    ensures test { result ≡ (list_any (λ carried. carried == race) races.now && nat_lt column (candidates_of plan.now race)) }
    ensures below { IsTrue result → column < candidates_of plan.now race }
{
    if !has_race(races, race) {
        return false;
    }
    (column as usize) < plan.candidates(race)
}

/// The column stands behind the last one: races don't fall, and in one race columns rise.
fn is_in_order(race: u32, column: u32, next_race: u32, next_column: u32) -> bool
    ensures { result ≡ follows_in_order race column next_race next_column }
{
    if race < next_race {
        return true;
    }
    race == next_race && column <= next_column
}

/// The code may stand among the marks of a cast ballot with these races, from this race and column on.
fn is_mark(plan: &Plan, races: &[u32], race: u32, column: u32, code: &CodeLine) -> bool
    ensures test { result ≡ (((list_any (λ carried. carried == code.now.race) races.now && nat_lt code.now.column (candidates_of plan.now code.now.race)) && follows_in_order race column code.now.race code.now.column) && is_code plan.now code.now.code) }
    ensures below { IsTrue result → code.now.column < candidates_of plan.now code.now.race }
{
    if !is_column(plan, races, code.race, code.column) {
        return false;
    }
    if !is_in_order(race, column, code.race, code.column) {
        return false;
    }
    plan.is_code(code.code)
}

/// The race is one of these, and is not one of those behind which a cast ballot's block has gone on.
fn is_race_left(plan: &Plan, races: &[u32], least: u32, race: u32) -> bool
    ensures test { result ≡ ((nat_lt race (length plan.now.races) && list_any (λ carried. carried == race) races.now) && nat_le least race) }
    ensures below { IsTrue result → race < length plan.now.races }
{
    if race as usize >= plan.races.len() {
        return false;
    }
    if !has_race(races, race) {
        return false;
    }
    least <= race
}

/// The race and the column from which on the next line of a cast ballot with these races is, behind this code. `None` where
/// the code may not stand from this race and column on.
#[tactic(auto, using(crate::proofs::CastLines::marks))]
pub(crate) fn behind_code(
    index: &BallotIndex,
    races: &[u32],
    race: u32,
    column: u32,
    code: &CodeLine,
) -> Option<(u32, u32)>
    ensures { (ballot : ℕ) → races.now ≡ races_of_ballot index.now ballot → result ≡ behind_cast index.now ballot race column (cast.Code code.now) }
{
    let plan = index.plan();
    if !is_mark(plan, races, race, column, code) {
        return None;
    }
    Some((code.race, code.column + 1))
}

/// The same behind a line that ends a race. `None` where the race is not left from this race on.
#[tactic(auto, using(crate::proofs::CastLines::marks))]
pub(crate) fn behind_race(
    index: &BallotIndex,
    races: &[u32],
    least: u32,
    race: u32,
) -> Option<(u32, u32)>
    ensures { (ballot : ℕ) → races.now ≡ races_of_ballot index.now ballot → result ≡ if_then (is_race_left index.now ballot least race) (race + 1, 0) }
{
    let plan = index.plan();
    if !is_race_left(plan, races, least, race) {
        return None;
    }
    Some((race + 1, 0))
}

/// The lines are those of a cast ballot with these races: races don't fall, in one race columns rise, and behind a note of
/// a race no line is of it.
fn are_cast(index: &BallotIndex, races: &[u32], lines: &Items<CastLine>) -> bool
    ensures { (ballot : ℕ) → races.now ≡ races_of_ballot index.now ballot → result ≡ are_cast index.now ballot 0 0 lines.now }
{
    let mut race = 0;
    let mut column = 0;
    for at in 0..lines.len() {
        let Some(next) = lines.get(at).behind(index, races, race, column) else {
            return false;
        };
        race = next.0;
        column = next.1;
    }
    true
}

/// Each number is a code of the plan's version.
fn are_codes(plan: &Plan, list: &[u16]) -> bool
    ensures { result ≡ list_all (is_code plan.now) list.now }
{
    list.iter().all(|code| plan.is_code(*code))
}

/// The list has a code for each candidate of the race.
fn is_paper_of(plan: &Plan, race: u32, list: &Items<u16>) -> bool
    ensures { result ≡ (length list.now == candidates_of plan.now race && list_all (is_code plan.now) list.now) }
{
    if list.len() != plan.candidates(race) {
        return false;
    }
    are_codes(plan, list.as_slice())
}

/// A list for each of the races, with a code for each candidate.
fn are_papers(plan: &Plan, races: &[u32], papers: &Paper) -> bool
    ensures { result ≡ paper_fits plan.now races.now papers.now }
{
    for at in 0..papers.len() {
        if at >= races.len() {
            return false;
        }
        if !is_paper_of(plan, races[at], papers.get(at)) {
            return false;
        }
    }
    papers.len() == races.len()
}

/// The code is of this column of the race.
fn is_code_at(plan: &Plan, race: u32, column: usize, code: &CodeLine) -> bool
    ensures { result ≡ ((code.now.race == race && code.now.column == column) && is_code plan.now code.now.code) }
{
    if code.race != race {
        return false;
    }
    if code.column as usize != column {
        return false;
    }
    plan.is_code(code.code)
}

/// A code for each column of the race, and no other.
fn has_columns(plan: &Plan, race: u32, codes: &[CodeLine]) -> bool
    ensures { result ≡ has_columns plan.now race codes.now }
{
    if codes.len() != plan.candidates(race) {
        return false;
    }
    for column in 0..codes.len() {
        if !is_code_at(plan, race, column, &codes[column]) {
            return false;
        }
    }
    true
}

/// A code for each column of each of the races, one race after another, and no other.
fn are_columns(plan: &Plan, races: &[u32], codes: &[CodeLine]) -> bool
    ensures { result ≡ are_columns plan.now races.now codes.now }
{
    let mut left = codes;
    for at in 0..races.len() {
        let count = plan.candidates(races[at]);
        if left.len() < count {
            return false;
        }
        let (front, rest) = left.split_at(count);
        if !has_columns(plan, races[at], front) {
            return false;
        }
        left = rest;
    }
    left.is_empty()
}

/// The block of a ballot with these races may say this of it.
fn is_fate(index: &BallotIndex, races: &[u32], fate: &BlockFate) -> bool
    ensures { (ballot : ℕ) → races.now ≡ races_of_ballot index.now ballot → result ≡ is_fate index.now ballot fate.now }
{
    let plan = index.plan();
    match fate {
        BlockFate::Cast(lines) => are_cast(index, races, lines),
        BlockFate::Spoiled => true,
        BlockFate::Audited(papers, codes) => {
            are_papers(plan, races, papers) && are_columns(plan, races, codes.as_slice())
        }
        BlockFate::Voided => plan.version == 2,
    }
}

/// The blocks are of rising ballots, and each is as its fate wants it.
fn are_blocks(index: &BallotIndex, blocks: &Items<BallotBlock>) -> bool
    ensures { result ≡ are_blocks index.now 0 blocks.now }
{
    let ballots = index.ballots();
    let mut last = 0;
    for at in 0..blocks.len() {
        let block = blocks.get(at);
        if block.ballot <= last {
            return false;
        }
        if block.ballot > ballots {
            return false;
        }
        let races = index.races(block.ballot);
        if !is_fate(index, races, &block.fate) {
            return false;
        }
        last = block.ballot;
    }
    true
}

/// A claim on a ballot in one of its races, and the ballot's codes there.
fn is_dispute(index: &BallotIndex, one: &DisputeBlock) -> bool
    ensures { result ≡ is_dispute index.now one.now }
{
    let plan = index.plan();
    if one.race as usize >= plan.races.len() {
        return false;
    }
    if !index.has(one.ballot, one.race) {
        return false;
    }
    if !plan.is_code(one.code) {
        return false;
    }
    has_columns(plan, one.race, one.codes.as_slice())
}

/// Each dispute is as it should be.
fn are_all_disputes(index: &BallotIndex, disputes: &[DisputeBlock]) -> bool
    ensures { result ≡ list_all (is_dispute index.now) disputes.now }
{
    disputes.iter().all(|one| is_dispute(index, one))
}

/// At most 10,000 disputes, each as it should be.
fn are_disputes(index: &BallotIndex, disputes: &Items<DisputeBlock>) -> bool
    ensures { result ≡ (nat_le (length disputes.now) most_claims && list_all (is_dispute index.now) disputes.now) }
{
    if disputes.len() > MOST_CLAIMS {
        return false;
    }
    are_all_disputes(index, disputes.as_slice())
}

/// The public bytes are 1 to 4,096.
pub fn is_draw(draw: &Draw) -> bool
    ensures { result ≡ is_draw draw.now }
{
    match draw {
        Draw::Full => true,
        Draw::Public(bytes) => (1..=MOST_PUBLIC_BYTES).contains(&bytes.len()),
    }
}

impl Record {
    /// Whether the record has a text: its plan keeps its limits, its lists are as long as the plan says, and its codes,
    /// blocks and disputes stand in the order of the rules.
    ///
    /// Its time is that of one walk over all lists. An index of the plan's ballots takes memory for the length of the call.
    #[tactic(auto, unfolding(crate::specs::Formed::is_formed), using(sg_plan::proofs::KeptPlans::plan_keeps_is))]
    pub fn is_formed(&self, alloc: Global) -> Result<bool, NoMemory>
        ensures { IfOk result (λ formed. formed ≡ is_formed self.now) }
    {
        match self.plan.check() {
            Err(_) => Ok(false),
            Ok(()) => {
                let index = BallotIndex::make(alloc, &self.plan)?;
                Ok(has_lists(self, &index))
            }
        }
    }
}

/// The lists of a record are as its plan, which has this index, wants them.
fn has_lists(posted: &Record, index: &BallotIndex) -> bool
    requires { index.now ≡ posted.now.plan }
    ensures { result ≡ (has_entries posted.now.plan posted.now.code_commits && (has_rows posted.now.plan posted.now.row_commits && (are_blocks posted.now.plan 0 posted.now.ballots && (has_rows posted.now.plan posted.now.flags && (has_entries posted.now.plan posted.now.places && (has_candidates posted.now.plan posted.now.totals && (is_draw posted.now.draw && (has_rows posted.now.plan posted.now.rows && (nat_le (length posted.now.disputes) most_claims && list_all (is_dispute posted.now.plan) posted.now.disputes))))))))) }
{
    has_entries(index, &posted.code_commits)
        && has_rows(index, &posted.row_commits)
        && are_blocks(index, &posted.ballots)
        && has_rows(index, &posted.flags)
        && has_entries(index, &posted.places)
        && has_candidates(&posted.plan, &posted.totals)
        && is_draw(&posted.draw)
        && has_rows(index, &posted.rows)
        && are_disputes(index, &posted.disputes)
}
