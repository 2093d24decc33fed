//! Print audits: what audited ballots and their papers show, and how many rows are opened on both sides.
ghost use Rattle.std.specs.Prelude.{◌≡◌, ℕ, ◌+◌, ◌*◌, ◌<◌, ◌≤◌, ◌==◌, ◌&&◌, ◌||◌, ◌^◌, if◌then◌else◌, IfOk, None, false, true, not, length, replicate, slice_set};
ghost use Rattle.std.specs.List.{list_any};
ghost use Rattle.sg_grammar.specs.Lines.{is_audit};
ghost use Rattle.sg_check.specs.Facts.{is_both};
ghost use Rattle.sg_check.specs.Kinds.{has_repeat};
ghost use Rattle.sg_ledger.specs.inside.Reads.{is_same_code, reads_another};
ghost use Rattle.sg_ledger.specs.inside.Tables.{most_marks, with_one_more};
ghost use Rattle.sg_plan.specs.Ballots.{all_entries};

use crate::book::Book;
use crate::tables::{count_mark, look};
use sg_forms::RowOpening;
use sg_grammar::Block;
use sg_plan::{Items, NoMemory};
use std::alloc::Global;

/// What was shown of audited ballots, and how many rows are opened on both sides.
#[derive(Debug, Drop)]
pub struct Audits {
    /// The entries of audited ballots.
    pub audited: Items<bool>,
    /// What a paper has beside a candidate, at the place of its ballot's entry in the candidate's column.
    pub papers: Items<Option<u16>>,
    /// How many entries of audited ballots each race has.
    pub entries: Items<u32>,
    /// How many rows of each instance are opened on both sides. Each race has room for 16 instances.
    pub boths: Items<u32>,
}

impl Audits {
    /// Nothing is shown yet, of so many entries, races and instances.
    pub fn make(
        alloc: Global,
        entries: usize,
        races: usize,
        instances: usize,
    ) -> Result<Audits, NoMemory>
        ensures audited { IfOk result (λ made. made.audited ≡ replicate entries false) }
        ensures papers { IfOk result (λ made. made.papers ≡ replicate entries None) }
        ensures entries { IfOk result (λ made. made.entries ≡ replicate races 0) }
        ensures boths { IfOk result (λ made. made.boths ≡ replicate instances 0) }
    {
        let audited = Items::filled(alloc, false, entries)?;
        let papers = Items::filled(alloc, None, entries)?;
        let entries = Items::filled(alloc, 0, races)?;
        let boths = Items::filled(alloc, 0, instances)?;
        Ok(Audits {
            audited,
            papers,
            entries,
            boths,
        })
    }

    /// Keeps that a block shows the entry at this place of the race, where the ballot is audited.
    pub fn keep_code(&mut self, block: Block, at: usize, race: usize)
        requires audited { at < length self.old.audited }
        requires entries { race < length self.old.entries }
        ensures audited { self.new.audited ≡ (if is_audit block then slice_set self.old.audited at true else self.old.audited) }
        ensures papers { self.new.papers ≡ self.old.papers }
        ensures entries { self.new.entries ≡ (if is_audit block then with_one_more most_marks self.old.entries race else self.old.entries) }
        ensures boths { self.new.boths ≡ self.old.boths }
    {
        match block {
            Block::Cast => (),
            Block::Audited => {
                self.audited.replace(at, true);
                count_mark(&mut self.entries, race);
            }
            Block::Dispute => (),
        }
    }
}

/// Counts a row that is opened on both sides, in the place of its instance.
pub fn count_both(boths: &mut Items<u32>, instance: usize, opening: &RowOpening)
    requires { instance < length boths.old }
    ensures { boths.new ≡ (if is_both opening.now then with_one_more most_marks boths.old instance else boths.old) }
{
    match *opening {
        RowOpening::Left(_) => (),
        RowOpening::Right(_) => (),
        RowOpening::Both(..) => count_mark(boths, instance),
    }
}

/// The row is opened on both sides.
pub fn are_both(opening: &RowOpening) -> bool
    ensures { result ≡ is_both opening.now }
{
    match *opening {
        RowOpening::Left(_) => false,
        RowOpening::Right(_) => false,
        RowOpening::Both(..) => true,
    }
}

/// With the row, which may be the last of its instance, there are more or fewer rows opened on both sides than entries
/// of audited ballots.
pub fn is_number_wrong(is_last: bool, boths: u32, is_both: bool, audited: u32) -> bool
    ensures { result ≡ (is_last && not (boths + (if is_both then 1 else 0) == audited)) }
{
    let rows = if is_both {
        u64::from(boths) + 1
    } else {
        u64::from(boths)
    };
    is_last && rows != u64::from(audited)
}

/// The row leads an audited entry to a candidate beside whom the paper has another code than the entry's.
#[inline(always)]
pub fn is_paper_wrong(
    audits: &Audits,
    known: &Items<Option<u16>>,
    book: &Book,
    race: u32,
    opening: &RowOpening,
) -> bool
    requires audited { length audits.now.audited ≡ all_entries book.now }
    requires papers { length audits.now.papers ≡ all_entries book.now }
    requires known { length known.now ≡ all_entries book.now }
    requires race { race < length book.now.races }
    ensures { result ≡ reads_another book.now audits.now.audited audits.now.papers known.now race opening.now }
{
    let _ = book.plan();
    let RowOpening::Both(left, right) = *opening else {
        return false;
    };
    let entries = book.entries(race);
    if left.value >= entries {
        return false;
    }
    if right.value >= entries {
        return false;
    }
    let candidates = book.candidates(race) as u32;
    let beside = left.value - left.value % candidates + right.value % candidates;
    let at = book.entry_place(race, left.value);
    let paper = look(&audits.papers, book.entry_place(race, beside));
    look(&audits.audited, at) && !is_same(paper, look(known, at))
}

/// The paper's code is the one that is known.
fn is_same(paper: Option<u16>, known: Option<u16>) -> bool
    ensures { result ≡ is_same_code paper known }
{
    let Some(known) = known else {
        return false;
    };
    match paper {
        Some(code) => code == known,
        None => false,
    }
}

/// Two of the codes are the same.
pub fn has_repeat(codes: &[u16]) -> bool
    ensures { result ≡ has_repeat codes.now }
{
    for at in 0..codes.len() {
        if stands_in(&codes[at + 1..], codes[at]) {
            return true;
        }
    }
    false
}

/// The code is one of these.
fn stands_in(codes: &[u16], code: u16) -> bool
    ensures { result ≡ list_any (λ other. other == code) codes.now }
{
    codes.iter().any(|other| *other == code)
}
