//! Codes that are shown, and marks.
ghost use Rattle.std.specs.Prelude.{◌≡◌, ℕ, ◌+◌, ◌<◌, ◌≤◌, ◌^◌, ◌&&◌, if◌then◌else◌, IfOk, true, false, nat_le, nat_lt, length, replicate, slice_index_or, slice_set};
ghost use Rattle.sg_grammar.specs.Lines.{is_cast};
ghost use Rattle.sg_check.specs.Kinds.{is_there};
ghost use Rattle.sg_ledger.specs.inside.Tables.{most_marks, shows_another, with_one_more};

use crate::tables::{count_mark, look};
use sg_grammar::Block;
use sg_plan::{Items, NoMemory};
use std::alloc::Global;

/// The codes and the marks that were shown.
#[derive(Debug, Drop)]
pub struct Codes {
    /// The code of each entry, where it was shown.
    pub known: Items<Option<u16>>,
    /// The entries that are marked.
    pub marked: Items<bool>,
    /// How many marks a ballot has in a race, at the place of its first entry there.
    pub marks: Items<u32>,
}

impl Codes {
    /// Nothing is shown yet, of so many entries.
    pub fn make(alloc: Global, entries: usize) -> Result<Codes, NoMemory>
        ensures known { IfOk result (λ made. made.known ≡ replicate entries None) }
        ensures marked { IfOk result (λ made. made.marked ≡ replicate entries false) }
        ensures marks { IfOk result (λ made. made.marks ≡ replicate entries 0) }
    {
        let known = Items::filled(alloc, None, entries)?;
        let marked = Items::filled(alloc, false, entries)?;
        let marks = Items::filled(alloc, 0, entries)?;
        Ok(Codes {
            known,
            marked,
            marks,
        })
    }

    /// Keeps the code that is shown in a column, where the ballot's first entry is at `first`.
    pub fn keep(&mut self, block: Block, first: usize, column: usize, code: u16)
        requires few { first + column < 2 ^ 32 }
        requires known { first + column < length self.old.known }
        requires marked { first + column < length self.old.marked }
        requires marks { first < length self.old.marks }
        ensures known { self.new.known ≡ slice_set self.old.known (first + column) (Some code) }
        ensures marked { self.new.marked ≡ (if is_cast block then slice_set self.old.marked (first + column) true else self.old.marked) }
        ensures marks { self.new.marks ≡ (if is_cast block then with_one_more most_marks self.old.marks first else self.old.marks) }
    {
        self.known.replace(first + column, Some(code));
        match block {
            Block::Cast => {
                self.marked.replace(first + column, true);
                count_mark(&mut self.marks, first);
            }
            Block::Audited => (),
            Block::Dispute => (),
        }
    }

    /// The code would be one mark more than so many.
    pub fn has_enough(&self, block: Block, first: usize, votes: u32) -> bool
        requires { first < length self.now.marks }
        ensures { result ≡ (is_cast block && nat_le votes (slice_index_or self.now.marks first 0)) }
    {
        match block {
            Block::Cast => votes <= look(&self.marks, first),
            Block::Audited => false,
            Block::Dispute => false,
        }
    }

    /// The ballot has a mark.
    pub fn has_mark(&self, first: usize) -> bool
        requires { first < length self.now.marks }
        ensures { result ≡ nat_lt 0 (slice_index_or self.now.marks first 0) }
    {
        0 < look(&self.marks, first)
    }

    /// A column of the ballot is marked, and shows the code.
    pub fn is_posted(&self, first: usize, candidates: usize, code: u16) -> bool
        requires few { first + candidates < 2 ^ 32 }
        requires known { first + candidates ≤ length self.now.known }
        requires marked { first + candidates ≤ length self.now.marked }
        ensures some { result ≡ true → (at : ℕ) × (at < candidates) × ((slice_index_or self.now.marked (first + at) false && is_there (slice_index_or self.now.known (first + at) None) code) ≡ true) }
        ensures none { result ≡ false → (at : ℕ) → at < candidates → (slice_index_or self.now.marked (first + at) false && is_there (slice_index_or self.now.known (first + at) None) code) ≡ false }
    {
        for at in 0..candidates {
            let marked = look(&self.marked, first + at);
            if is_mark_of(code, marked, look(&self.known, first + at)) {
                return true;
            }
        }
        false
    }

    /// A column of the ballot shows the code already, or this column another one.
    pub fn are_against(&self, first: usize, candidates: usize, column: usize, code: u16) -> bool
        requires few { first + candidates < 2 ^ 32 }
        requires within { first + candidates ≤ length self.now.known }
        ensures some { result ≡ true → (at : ℕ) × (at < candidates) × (shows_another column code at (slice_index_or self.now.known (first + at) None) ≡ true) }
        ensures none { result ≡ false → (at : ℕ) → at < candidates → shows_another column code at (slice_index_or self.now.known (first + at) None) ≡ false }
    {
        for at in 0..candidates {
            if is_against(column, code, at, look(&self.known, first + at)) {
                return true;
            }
        }
        false
    }
}

/// The column is marked, and the code is known of it.
fn is_mark_of(code: u16, marked: bool, known: Option<u16>) -> bool
    ensures { result ≡ (marked && is_there known code) }
{
    match known {
        Some(known) => marked && known == code,
        None => false,
    }
}

/// The code that is known of a column is against this code of a column.
fn is_against(column: usize, code: u16, at: usize, known: Option<u16>) -> bool
    ensures { result ≡ shows_another column code at known }
{
    match known {
        Some(known) => {
            if at == column {
                known != code
            } else {
                known == code
            }
        }
        None => false,
    }
}
