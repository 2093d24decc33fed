//! Commitments, and whether what is opened opens them.
ghost use Rattle.std.specs.Prelude.{◌≡◌, ◌<◌, ◌^◌, ◌||◌, IfOk, not, length, replicate, slice_index_or};
ghost use Rattle.sg_check.specs.Facts.{opened_on};
ghost use Rattle.sg_check.specs.Kinds.{code_opening, opens_digest};
ghost use Rattle.sg_check.specs.inside.BySide.{bad_pointer_opening};
ghost use Rattle.sg_ledger.specs.inside.Tables.{with_first};
ghost use Rattle.sg_plan.specs.declared.plan.Side.TheVariants as side;

use crate::tables::{look, put_first};
use sg_commit::{CommitKind, Digest, Opening, opens};
use sg_forms::{CodeLine, RowOpening};
use sg_plan::{Items, NoMemory};
use std::alloc::Global;

/// The first commitment of each entry's code, and of each row's pointers.
#[derive(Debug, Drop)]
pub struct Commitments {
    pub codes: Items<Option<Digest>>,
    pub lefts: Items<Option<Digest>>,
    pub rights: Items<Option<Digest>>,
}

impl Commitments {
    /// None yet, for so many entries and rows.
    pub fn make(alloc: Global, entries: usize, rows: usize) -> Result<Commitments, NoMemory>
        ensures codes { IfOk result (λ made. made.codes ≡ replicate entries None) }
        ensures lefts { IfOk result (λ made. made.lefts ≡ replicate rows None) }
        ensures rights { IfOk result (λ made. made.rights ≡ replicate rows None) }
    {
        let codes = Items::filled(alloc, None, entries)?;
        let lefts = Items::filled(alloc, None, rows)?;
        let rights = Items::filled(alloc, None, rows)?;
        Ok(Commitments {
            codes,
            lefts,
            rights,
        })
    }

    /// Keeps the commitments of a row's pointers.
    pub fn keep_row(&mut self, at: usize, left: Digest, right: Digest)
        requires left { at < length self.old.lefts }
        requires right { at < length self.old.rights }
        ensures codes { self.new.codes ≡ self.old.codes }
        ensures lefts { self.new.lefts ≡ with_first self.old.lefts at left }
        ensures rights { self.new.rights ≡ with_first self.old.rights at right }
    {
        put_first(&mut self.lefts, at, left);
        put_first(&mut self.rights, at, right);
    }

    /// The code does not open the commitment of its entry.
    pub fn is_code_bad(&self, at: usize, race: u32, entry: u32, code: &CodeLine) -> bool
        requires at { at < length self.now.codes }
        requires race { race < 2 ^ 16 }
        ensures { result ≡ not (opens_digest (slice_index_or self.now.codes at None) CommitKind.Q race 0 entry (code_opening code.now)) }
    {
        let opening = Opening {
            key: code.key,
            value: u32::from(code.code),
        };
        !opens_commitment(
            look(&self.codes, at),
            CommitKind::Q,
            race,
            0,
            entry,
            &opening,
        )
    }

    /// A pointer that is opened does not open its commitment.
    #[inline(always)]
    pub fn is_row_bad(
        &self,
        at: usize,
        race: u32,
        instance: u32,
        row: u32,
        left: Option<Opening>,
        right: Option<Opening>,
    ) -> bool
        requires left { at < length self.now.lefts }
        requires right { at < length self.now.rights }
        requires race { race < 2 ^ 16 }
        requires instance { instance < 2 ^ 16 }
        ensures { result ≡ (bad_pointer_opening (slice_index_or self.now.lefts at None) CommitKind.L race instance row left || bad_pointer_opening (slice_index_or self.now.rights at None) CommitKind.R race instance row right) }
    {
        let bad_left = is_pointer_bad(&self.lefts, at, CommitKind::L, race, instance, row, left);
        let bad_right = is_pointer_bad(&self.rights, at, CommitKind::R, race, instance, row, right);
        bad_left || bad_right
    }
}

/// The commitment is there, and this opens it.
#[tactic(auto, using(sg_lists::proofs::Lists::same_bytes_eq))]
#[inline(always)]
fn opens_commitment(
    digest: Option<Digest>,
    kind: CommitKind,
    race: u32,
    instance: u32,
    place: u32,
    opening: &Opening,
) -> bool
    requires race { race < 2 ^ 16 }
    requires instance { instance < 2 ^ 16 }
    ensures { result ≡ opens_digest digest kind race instance place opening.now }
{
    match digest {
        Some(digest) => opens(&digest, kind, race, instance, place, opening),
        None => false,
    }
}

/// The pointer is opened, and does not open the commitment at this place.
#[inline(always)]
fn is_pointer_bad(
    digests: &Items<Option<Digest>>,
    at: usize,
    kind: CommitKind,
    race: u32,
    instance: u32,
    row: u32,
    opening: Option<Opening>,
) -> bool
    requires at { at < length digests.now }
    requires race { race < 2 ^ 16 }
    requires instance { instance < 2 ^ 16 }
    ensures { result ≡ bad_pointer_opening (slice_index_or digests.now at None) kind race instance row opening }
{
    match opening {
        Some(opening) => !opens_commitment(look(digests, at), kind, race, instance, row, &opening),
        None => false,
    }
}

/// The left pointer, where it is opened.
pub fn left_opening(opening: &RowOpening) -> Option<Opening>
    ensures { result ≡ opened_on side.Left opening.now }
{
    match *opening {
        RowOpening::Left(left) => Some(left),
        RowOpening::Right(_) => None,
        RowOpening::Both(left, _) => Some(left),
    }
}

/// The right pointer, where it is opened.
pub fn right_opening(opening: &RowOpening) -> Option<Opening>
    ensures { result ≡ opened_on side.Right opening.now }
{
    match *opening {
        RowOpening::Left(_) => None,
        RowOpening::Right(right) => Some(right),
        RowOpening::Both(_, right) => Some(right),
    }
}
