//! Where rows lead the ballots' entries.
ghost use Rattle.std.specs.Prelude.{◌≡◌, ℕ, ◌+◌, ◌<◌, ◌≤◌, ◌^◌, None, List, false, true, length, slice_index_or};
ghost use Rattle.sg_check.specs.Kinds.{bad_placed};
ghost use Rattle.sg_check.specs.declared.judged.Kind.TheVariants as kind;
ghost use Rattle.sg_ledger.specs.inside.Steps.{path_after};
ghost use Rattle.sg_ledger.specs.inside.Tables.{leads_another};
ghost use Rattle.sg_ledger.specs.Tells.{ArePlacedIn, TellsPaths};
ghost use Rattle.sg_plan.specs.Ballots.{all_entries};
ghost use Rattle.sg_grammar.specs.Placed.{Placed};
ghost use Rattle.sg_grammar.specs.Placed.Placed.{RowAt};

use crate::book::Book;
use crate::tables::look;
use sg_forms::RowOpening;
use sg_plan::Items;

/// The row leads its entry elsewhere than an earlier row, or to the candidate to whom another entry of its ballot leads.
#[inline(always)]
pub fn is_path_bad(paths: &Items<Option<u32>>, book: &Book, race: u32, opening: &RowOpening) -> bool
    requires paths { length paths.now ≡ all_entries book.now }
    requires race { race < length book.now.races }
    ensures { (instance row : ℕ) (lines : List Placed) → ArePlacedIn book.now lines → TellsPaths book.now paths.now lines → result ≡ bad_placed kind.Path book.now lines (RowAt race instance row opening.now) }
{
    let _ = book.plan();
    let RowOpening::Both(left, right) = *opening else {
        return false;
    };
    let entries = book.entries(race);
    if left.value >= entries {
        return false;
    }
    if right.value >= entries {
        return false;
    }
    let candidates = book.candidates(race) as u32;
    let first = left.value - left.value % candidates;
    let at = book.entry_place(race, first);
    are_against(paths, at, candidates, first, left.value, right.value)
}

/// An entry of a ballot, whose first entry is at this place in the table, is led against an entry's path.
fn are_against(
    paths: &Items<Option<u32>>,
    at: usize,
    candidates: u32,
    first: u32,
    entry: u32,
    place: u32,
) -> bool
    requires some { 0 < candidates }
    requires within { at + candidates ≤ length paths.now }
    requires few { first + candidates < 2 ^ 32 }
    requires few_places { at + candidates < 2 ^ 32 }
    ensures some { result ≡ true → (column : ℕ) × (column < candidates) × (leads_another candidates entry place (first + column) (slice_index_or paths.now (at + column) None) ≡ true) }
    ensures none { result ≡ false → (column : ℕ) → column < candidates → leads_another candidates entry place (first + column) (slice_index_or paths.now (at + column) None) ≡ false }
{
    for column in 0..candidates {
        let to = look(paths, at + column as usize);
        if is_against(candidates, entry, place, first + column, to) {
            return true;
        }
    }
    false
}

/// Where the entry `other` is led is against the entry's path.
fn is_against(candidates: u32, entry: u32, place: u32, other: u32, to: Option<u32>) -> bool
    requires { 0 < candidates }
    ensures { result ≡ leads_another candidates entry place other to }
{
    let Some(led) = to else {
        return false;
    };
    if other == entry {
        led != place
    } else {
        led % candidates == place % candidates
    }
}

/// Keeps where the row leads its entry.
pub fn keep_path(paths: &mut Items<Option<u32>>, book: &Book, race: u32, opening: &RowOpening)
    requires paths { length paths.old ≡ all_entries book.now }
    requires race { race < length book.now.races }
    ensures { paths.new ≡ path_after book.now paths.old race opening.now }
{
    let RowOpening::Both(left, right) = *opening else {
        return;
    };
    let entries = book.entries(race);
    if left.value >= entries {
        return;
    }
    if right.value >= entries {
        return;
    }
    paths.replace(book.entry_place(race, left.value), Some(right.value));
}
