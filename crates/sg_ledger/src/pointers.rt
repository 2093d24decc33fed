//! Pointers that are opened.
ghost use Rattle.std.specs.Prelude.{◌≡◌, ◌<◌, ◌||◌, nat_le, IfOk, None, false, length, replicate, slice_index_or};
ghost use Rattle.std.specs.Option.{option_map_or};
ghost use Rattle.sg_ledger.specs.inside.Steps.{seen_after};
ghost use Rattle.sg_plan.specs.Ballots.{entries_of, r_rows, row_place};

use crate::book::Book;
use crate::tables::look;
use sg_commit::Opening;
use sg_plan::{Items, NoMemory};
use std::alloc::Global;

/// The pointers below n that were opened on each side of an instance. A pointer stands in the place of the row with its
/// number.
#[derive(Debug, Drop)]
pub struct Pointers {
    pub lefts: Items<bool>,
    pub rights: Items<bool>,
}

impl Pointers {
    /// None yet, for so many rows.
    pub fn make(alloc: Global, rows: usize) -> Result<Pointers, NoMemory>
        ensures lefts { IfOk result (λ made. made.lefts ≡ replicate rows false) }
        ensures rights { IfOk result (λ made. made.rights ≡ replicate rows false) }
    {
        let lefts = Items::filled(alloc, false, rows)?;
        let rights = Items::filled(alloc, false, rows)?;
        Ok(Pointers { lefts, rights })
    }
}

/// The pointer is n or more, or was opened before on this side.
pub fn is_pointer_bad(
    seen: &Items<bool>,
    book: &Book,
    race: u32,
    instance: u32,
    opening: Option<Opening>,
) -> bool
    requires seen { length seen.now ≡ r_rows book.now }
    requires race { race < length book.now.races }
    requires instance { instance < book.now.instances }
    ensures { result ≡ option_map_or (λ o. nat_le (entries_of book.now race) o.value || slice_index_or seen.now (row_place book.now race instance o.value) false) opening false }
{
    let Some(opening) = opening else {
        return false;
    };
    if opening.value >= book.entries(race) {
        return true;
    }
    look(seen, book.row_place(race, instance, opening.value))
}

/// Keeps that the pointer was opened on this side, where it is below n.
pub fn keep_pointer(
    seen: &mut Items<bool>,
    book: &Book,
    race: u32,
    instance: u32,
    opening: Option<Opening>,
)
    requires seen { length seen.old ≡ r_rows book.now }
    requires race { race < length book.now.races }
    requires instance { instance < book.now.instances }
    ensures { seen.new ≡ seen_after book.now seen.old race instance opening }
{
    let Some(opening) = opening else {
        return;
    };
    if opening.value < book.entries(race) {
        seen.replace(book.row_place(race, instance, opening.value), true);
    }
}
