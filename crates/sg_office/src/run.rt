//! The acts of one station whose numbers came rising.
ghost use Rattle.std.specs.Prelude.{◌≡◌, ◌∷◌, ◌++◌, true, [], None, IfSome, IfNone, OnOk, OnErr};
ghost use Rattle.std.specs.Option.{option_copied};
ghost use Rattle.sg_office.specs.inside.Runs.{IsOnlyIn, Rise, are_below, flat, place_of, text_of, without_number};

use sg_plan::{Items, NoMemory, Word};
use std::alloc::Global;
use std::marker::Model;

/// Half of how many acts the first block of a run has room for.
const HALF_ROOM: usize = 32;

/// How often the room of a block is doubled at most.
const MOST_DOUBLINGS: usize = 40;

/// Acts of one station, rising by number. Contracts see them as a list of numbers and texts.
///
/// They stand in blocks, each with twice the room of the one before, so that no act is moved when more come, and there
/// are few blocks. An act whose number is above all others is put in and taken back at the end; any other is found by its
/// block, and in that by halves.
#[derive(Debug, Drop)]
pub(crate) struct Run {
    /// Of each block, each act's number and text.
    blocks: Vec<Items<(i64, Word)>>,
}

impl Model for Run {
    ghost use Rattle.std.specs.Prelude.{ℕ, ℤ, List};
    ghost use Rattle.sg_office.specs.inside.Runs.{Rise, flat};

    ghost Value = { List (ℤ × List ℕ) };

    ghost view = { λ run. flat run.blocks.items };

    ghost invariant = { λ run. Rise (flat run.blocks.items) };
}

/// How many acts the last of so many blocks has room for.
fn room_of(count: usize) -> usize {
    HALF_ROOM << count.min(MOST_DOUBLINGS)
}

/// Whether the numbers of all acts are below this one.
fn are_below(blocks: &[Items<(i64, Word)>], number: i64) -> bool
    requires { Rise (flat blocks.now) }
    ensures { result ≡ are_below number (flat blocks.now) }
{
    let mut at = blocks.len();
    'back: while at > 0 {
        at -= 1;
        if let Some(last) = blocks[at].as_slice().last() {
            return last.0 < number;
        }
    }
    true
}

/// The one block that may have the number.
fn block_of(blocks: &[Items<(i64, Word)>], number: i64) -> Option<usize>
    requires { Rise (flat blocks.now) }
    ensures some { IfSome result (IsOnlyIn number blocks.now) }
    ensures none { IfNone result (text_of number (flat blocks.now) ≡ None) }
{
    let mut at = blocks.len();
    'back: while at > 0 {
        at -= 1;
        if let Some(first) = blocks[at].as_slice().first() {
            if first.0 <= number {
                return Some(at);
            }
        }
    }
    None
}

/// The place of the act with the number in a block.
fn place_of(acts: &Items<(i64, Word)>, number: i64) -> Option<usize>
    requires { Rise acts.now }
    ensures { result ≡ place_of number acts.now }
{
    let found = acts.as_slice().binary_search_by_key(&number, |act| act.0);
    found.ok()
}

/// The text of the act with the number in a block.
fn text_of(acts: &Items<(i64, Word)>, number: i64) -> Option<&Word>
    requires { Rise acts.now }
    ensures { option_copied result ≡ text_of number acts.now }
{
    let at = place_of(acts, number)?;
    Some(&acts.get(at).1)
}

/// Takes the act with the number out of a block.
fn take_out(acts: &mut Items<(i64, Word)>, number: i64)
    requires { Rise acts.old }
    ensures { acts.new ≡ without_number number acts.old }
{
    if let Some(at) = place_of(acts, number) {
        acts.remove(at);
    }
}

/// Puts an act into the last block, or into a new one where that is full.
fn push(
    alloc: Global,
    blocks: &mut Vec<Items<(i64, Word)>>,
    act: (i64, Word),
) -> Result<(), NoMemory>
    ensures ok { OnOk result (flat blocks.new.items ≡ flat blocks.old.items ++ act ∷ []) }
    ensures err { OnErr result (flat blocks.new.items ≡ flat blocks.old.items) }
{
    let count = blocks.len();
    if count > 0 && blocks[count - 1].len() < room_of(count) {
        return blocks[count - 1].push(act);
    }
    let mut block = Items::with_room(alloc, room_of(count + 1))?;
    block.push(act)?;
    blocks.push(block)?;
    Ok(())
}

impl Run {
    /// No acts. It takes no memory.
    pub(crate) fn new(alloc: Global) -> Run
        ensures { result ≡ [] }
    {
        Run {
            blocks: Vec::new(alloc),
        }
    }

    /// Whether the numbers of all acts are below this one.
    pub(crate) fn is_below(&self, number: i64) -> bool
        ensures { result ≡ are_below number self.now }
    {
        are_below(self.blocks.as_slice(), number)
    }

    /// The text of the act with the number. A number above all others is not looked for.
    pub(crate) fn text_of(&self, number: i64) -> Option<&Word>
        ensures { option_copied result ≡ text_of number self.now }
    {
        if self.is_below(number) {
            return None;
        }
        let at = block_of(self.blocks.as_slice(), number)?;
        text_of(&self.blocks[at], number)
    }

    /// Puts an act behind the last one. Only this takes memory.
    pub(crate) fn push(&mut self, alloc: Global, number: i64, text: Word) -> Result<(), NoMemory>
        requires { are_below number self.old ≡ true }
        ensures ok { OnOk result (self.new ≡ self.old ++ (number, text) ∷ []) }
        ensures err { OnErr result (self.new ≡ self.old) }
    {
        push(alloc, &mut self.blocks, (number, text))
    }

    /// Takes out the act with the number. Those behind it in its block move.
    pub(crate) fn take_out(&mut self, number: i64)
        ensures { self.new ≡ without_number number self.old }
    {
        if let Some(at) = block_of(self.blocks.as_slice(), number) {
            take_out(&mut self.blocks[at], number);
        }
    }
}
