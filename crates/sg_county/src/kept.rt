//! What a tally keeps of the parts that have ended.
ghost use Rattle.std.specs.Prelude.{◌≡◌, ◌++◌, ◌+◌, ◌<◌, ◌==◌, ℕ, IfOk, List, [], ◌∷◌, length, None, OnErr, OnOk, Option, Some, true, false};
ghost use Rattle.std.specs.Option.{option_map_or};
ghost use Rattle.sg_record.specs.Laws.{AreLinesOf};
ghost use Rattle.sg_record.specs.declared.record.Record.{Record};
ghost use Rattle.sg_judge.specs.Pass.{StandsFor as HasTaken, is_behind_plan, is_open as is_fine_so_far};
ghost use Rattle.sg_county.specs.County.{most_parts};
ghost use Rattle.sg_county.specs.inside.Keeping.{FitsBehind, IsFound, IsNoted, Keeps, more_sums, races_of};

use crate::ending::Found;
use crate::seals::first_equal_seal;
use crate::sums::added;
use sg_check::Total;
use sg_commit::Digest;
use sg_judge::Pass;
use sg_plan::{Items, NoMemory, Race, copy_races, same_races};
use std::alloc::Global;
use std::mem;

/// What is kept of the parts that have ended.
#[derive(Debug, Drop)]
pub(crate) struct Kept {
    /// The races of the first part.
    pub(crate) races: Items<Race>,
    /// The sums of the parts' totals.
    pub(crate) sums: Items<Total>,
    /// The parts' seals.
    pub(crate) seals: Items<Option<Digest>>,
}

impl Kept {
    /// What is kept of no parts, with room for the seals of so many.
    pub(crate) fn new(alloc: Global, parts: usize) -> Result<Kept, NoMemory>
        ensures { IfOk result (λ kept. Keeps kept []) }
    {
        Ok(Kept {
            races: Items::new(alloc),
            sums: Items::new(alloc),
            seals: Items::with_room(alloc, parts)?,
        })
    }

    /// The number of the part behind these.
    pub(crate) fn number(&self) -> u32
        requires { length self.now.seals < most_parts }
        ensures { result ≡ length self.now.seals + 1 }
    {
        self.seals.len() as u32 + 1
    }

    /// What is found of the part in the pass, which ends behind these.
    pub(crate) fn find(&self, pass: &Pass) -> Found
        requires { length self.now.seals < most_parts }
        ensures number { result.number ≡ length self.now.seals + 1 }
        ensures is { is_fine_so_far pass.now ≡ true → (before : List Record) (part : List (List ℕ)) (posted : Record) → Keeps self.now before → HasTaken pass.now part → AreLinesOf part posted → IsFound result before posted }
    {
        let number = self.number();
        Found {
            number,
            same: has_races(number, &self.races, pass),
            other: first_equal_seal(pass.first_seal(), &self.seals),
        }
    }

    /// Keeps the seal of the part in the pass, which ends behind these, and its races where it is the first; and answers
    /// what is found of it. After `NoMemory` all is as before.
    pub(crate) fn note_part(&mut self, alloc: Global, pass: &Pass) -> Result<Found, NoMemory>
        requires { length self.old.seals < most_parts }
        ensures number { IfOk result (λ found. found.number ≡ length self.old.seals + 1) }
        ensures found { is_fine_so_far pass.now ≡ true → IfOk result (λ found. (before : List Record) (part : List (List ℕ)) (posted : Record) → Keeps self.old before → HasTaken pass.now part → AreLinesOf part posted → IsFound found before posted) }
        ensures noted { is_fine_so_far pass.now ≡ true → OnOk result ((before : List Record) (part : List (List ℕ)) (posted : Record) → Keeps self.old before → HasTaken pass.now part → AreLinesOf part posted → IsNoted self.old self.new before posted) }
        ensures count { OnOk result (length self.new.seals ≡ length self.old.seals + 1) }
        ensures err { OnErr result (self.new ≡ self.old) }
    {
        let found = self.find(pass);
        let races = first_races(alloc, found.number, pass)?;
        self.note(pass.first_seal(), races)?;
        Ok(found)
    }

    /// Keeps the seal of a part, and races where there are some. After `NoMemory` all is as before.
    fn note(&mut self, seal: Option<Digest>, races: Option<Items<Race>>) -> Result<(), NoMemory>
        ensures ok { OnOk result (self.new ≡ record { races = option_map_or (λ given. given) races self.old.races; sums = self.old.sums; seals = self.old.seals ++ seal ∷ [] }) }
        ensures err { OnErr result (self.new ≡ self.old) }
    {
        self.seals.push(seal)?;
        match races {
            Some(given) => {
                self.races = given;
                Ok(())
            }
            None => Ok(()),
        }
    }

    /// Adds the totals of the part of this number. It takes no memory.
    pub(crate) fn add(&mut self, alloc: Global, number: u32, totals: Items<Total>)
        requires { FitsBehind number self.old.sums totals }
        ensures { self.new ≡ record { races = self.old.races; sums = more_sums number self.old.sums totals; seals = self.old.seals } }
    {
        let sums = mem::replace(&mut self.sums, Items::new(alloc));
        self.sums = added(number, sums, totals);
    }
}

/// A part of this number has the races of the first; the first has its own.
fn has_races(number: u32, races: &Items<Race>, pass: &Pass) -> bool
    ensures first { number ≡ 1 → result ≡ true }
    ensures same { (number == 1) ≡ false → is_fine_so_far pass.now ≡ true → (part : List (List ℕ)) → HasTaken pass.now part → is_behind_plan part ≡ true → result ≡ true → races_of part ≡ races.now }
    ensures differs { (number == 1) ≡ false → is_fine_so_far pass.now ≡ true → (part : List (List ℕ)) → HasTaken pass.now part → is_behind_plan part ≡ true → result ≡ false → races_of part ≡ races.now → ⊥ }
{
    if number == 1 {
        return true;
    }
    if !pass.is_ready() {
        return false;
    }
    same_races(&pass.plan().races, races)
}

/// The races to keep behind the part of this number: those of the first.
fn first_races(alloc: Global, number: u32, pass: &Pass) -> Result<Option<Items<Race>>, NoMemory>
    ensures first { number ≡ 1 → is_fine_so_far pass.now ≡ true → IfOk result (λ races. (part : List (List ℕ)) → HasTaken pass.now part → is_behind_plan part ≡ true → races ≡ Some (races_of part)) }
    ensures other { (number == 1) ≡ false → IfOk result (λ races. races ≡ None) }
{
    if number != 1 {
        return Ok(None);
    }
    if !pass.is_ready() {
        return Ok(None);
    }
    let races = copy_races(&pass.plan().races, alloc)?;
    Ok(Some(races))
}
