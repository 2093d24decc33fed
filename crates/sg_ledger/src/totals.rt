//! Totals, in a list whose room is taken at its start.
ghost use Rattle.std.specs.Prelude.{◌≡◌, [], ◌∷◌, ◌++◌, ◌<◌, ◌≤◌, IfOk, length, take};
ghost use Rattle.sg_grammar.specs.Left.{most_totals};

use sg_check::Total;
use sg_plan::limits::{MOST_CANDIDATES, MOST_RACES};
use sg_plan::{Items, NoMemory};
use std::alloc::Global;
use std::marker::Model;

/// The most totals of a plan: one for each candidate of each race.
const MOST: usize = MOST_RACES * MOST_CANDIDATES;

/// A list of totals, with room for the most that a plan has.
#[derive(Debug, Drop)]
pub struct Totals {
    /// The totals, and behind them what fills the room.
    places: Items<Total>,
    /// How many there are.
    count: usize,
}

impl Model for Totals {
    ghost use Rattle.std.specs.Prelude.{◌≡◌, ◌≤◌, List, length, take};
    ghost use Rattle.sg_check.specs.declared.judged.Total.{Total};
    ghost use Rattle.sg_grammar.specs.Left.{most_totals};

    ghost Value = { List Total };

    ghost view = { λ t. take t.count t.places };

    ghost invariant = { λ t. (length t.places ≡ most_totals) × (t.count ≤ most_totals) };
}

impl Totals {
    /// None yet. Only this takes memory.
    pub fn make(alloc: Global) -> Result<Totals, NoMemory>
        ensures { IfOk result (λ totals. totals ≡ []) }
    {
        let none = Total {
            race: 0,
            candidate: 0,
            count: 0,
        };
        let places = Items::filled(alloc, none, MOST)?;
        Ok(Totals { places, count: 0 })
    }

    /// Puts the total behind the last one.
    pub fn push(&mut self, total: Total)
        requires { length self.old < most_totals }
        ensures { self.new ≡ self.old ++ total ∷ [] }
    {
        self.places.replace(self.count, total);
        self.count += 1;
    }

    /// The totals alone.
    pub fn into_items(self) -> Items<Total>
        ensures { result ≡ self }
    {
        cut(self.places, self.count)
    }
}

/// The first of the totals, so many of them.
fn cut(places: Items<Total>, count: usize) -> Items<Total>
    requires { count ≤ length places }
    ensures { result ≡ take count places }
{
    let mut left = places;
    while count < left.len() {
        left.remove(left.len() - 1);
    }
    left
}
