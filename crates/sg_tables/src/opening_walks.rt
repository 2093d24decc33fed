//! Walks over openings that are taken one after another. Each computes the keys' blocks once, where
//! the calls for a single opening compute one for each key.
ghost use Rattle.std.specs.Prelude.{◌≡◌, ◌+◌, ◌<◌, length};
ghost use Rattle.sg_plan.specs.Ballots.{entries_of};
ghost use Rattle.sg_plan.specs.Codes.{codes_of};
ghost use Rattle.sg_tables.specs.Tables.{left_opening_of, q_opening_of, right_opening_of};

use crate::purposes::{ENTRY_KEYS, LEFT_KEYS, RIGHT_KEYS};
use crate::table_set::Tables;
use sg_commit::{Key, Opening};
use sg_streams::Keys;
use std::marker::Model;

/// A walk over what opens the commitments to the codes of a race's entries.
#[derive(Drop)]
pub struct QOpenings<'a> {
    tables: &'a Tables,
    race: u32,
    entry: u32,
    keys: Keys,
}

impl<'a> Model for QOpenings<'a> {
    ghost use Rattle.sg_tables.specs.inside.Kept.{KeepsKeys};
    ghost use Rattle.sg_tables.specs.Tables.{EntryWalk};

    ghost Value = { EntryWalk };

    ghost view = { λ w. record {
      plan = w.tables.now.plan;
      seed = w.tables.now.seed;
      race = w.race;
      entry = w.entry;
    } };

    ghost invariant = { λ w. KeepsKeys w.tables.now.plan w.tables.now.seed 5 w.race 0 w.entry w.keys };
}

impl<'a> QOpenings<'a> {
    /// A walk that begins at `entry`.
    pub(crate) fn at(tables: &'a Tables, race: u32, entry: u32) -> QOpenings<'a>
        requires { race < length tables.now.plan.races }
        ensures { result ≡ record { plan = tables.now.plan; seed = tables.now.seed; race = race; entry = entry } }
    {
        QOpenings {
            tables,
            race,
            entry,
            keys: tables.keys(ENTRY_KEYS, race, 0, entry),
        }
    }

    /// The opening of the entry, which then goes up by one. Its value is a code of the plan's version.
    #[tactic(auto, unfolding(crate::specs::Tables::q_opening_of))]
    pub fn next(&mut self) -> Opening
        requires { self.old.entry < entries_of self.old.plan self.old.race }
        ensures opening { result ≡ q_opening_of self.old.plan self.old.seed self.old.race self.old.entry }
        ensures bound { result.value < codes_of self.old.plan.version }
        ensures entry { self.new ≡ record self.old { entry = self.old.entry + 1 } }
    {
        let value = u32::from(self.tables.entry_code(self.race, self.entry));
        self.entry += 1;
        let key = Key(self.keys.next());
        Opening { key, value }
    }
}

/// A walk over what opens the commitments to both pointers of an instance's rows.
#[derive(Drop)]
pub struct RowOpenings<'a> {
    tables: &'a Tables,
    race: u32,
    instance: u32,
    row: u32,
    lefts: Keys,
    rights: Keys,
}

impl<'a> Model for RowOpenings<'a> {
    ghost use Rattle.std.specs.Prelude.{◌<◌};
    ghost use Rattle.sg_tables.specs.inside.Kept.{KeepsKeys};
    ghost use Rattle.sg_tables.specs.Tables.{RowWalk};

    ghost Value = { RowWalk };

    ghost view = { λ w. record {
      plan = w.tables.now.plan;
      seed = w.tables.now.seed;
      race = w.race;
      instance = w.instance;
      row = w.row;
    } };

    ghost invariant = { λ w. (w.instance < w.tables.now.plan.instances)
        × KeepsKeys w.tables.now.plan w.tables.now.seed 6 w.race w.instance w.row w.lefts
        × KeepsKeys w.tables.now.plan w.tables.now.seed 7 w.race w.instance w.row w.rights };
}

impl<'a> RowOpenings<'a> {
    /// A walk that begins at `row`.
    pub(crate) fn at(tables: &'a Tables, race: u32, instance: u32, row: u32) -> RowOpenings<'a>
        requires race { race < length tables.now.plan.races }
        requires instance { instance < tables.now.plan.instances }
        ensures { result ≡ record { plan = tables.now.plan; seed = tables.now.seed; race = race; instance = instance; row = row } }
    {
        RowOpenings {
            tables,
            race,
            instance,
            row,
            lefts: tables.keys(LEFT_KEYS, race, instance, row),
            rights: tables.keys(RIGHT_KEYS, race, instance, row),
        }
    }

    /// What opens the row's left pointer, an entry of the race, and its right pointer, a place. The row then goes up by
    /// one.
    #[tactic(auto, unfolding(crate::specs::Tables::left_opening_of, crate::specs::Tables::right_opening_of))]
    pub fn next(&mut self) -> (Opening, Opening)
        requires { self.old.row < entries_of self.old.plan self.old.race }
        ensures left { result.0 ≡ left_opening_of self.old.plan self.old.seed self.old.race self.old.instance self.old.row }
        ensures right { result.1 ≡ right_opening_of self.old.plan self.old.seed self.old.race self.old.instance self.old.row }
        ensures left_bound { result.0.value < entries_of self.old.plan self.old.race }
        ensures right_bound { result.1.value < entries_of self.old.plan self.old.race }
        ensures row { self.new ≡ record self.old { row = self.old.row + 1 } }
    {
        let (left, right) = self.tables.r_row(self.race, self.instance, self.row);
        self.row += 1;
        let left_key = Key(self.lefts.next());
        let right_key = Key(self.rights.next());
        (
            Opening {
                key: left_key,
                value: left,
            },
            Opening {
                key: right_key,
                value: right,
            },
        )
    }
}
