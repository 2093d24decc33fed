//! The coins of rows, of which the next one is drawn ahead.
ghost use Rattle.std.specs.Prelude.{◌≡◌, ◌+◌, ◌<◌, ◌^◌};
ghost use Rattle.sg_streams.specs.CoinSides.{coin_of};

use sg_plan::Side;
use sg_streams::{Coins, Seed, coin};
use std::marker::Model;

/// The coins of a seed, seen as the seed. The coin of one row is drawn ahead, by a reader that stands behind it: rows
/// that follow one another take their coins from one walk of their instance's stream.
#[derive(Drop)]
pub struct Walk {
    seed: Seed,
    race: u32,
    instance: u32,
    row: u32,
    /// The side of this row.
    side: Side,
    /// The reader of the coins behind it.
    behind: Coins,
}

impl Model for Walk {
    ghost use Rattle.std.specs.Prelude.{◌≡◌, ℕ, ◌+◌, List};
    ghost use Rattle.sg_streams.specs.CoinSides.{coin_of};

    ghost Value = { List ℕ };

    ghost view = { λ w. w.seed.0 };

    ghost invariant = { λ w. (w.side ≡ coin_of w.seed.0 w.race w.instance w.row)
        × (w.behind ≡ record { seed = w.seed.0; race = w.race; instance = w.instance; row = w.row + 1 }) };
}

impl Walk {
    /// The coins of a seed, of which the very first one is drawn ahead.
    pub fn start(seed: Seed) -> Walk
        ensures { result ≡ seed.0 }
    {
        let mut behind = Coins::at(&seed, 0, 0, 0);
        let side = behind.next();
        Walk {
            seed,
            race: 0,
            instance: 0,
            row: 0,
            side,
            behind,
        }
    }

    /// The side of the row that its coin opens.
    #[inline(always)]
    pub fn side(&self, race: u32, instance: u32, row: u32) -> Side
        ensures { result ≡ coin_of self.now race instance row }
    {
        if race == self.race && instance == self.instance && row == self.row {
            self.side
        } else {
            coin(&self.seed, race, instance, row)
        }
    }

    /// Draws the coin of the row behind this one ahead.
    #[inline(always)]
    pub fn move_on(&mut self, race: u32, instance: u32, row: u32)
        requires { row + 1 < 2 ^ 32 }
        ensures { self.new ≡ self.old }
    {
        if race != self.race || instance != self.instance || row != self.row {
            self.behind = Coins::at(&self.seed, race, instance, row + 1);
        }
        self.race = race;
        self.instance = instance;
        self.row = row + 1;
        self.side = self.behind.next();
    }
}
