//! What was drawn: which sides of the rows are opened.
ghost use Rattle.std.specs.Prelude.{◌≡◌, ◌+◌, ◌<◌, ◌≤◌, ◌^◌, ◌&&◌, ◌||◌, if◌then◌else◌, Some, is_some, not, false, length, take};
ghost use Rattle.std.specs.Option.{option_map_or, option_or};
ghost use Rattle.sg_check.specs.Facts.{is_both};
ghost use Rattle.sg_check.specs.Kinds.{is_on_side};
ghost use Rattle.sg_forms.specs.Reading.{bytes_of_digits};
ghost use Rattle.sg_forms.specs.Spelling.{AreDigits};
ghost use Rattle.sg_streams.specs.CoinSides.{coin_of, coin_seed};

use crate::audits::are_both;
use crate::coins::Walk;
use sg_forms::{RowOpening, draw_bytes};
use sg_plan::Side;
use sg_plan::limits::MOST_PUBLIC_BYTES;
use sg_streams::{Seed, coin_key};

/// Whether both sides of each row are drawn, and the coins, where public bytes were drawn.
#[derive(Drop)]
pub struct Drawn {
    /// Both sides of each row are opened.
    pub full: bool,
    /// The coins of the public bytes.
    pub coins: Option<Walk>,
}

impl Drawn {
    /// Nothing is drawn yet.
    pub fn make() -> Drawn
        ensures full { result.full ≡ false }
        ensures coins { result.coins ≡ None }
    {
        Drawn {
            full: false,
            coins: None,
        }
    }

    /// Public bytes were drawn.
    pub fn is_public(&self) -> bool
        ensures { result ≡ is_some self.now.coins }
    {
        self.coins.is_some()
    }

    /// Keeps the coins of public bytes, in hexadecimal digits, unless some are kept.
    pub fn keep_public(&mut self, digits: &[u8])
        requires { AreDigits digits.now }
        ensures full { self.new.full ≡ self.old.full }
        ensures coins { self.new.coins ≡ option_or self.old.coins (Some (coin_seed (bytes_of_digits digits.now))) }
    {
        if self.coins.is_none() {
            self.coins = Some(Walk::start(seed_of(digits)));
        }
    }

    /// A row was kept: its instance's next one is drawn ahead.
    #[inline(always)]
    pub fn move_on(&mut self, race: u32, instance: u32, row: u32)
        requires { row + 1 < 2 ^ 32 }
        ensures { self.new ≡ self.old }
    {
        if let Some(coins) = &mut self.coins {
            coins.move_on(race, instance, row);
        }
    }

    /// The row is not opened on a side on which it is to be.
    #[inline(always)]
    pub fn is_side_bad(&self, race: u32, instance: u32, row: u32, opening: &RowOpening) -> bool
        ensures { result ≡ ((self.now.full && not (is_both opening.now)) || option_map_or (λ seed. not (is_on_side (coin_of seed race instance row) opening.now)) self.now.coins false) }
    {
        let one_side = self.full && !are_both(opening);
        match &self.coins {
            Some(coins) => one_side || !is_on_side(coins.side(race, instance, row), opening),
            None => one_side,
        }
    }
}

/// The row is opened on both sides, or on this one.
fn is_on_side(side: Side, opening: &RowOpening) -> bool
    ensures { result ≡ is_on_side side opening.now }
{
    match *opening {
        RowOpening::Left(_) => match side {
            Side::Left => true,
            Side::Right => false,
        },
        RowOpening::Right(_) => match side {
            Side::Left => false,
            Side::Right => true,
        },
        RowOpening::Both(..) => match side {
            Side::Left => true,
            Side::Right => true,
        },
    }
}

/// The seed of the coins of public bytes, in hexadecimal digits.
fn seed_of(digits: &[u8]) -> Seed
    requires { AreDigits digits.now }
    ensures { result.0 ≡ coin_seed (bytes_of_digits digits.now) }
{
    let mut bytes = [0; MOST_PUBLIC_BYTES];
    let count = draw_bytes(digits, &mut bytes);
    coin_key(&bytes[..count])
}
