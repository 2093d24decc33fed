//! All that an office draws from its seed, and an auditor from the public bytes: words, keys of
//! openings, orders, codes and coins.
#![tactic(auto)]

mod coin_sides;
pub mod laws;
mod opening_keys;
mod ordering;
mod reading;
mod row_codes;
mod seeds;
mod short_orders;

pub use coin_sides::{Coins, coin, coin_key, side_of_word};
pub use opening_keys::{Keys, key_at};
pub use ordering::order;
pub use reading::{Words, word};
pub use row_codes::codes;
pub use seeds::{Seed, stream};
pub use short_orders::short_order;
