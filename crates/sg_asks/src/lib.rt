//! Asks, replies and the election file as JSON.
//!
//! An ask or a setup is read exactly where bytes have its form, and each fault tells what they have not. Want of memory
//! is the one answer without a cause.
#![tactic(auto)]

mod acts;
mod asks;
mod forms;
mod kinds;
mod papers;
mod pieces;
mod reading;
mod replies;
mod setups;
mod unread;

pub use asks::{AskFault, ask_of};
pub use replies::reply_text;
pub use setups::{SetupFault, setup_of};
