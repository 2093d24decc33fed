//! What the module of the web page exports: each call is over the bytes of a record that the page was given.
#![tactic(auto)]

mod audit;
mod digest;
mod lines;
mod shown;
mod statuses;
mod walk;
mod wanted;
