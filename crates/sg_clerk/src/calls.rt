//! The command `serve`: connections are taken and served one after another, and each has its line.

pub mod laws;
mod serving;
mod station;

pub use serving::serve;
pub use station::serve_calls;
