//! Tests of the devices: keepers over a database and over the file, connections of this machine, and sinks over a writer that
//! fails.
#![tactic(auto)]

#[cfg(test)]
mod changes;
#[cfg(test)]
mod file;
#[cfg(test)]
mod links;
#[cfg(test)]
mod sinks;
#[cfg(test)]
mod store;
#[cfg(test)]
mod trials;
