//! Connections in memory are served, case by case. Told is what each was sent, what was written and which rows are kept.
//!
//! Each case has an office, a keeper, connections and an output of its own. The script names the calls of each that fail,
//! and the sizes of the pieces in which the connections' bytes come. What is wanted was found from the rules, and for the
//! last three cases by another implementation.
mod cases;
mod script;
mod told;

use crate::fault::Fault;
use cases::tell_cases;
use std::alloc::Global;
use std::io::Write;

/// Tells the cases of the input's script.
pub(crate) fn tell<W: Write>(alloc: Global, script: &[u8], out: &mut W) -> Result<(), Fault> {
    match std::str::from_utf8(script) {
        Ok(script) => tell_cases(alloc, script, out),
        Err(_) => Err(Fault::Input),
    }
}
