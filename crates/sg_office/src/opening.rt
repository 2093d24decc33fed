//! An office, opened from its rows.
ghost use Rattle.std.specs.Prelude.{◌≡◌, IfErr, IfOk};
ghost use Rattle.sg_histories.specs.Opens.{OpenTo, Whole};
ghost use Rattle.sg_histories.specs.Standing.{HasRows};
ghost use Rattle.sg_open.specs.Opened.{IsFault, StandsForEach};

use crate::office::Office;
use sg_keeper::Rows;
use sg_open::{OpenFault, open_rows};
use std::alloc::Global;

impl Office {
    /// Opens the office of these rows, where they are those of a lawful history of its setup. Then it stands for each such
    /// history. The rows are judged in n log n.
    ///
    /// Refused are rows without a setup (`Empty`), and rows that are no office's, with the first bad table and row
    /// (`Damaged`), each exactly. `NoMemory` says nothing of the rows.
    pub fn open(alloc: Global, rows: &Rows) -> Result<Office, OpenFault>
        ensures setup { IfOk result (λ office. OpenTo rows.now (Whole office.setup)) }
        ensures stands { IfOk result (λ office. HasRows office rows.now) }
        ensures each { IfOk result (λ office. StandsForEach office rows.now) }
        ensures fault { IfErr result (λ fault. IsFault fault rows.now) }
    {
        let kept = open_rows(alloc, rows)?;
        Ok(Office::with(alloc, kept)?)
    }
}
