//! Rows with keys.
ghost use Rattle.std.specs.Prelude.{◌≡◌, IfOk};

use crate::copies::copy_word;
use crate::rows::{BallotRow, ClaimRow, DoneRow, StageRow, VoidRow};
use sg_plan::NoMemory;
use std::alloc::Global;

/// A row of a list that rises by keys.
pub(crate) trait Keyed: Drop {
    ghost use Rattle.std.specs.Prelude.{ℤ};

    /// The row's key.
    ghost key_of: { Self → ℤ × ℤ };

    /// The row's key: two numbers, of which the first counts more. A key of one number has 0 in front.
    fn key(&self) -> (i64, i64)
        ensures { result ≡ key_of self.now };

    /// The same row again.
    fn copy(&self, alloc: Global) -> Result<Self, NoMemory>
        ensures { IfOk result (λ copy. copy ≡ self.now) };
}

impl Keyed for BallotRow {
    ghost use Rattle.std.specs.Prelude.{pos};

    ghost key_of = { λ row. (pos 0, row.ballot) };

    fn key(&self) -> (i64, i64) {
        (0, self.ballot)
    }

    fn copy(&self, alloc: Global) -> Result<BallotRow, NoMemory> {
        let detail = copy_word(alloc, &self.detail)?;
        Ok(BallotRow {
            ballot: self.ballot,
            fate: self.fate,
            detail,
        })
    }
}

impl Keyed for StageRow {
    ghost use Rattle.std.specs.Prelude.{pos};

    ghost key_of = { λ row. (pos 0, row.step) };

    fn key(&self) -> (i64, i64) {
        (0, self.step)
    }

    fn copy(&self, alloc: Global) -> Result<StageRow, NoMemory> {
        let detail = copy_word(alloc, &self.detail)?;
        Ok(StageRow {
            step: self.step,
            detail,
        })
    }
}

impl Keyed for ClaimRow {
    ghost use Rattle.std.specs.Prelude.{pos};

    ghost key_of = { λ row. (pos 0, row.claim) };

    fn key(&self) -> (i64, i64) {
        (0, self.claim)
    }

    fn copy(&self, _alloc: Global) -> Result<ClaimRow, NoMemory> {
        Ok(*self)
    }
}

impl Keyed for VoidRow {
    ghost use Rattle.std.specs.Prelude.{pos};

    ghost key_of = { λ row. (pos 0, row.ballot) };

    fn key(&self) -> (i64, i64) {
        (0, self.ballot)
    }

    fn copy(&self, _alloc: Global) -> Result<VoidRow, NoMemory> {
        Ok(*self)
    }
}

impl Keyed for DoneRow {
    ghost key_of = { λ row. (row.station, row.number) };

    fn key(&self) -> (i64, i64) {
        (self.station, self.number)
    }

    fn copy(&self, alloc: Global) -> Result<DoneRow, NoMemory> {
        let act = copy_word(alloc, &self.act)?;
        Ok(DoneRow {
            station: self.station,
            number: self.number,
            act,
        })
    }
}
