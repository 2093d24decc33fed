//! Why kept rows give no office.
ghost use Rattle.std.specs.Prelude.{◌≡◌, ◌+◌, ◌-◌, ◌<◌, ◌^◌};
ghost use Rattle.sg_open.specs.declared.fault.OpenFault.TheVariants as fault;

use sg_plan::NoMemory;

/// Why kept rows give no office.
#[derive(Clone, Copy, Debug, PartialEq, Eq)]
pub enum OpenFault {
    /// No setup is kept.
    Empty,
    /// A setup is kept, and this row of this table is the first bad one. Tables are numbered 1 setup, 2 ballots,
    /// 3 stages, 4 claims, 5 done rows, 6 voids, and rows from 1. One row past the last done row is named where an act
    /// that another table tells was not done.
    Damaged { table: u32, row: u64 },
    /// Memory was wanted and not found. It says nothing of the rows.
    NoMemory,
}

impl From<NoMemory> for OpenFault {
    ghost use Rattle.std.specs.Prelude.{◌≡◌};
    ghost use Rattle.sg_open.specs.declared.fault.OpenFault.TheVariants.{NoMemory};

    ghost from_gives = { λ _ e. e ≡ NoMemory };

    fn from(_: NoMemory) -> OpenFault {
        OpenFault::NoMemory
    }
}

/// The row at this place of a table, counted from 0, is bad.
pub fn bad_row(table: u32, at: usize) -> OpenFault
    requires { at < 2 ^ 64 - 1 }
    ensures { result ≡ fault.Damaged table (at + 1) }
{
    OpenFault::Damaged {
        table,
        row: at as u64 + 1,
    }
}
