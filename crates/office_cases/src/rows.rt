//! Kept rows to begin with.
pub(crate) mod reading;
pub(crate) mod writing;

ghost use Rattle.std.specs.Prelude.{◌≡◌};
ghost use Rattle.sg_keeper.specs.Rows.{no_rows as nothing_kept};

use sg_keeper::{MemoryKeeper, Rows};
use sg_plan::Items;
use std::alloc::Global;

/// No rows.
pub(crate) fn no_rows(alloc: Global) -> Rows
    ensures { result ≡ nothing_kept }
{
    Rows {
        setup: None,
        ballots: Items::new(alloc),
        stages: Items::new(alloc),
        claims: Items::new(alloc),
        voids: Items::new(alloc),
        dones: Items::new(alloc),
    }
}

/// A keeper in memory without rows, of which these calls fail.
pub(crate) fn keeper_of(alloc: Global, fails: Items<u32>) -> MemoryKeeper {
    MemoryKeeper::new(alloc, no_rows(alloc), fails)
}
