//! A keeper in memory that never fails.
ghost use Rattle.std.specs.Prelude.{◌≡◌, None, IfOk, OnOk, OnErr};
ghost use Rattle.sg_keeper.specs.Rows.{HasFaultCause, IsAscii, IsAsciiChange, IsNewChange, no_rows, with_change, with_setup};

use sg_keeper::{Change, KeepFault, Keeper, MemoryKeeper, Rows};
use sg_plan::{Items, Word};
use std::alloc::Global;
use std::marker::Model;

/// A keeper in memory none of whose calls is told to fail. It refuses for want of memory alone.
#[derive(Drop)]
pub(crate) struct Steady {
    keeper: MemoryKeeper,
}

impl Model for Steady {
    ghost use Rattle.std.specs.Prelude.{◌≡◌, []};
    ghost use Rattle.sg_keeper.specs.Keeping.{Keeping};

    ghost Value = { Keeping };

    ghost view = { λ steady. steady.keeper };

    ghost invariant = { λ steady. steady.keeper.fails ≡ [] };
}

impl Steady {
    /// A keeper of no rows.
    pub(crate) fn new(alloc: Global) -> Steady
        ensures { result.rows ≡ no_rows }
    {
        let rows = Rows {
            setup: None,
            ballots: Items::new(alloc),
            stages: Items::new(alloc),
            claims: Items::new(alloc),
            voids: Items::new(alloc),
            dones: Items::new(alloc),
        };
        Steady {
            keeper: MemoryKeeper::new(alloc, rows, Items::new(alloc)),
        }
    }
}

impl Keeper for Steady {
    ghost tells = { λ _. Unit {0} };

    ghost rows = { λ keeper. keeper.rows };

    ghost faults = { λ _. 0 };

    fn load(&mut self, alloc: Global) -> Result<Rows, KeepFault> {
        self.keeper.load(alloc)
    }

    fn begin(&mut self, setup: &Word) -> Result<(), KeepFault> {
        self.keeper.begin(setup)
    }

    fn commit(&mut self, change: &Change) -> Result<(), KeepFault> {
        self.keeper.commit(change)
    }
}
