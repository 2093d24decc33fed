//! The keeper of an office's rows.
ghost use Rattle.std.specs.Prelude.{◌≡◌, ℕ, None, IfOk, OnOk, OnErr};
ghost use Rattle.sg_keeper.specs.Rows.{HasFaultCause, IsAscii, IsAsciiChange, IsNewChange, with_change, with_setup};
ghost use Rattle.sg_keeper.specs.declared.rows.Rows.{Rows as RowsSeen};

use crate::rows::{Change, Rows};
use sg_plan::{NoMemory, Word};
use std::alloc::Global;

/// Why a keeper refused a call.
#[derive(Clone, Copy, Debug, PartialEq, Eq)]
pub enum KeepFault {
    /// The keeper failed. Its count of faults rose.
    Failed,
    /// Memory was wanted and not found.
    NoMemory,
}

impl From<NoMemory> for KeepFault {
    ghost use Rattle.std.specs.Prelude.{◌≡◌};
    ghost use Rattle.sg_keeper.specs.declared.keeper.KeepFault.TheVariants.{NoMemory};

    ghost from_gives = { λ _ e. e ≡ NoMemory };

    fn from(_: NoMemory) -> KeepFault {
        KeepFault::NoMemory
    }
}

/// Keeps an office's rows. A refused call leaves them as they were.
pub trait Keeper {
    /// The keeper tells its rows. One that tells them before a call tells them after it.
    ghost tells: { Self → Type 0 };

    /// The rows, where it tells them.
    ghost rows: { Self → RowsSeen };

    /// How often it has failed.
    ghost faults: { Self → ℕ };

    /// All rows, each list in the order of its key.
    ///
    /// It is refused for want of memory, or where the keeper failed.
    fn load(&mut self, alloc: Global) -> Result<Rows, KeepFault>
        ensures told { tells self.old → tells self.new }
        ensures same { tells self.old → rows self.new ≡ rows self.old }
        ensures loaded { tells self.old → IfOk result (λ loaded. loaded ≡ rows self.old) }
        ensures cause { HasFaultCause (faults self.old) (faults self.new) result };

    /// Adds the setup's text, where none is kept.
    ///
    /// It is refused for want of memory, or where the keeper failed. A keeper may fail at a second setup.
    fn begin(&mut self, setup: &Word) -> Result<(), KeepFault>
        requires ascii { IsAscii setup.now }
        ensures told { tells self.old → tells self.new }
        ensures ok { tells self.old → (rows self.old).setup ≡ None → OnOk result (rows self.new ≡ with_setup (rows self.old) setup.now) }
        ensures err { tells self.old → OnErr result (rows self.new ≡ rows self.old) }
        ensures cause { HasFaultCause (faults self.old) (faults self.new) result };

    /// Adds both rows of the change, each in its place by its key, where neither key is kept.
    ///
    /// It is refused for want of memory, or where the keeper failed. A keeper may fail at a key that is kept.
    fn commit(&mut self, change: &Change) -> Result<(), KeepFault>
        requires ascii { IsAsciiChange change.now }
        ensures told { tells self.old → tells self.new }
        ensures ok { tells self.old → IsNewChange (rows self.old) change.now → OnOk result (rows self.new ≡ with_change (rows self.old) change.now) }
        ensures err { tells self.old → OnErr result (rows self.new ≡ rows self.old) }
        ensures cause { HasFaultCause (faults self.old) (faults self.new) result };
}
