//! A keeper in memory, which fails where it is told to.
ghost use Rattle.std.specs.Prelude.{◌≡◌, ◌↔◌, ◌≤◌, None, Err, IsTrue, IfOk, MatchResult, OnOk, OnErr};
ghost use Rattle.sg_outside.specs.Faults.{Rose};
ghost use Rattle.sg_outside.specs.Memory.{is_listed};
ghost use Rattle.sg_keeper.specs.Keeping.{Keeping, after_call, call_fails};
ghost use Rattle.sg_keeper.specs.Rows.{HasFaultCause, IsAscii, IsAsciiChange, IsNewChange, with_change, with_setup};
ghost use Rattle.sg_keeper.specs.inside.Calls.{call_of};

use crate::copies::copy_word;
use crate::keeper::{KeepFault, Keeper};
use crate::later::{Later, all_rows};
use crate::rows::{Change, Rows};
use sg_plan::{Items, NoMemory, Word};
use std::alloc::Global;
use std::marker::Model;

/// A keeper in memory.
///
/// A change takes the same time however many rows are kept: its rows go behind those that came before. They are put in
/// their places by their keys when the rows are loaded. This takes the time of a sort, where no row that the keeper was
/// given has a lower key than the one before it, and else time linear in the rows for each of them.
#[derive(Drop)]
pub struct MemoryKeeper {
    alloc: Global,
    /// The rows that it was given, with the setup.
    first: Rows,
    /// The rows that were added since.
    later: Later,
    fails: Items<u32>,
    calls: u64,
    faults: u64,
}

impl Model for MemoryKeeper {
    ghost use Rattle.sg_keeper.specs.Keeping.{Keeping};
    ghost use Rattle.sg_keeper.specs.inside.Later.{with_later};

    ghost Value = { Keeping };

    ghost view = { λ keeper. record { rows = with_later keeper.first keeper.later; fails = keeper.fails; calls = keeper.calls; faults = keeper.faults } };
}

impl MemoryKeeper {
    /// A keeper of these rows. Its calls are counted from 0; those in `fails` fail, and no others.
    pub fn new(alloc: Global, rows: Rows, fails: Items<u32>) -> MemoryKeeper
        ensures { result ≡ record { rows = rows; fails = fails; calls = 0; faults = 0 } }
    {
        MemoryKeeper {
            alloc,
            first: rows,
            later: Later::new(alloc),
            fails,
            calls: 0,
            faults: 0,
        }
    }

    /// Counts a call. A listed one fails.
    fn count_call(&mut self) -> Result<(), KeepFault>
        ensures counted { self.new ≡ after_call self.old self.old.rows }
        ensures fails { result ≡ call_of self.old }
        ensures cause { HasFaultCause self.old.faults self.new.faults result }
    {
        let call = self.calls;
        self.calls = call.saturating_add(1);
        if has_call(&self.fails, call) {
            self.faults = self.faults.saturating_add(1);
            return Err(KeepFault::Failed);
        }
        Ok(())
    }
}

/// The call of this number is among those that fail.
fn has_call(fails: &Items<u32>, call: u64) -> bool
    ensures { result ≡ is_listed fails.now call }
{
    fails
        .as_slice()
        .iter()
        .any(|listed| u64::from(*listed) == call)
}

impl Keeper for MemoryKeeper {
    ghost tells = { λ _. Unit {0} };

    ghost rows = { λ keeper. keeper.rows };

    ghost faults = { λ keeper. keeper.faults };

    #[tactic(auto, using(crate::proofs::Causes::caused, crate::proofs::Causes::caused_done, crate::proofs::Causes::caused_memory))]
    fn load(&mut self, alloc: Global) -> Result<Rows, KeepFault>
        ensures told { Unit {0} → Unit {0} }
        ensures same { Unit {0} → self.new.rows ≡ self.old.rows }
        ensures loaded { Unit {0} → IfOk result (λ loaded. loaded ≡ self.old.rows) }
        ensures cause { HasFaultCause self.old.faults self.new.faults result }

        // A listed call fails, and no other.
        ensures fails { result ≡ Err KeepFault.Failed ↔ IsTrue (call_fails self.old) }
        ensures after { self.new ≡ after_call self.old self.old.rows }
    {
        self.count_call()?;
        let rows = all_rows(alloc, &self.first, &self.later)?;
        Ok(rows)
    }

    #[tactic(auto, using(crate::proofs::Causes::caused, crate::proofs::Causes::caused_done, crate::proofs::Causes::caused_memory))]
    fn begin(&mut self, setup: &Word) -> Result<(), KeepFault>
        requires ascii { IsAscii setup.now }
        ensures told { Unit {0} → Unit {0} }
        ensures ok { Unit {0} → self.old.rows.setup ≡ None → OnOk result (self.new.rows ≡ with_setup self.old.rows setup.now) }
        ensures err { Unit {0} → OnErr result (self.new.rows ≡ self.old.rows) }
        ensures cause { HasFaultCause self.old.faults self.new.faults result }

        // A listed call fails, and no other. A second setup takes the place of the first.
        ensures fails { result ≡ Err KeepFault.Failed ↔ IsTrue (call_fails self.old) }
        ensures after { MatchResult result
            (λ _. self.new ≡ after_call self.old (with_setup self.old.rows setup.now))
            (λ _. self.new ≡ after_call self.old self.old.rows) }
    {
        self.count_call()?;
        let text = copy_word(self.alloc, setup)?;
        self.first.setup = Some(text);
        Ok(())
    }

    #[tactic(auto, using(crate::proofs::Causes::caused, crate::proofs::Causes::caused_done, crate::proofs::Causes::caused_memory))]
    fn commit(&mut self, change: &Change) -> Result<(), KeepFault>
        requires ascii { IsAsciiChange change.now }
        ensures told { Unit {0} → Unit {0} }
        ensures ok { Unit {0} → IsNewChange self.old.rows change.now → OnOk result (self.new.rows ≡ with_change self.old.rows change.now) }
        ensures err { Unit {0} → OnErr result (self.new.rows ≡ self.old.rows) }
        ensures cause { HasFaultCause self.old.faults self.new.faults result }

        // A listed call fails, and no other. A row whose key is kept goes behind the rows that have it.
        ensures fails { result ≡ Err KeepFault.Failed ↔ IsTrue (call_fails self.old) }
        ensures after { MatchResult result
            (λ _. self.new ≡ after_call self.old (with_change self.old.rows change.now))
            (λ _. self.new ≡ after_call self.old self.old.rows) }
    {
        self.count_call()?;
        self.later.add(self.alloc, change)?;
        Ok(())
    }
}
