//! The keeper over the file. It counts its faults, and tells nothing of its rows.
ghost use Rattle.std.specs.Prelude.{◌≡◌, ◌≤◌, None, Some, Err, IsSome, IfOk, OnOk, OnErr, option_copied, option_map, ◌↔◌};
ghost use Rattle.sg_outside.specs.Faults.{Rose};
ghost use Rattle.sg_keeper.specs.Rows.{HasFaultCause, IsAscii, IsAsciiChange, IsNewChange, no_rows, with_change, with_setup};

use crate::causes::{Cause, Trouble};
use crate::opening::{Inner, Refusal, open_kept, open_or_make};
use crate::telling::{tell, warn_if_shared};
use sg_keeper::{Change, KeepFault, Keeper, Rows};
use sg_plan::{Items, Word};
use sg_store::SqlKeeper;
use sqlite::{Alter, Error};
use std::alloc::Global;

/// Keeps the rows in `office.db` in the current folder.
///
/// Only `begin` makes the file, for its owner alone. Where there is none, or an empty one, `load` answers that there are no
/// rows and leaves the folder as it is, and `commit` fails. The log `office.db-wal` beside the file belongs to it: keep both.
/// A change is on the disk when `commit` answers Ok. An opening that is refused for memory is [`KeepFault::NoMemory`], and one
/// that is refused for another cause is counted as a fault; the next call tries again. Where the keeper is let go, its log is
/// copied into the file.
pub struct FileKeeper<'a> {
    rt: &'a HostRuntime,
    keeper: Option<Inner>,
    faults: u64,
    cause: Option<Cause>,
    told: Option<Trouble>,
}

impl<'a> Drop for FileKeeper<'a> {
    /// What was kept is on the disk before, so nothing depends on whether the log could be copied.
    fn drop(self) {
        let FileKeeper {
            rt: _,
            keeper,
            faults: _,
            cause: _,
            told: _,
        } = self;
        if let Some(inner) = keeper {
            let _closed = inner.into_connection().close();
        }
    }
}

impl<'a> FileKeeper<'a> {
    /// With no file opened, and no fault counted.
    pub fn new(rt: &'a HostRuntime) -> FileKeeper<'a>
        ensures none { result.faults ≡ 0 }
        ensures quiet { result.cause ≡ None }
    {
        FileKeeper {
            rt,
            keeper: None,
            faults: 0,
            cause: None,
            told: None,
        }
    }

    /// Why the last call that failed did so: none before the first.
    pub fn cause(&self) -> Option<&Cause>
        ensures { option_copied result ≡ self.now.cause }
    {
        self.cause.as_ref()
    }

    /// Counts and keeps the cause of a failure.
    fn count(&mut self, cause: Cause) -> KeepFault
        ensures failed { result ≡ KeepFault.Failed }
        ensures later { self.old.faults ≤ self.new.faults }
        ensures rose { Rose self.old.faults self.new.faults }
        ensures why { self.new.cause ≡ Some cause }
        ensures told { self.new.told ≡ self.old.told }
    {
        self.faults = self.faults.saturating_add(1);
        self.cause = Some(cause);
        KeepFault::Failed
    }

    /// Names a refusal. It is counted and kept, unless it is want of memory.
    fn refused(&mut self, refusal: Refusal) -> KeepFault
        ensures later { self.old.faults ≤ self.new.faults }
        ensures failed { result ≡ KeepFault.Failed → Rose self.old.faults self.new.faults }
        ensures why { result ≡ KeepFault.Failed → IsSome self.new.cause }
        ensures memory { result ≡ KeepFault.NoMemory → self.new ≡ self.old }
    {
        match refusal {
            Refusal::NoMemory => KeepFault::NoMemory,
            Refusal::Failed(cause) => self.count(cause),
        }
    }

    /// The same of an act that could not be kept. Its cause is told.
    fn refused_commit(&mut self, refusal: Refusal) -> KeepFault
        ensures later { self.old.faults ≤ self.new.faults }
        ensures failed { result ≡ KeepFault.Failed → Rose self.old.faults self.new.faults }
        ensures why { result ≡ KeepFault.Failed → IsSome self.new.cause }
        ensures told { result ≡ KeepFault.Failed → self.new.told ≡ option_map (λ cause. cause.trouble) self.new.cause }
        ensures memory { result ≡ KeepFault.NoMemory → self.new ≡ self.old }
    {
        match refusal {
            Refusal::NoMemory => KeepFault::NoMemory,
            Refusal::Failed(cause) => {
                tell(self.rt, &mut self.told, &cause);
                self.count(cause)
            }
        }
    }
}

/// No row at all.
fn empty_rows(alloc: Global) -> Rows
    ensures { result ≡ no_rows }
{
    Rows {
        setup: None,
        ballots: Items::new(alloc),
        stages: Items::new(alloc),
        claims: Items::new(alloc),
        voids: Items::new(alloc),
        dones: Items::new(alloc),
    }
}

/// Why the keeper over the open file refused a call.
fn refusal_of(fault: KeepFault, error: Option<Error>) -> Refusal
    requires { fault ≡ KeepFault.Failed → IsSome error }
    ensures { (result ≡ Refusal.NoMemory) ↔ (fault ≡ KeepFault.NoMemory) }
{
    match fault {
        KeepFault::NoMemory => Refusal::NoMemory,
        KeepFault::Failed => {
            let Some(error) = error else {
                unreachable!();
            };
            Refusal::Failed(Cause::of_database(error))
        }
    }
}

/// Opens the file where there is one with a byte, unless it is open.
fn find(rt: &HostRuntime, keeper: &mut Option<Inner>) -> Result<(), Refusal> {
    if keeper.is_some() {
        return Ok(());
    }
    open_kept(rt, keeper)
}

/// Opens the file, or makes it, unless it is open.
fn find_or_make(rt: &HostRuntime, keeper: &mut Option<Inner>) -> Result<(), Refusal>
    ensures open { OnOk result (IsSome keeper.new) }
{
    if keeper.is_some() {
        return Ok(());
    }
    open_or_make(rt, keeper)
}

/// Loads from an open database.
fn load_from<S: Alter + Drop>(alloc: Global, keeper: &mut SqlKeeper<S>) -> Result<Rows, Refusal> {
    match keeper.load(alloc) {
        Ok(rows) => Ok(rows),
        Err(fault) => Err(refusal_of(fault, keeper.cause())),
    }
}

/// Begins in an open database.
fn begin_in<S: Alter + Drop>(keeper: &mut SqlKeeper<S>, setup: &Word) -> Result<(), Refusal>
    requires { IsAscii setup.now }
{
    match keeper.begin(setup) {
        Ok(()) => Ok(()),
        Err(fault) => Err(refusal_of(fault, keeper.cause())),
    }
}

/// Commits to an open database.
fn commit_to<S: Alter + Drop>(keeper: &mut SqlKeeper<S>, change: &Change) -> Result<(), Refusal>
    requires { IsAsciiChange change.now }
{
    match keeper.commit(change) {
        Ok(()) => Ok(()),
        Err(fault) => Err(refusal_of(fault, keeper.cause())),
    }
}

/// Loads from the file.
fn load(rt: &HostRuntime, keeper: &mut Option<Inner>, alloc: Global) -> Result<Rows, Refusal> {
    find(rt, keeper)?;
    match keeper {
        Some(inner) => load_from(alloc, inner),
        None => Ok(empty_rows(alloc)),
    }
}

/// Begins in the file, and makes it where there is none.
fn begin(rt: &HostRuntime, keeper: &mut Option<Inner>, setup: &Word) -> Result<(), Refusal>
    requires { IsAscii setup.now }
    ensures open { OnOk result (IsSome keeper.new) }
{
    find_or_make(rt, keeper)?;
    let Some(inner) = keeper else {
        unreachable!();
    };
    warn_if_shared(rt);
    begin_in(inner, setup)
}

/// Commits to the file.
fn commit(rt: &HostRuntime, keeper: &mut Option<Inner>, change: &Change) -> Result<(), Refusal>
    requires { IsAsciiChange change.now }
    ensures open { OnOk result (IsSome keeper.new) }
{
    find(rt, keeper)?;
    match keeper {
        Some(inner) => commit_to(inner, change),
        None => Err(Refusal::Failed(Cause::plain(Trouble::Missing))),
    }
}

impl<'a> Keeper for FileKeeper<'a> {
    ghost tells = { λ _. ⊥ };

    ghost rows = { λ _. no_rows };

    ghost faults = { λ keeper. keeper.faults };

    fn load(&mut self, alloc: Global) -> Result<Rows, KeepFault>
        ensures told { ⊥ → ⊥ }
        ensures same { ⊥ → no_rows ≡ no_rows }
        ensures loaded { ⊥ → IfOk result (λ loaded. loaded ≡ no_rows) }
        ensures cause { HasFaultCause self.old.faults self.new.faults result }

        // The cause of a failure is kept.
        ensures why { result ≡ Err KeepFault.Failed → IsSome self.new.cause }
    {
        match load(self.rt, &mut self.keeper, alloc) {
            Ok(rows) => Ok(rows),
            Err(refusal) => Err(self.refused(refusal)),
        }
    }

    fn begin(&mut self, setup: &Word) -> Result<(), KeepFault>
        requires ascii { IsAscii setup.now }
        ensures told { ⊥ → ⊥ }
        ensures ok { ⊥ → no_rows.setup ≡ None → OnOk result (no_rows ≡ with_setup no_rows setup.now) }
        ensures err { ⊥ → OnErr result (no_rows ≡ no_rows) }
        ensures cause { HasFaultCause self.old.faults self.new.faults result }

        // The cause of a failure is kept.
        ensures why { result ≡ Err KeepFault.Failed → IsSome self.new.cause }

        // A database is open behind Ok.
        ensures open { OnOk result (IsSome self.new.keeper) }
    {
        match begin(self.rt, &mut self.keeper, setup) {
            Ok(()) => Ok(()),
            Err(refusal) => Err(self.refused(refusal)),
        }
    }

    fn commit(&mut self, change: &Change) -> Result<(), KeepFault>
        requires ascii { IsAsciiChange change.now }
        ensures told { ⊥ → ⊥ }
        ensures ok { ⊥ → IsNewChange no_rows change.now → OnOk result (no_rows ≡ with_change no_rows change.now) }
        ensures err { ⊥ → OnErr result (no_rows ≡ no_rows) }
        ensures cause { HasFaultCause self.old.faults self.new.faults result }

        // The cause of a failure is kept.
        ensures why { result ≡ Err KeepFault.Failed → IsSome self.new.cause }

        // A database is open behind Ok.
        ensures open { OnOk result (IsSome self.new.keeper) }
    {
        match commit(self.rt, &mut self.keeper, change) {
            Ok(()) => Ok(()),
            Err(refusal) => Err(self.refused_commit(refusal)),
        }
    }
}
