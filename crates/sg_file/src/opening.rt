//! Opening `office.db`, and why that is refused.
ghost use Rattle.std.specs.Prelude.{◌≡◌, ◌↔◌, false, IsSome, OnOk};
ghost use Rattle.std.specs.IoError.{error_kind};

use crate::causes::{Cause, Trouble};
use crate::folder::{FILE, Found, look, make, refusal};
use sg_store::SqlKeeper;
use sqlite::{Alter, Connection, Error, ErrorCode, File, FileStore};
use std::alloc::Global;
use std::io::{self, ErrorKind};

/// The keeper over the open file.
pub(crate) type Inner = SqlKeeper<FileStore<File>>;

/// Why a call is refused.
#[derive(Clone, Copy)]
pub(crate) enum Refusal {
    /// Memory was wanted and not found.
    NoMemory,
    /// The call failed.
    Failed(Cause),
}

/// A refusal by the system.
fn by_system(error: io::Error) -> Refusal
    ensures { (result ≡ Refusal.NoMemory) ↔ (error_kind error ≡ ErrorKind.OutOfMemory) }
{
    match error.kind() {
        ErrorKind::OutOfMemory => Refusal::NoMemory,
        _ => Refusal::Failed(Cause::of_system(error)),
    }
}

/// A refusal by the database, which tells more where the system refused the files themselves.
fn by_database(rt: &HostRuntime, error: Error) -> Refusal
    ensures { (result ≡ Refusal.NoMemory) ↔ (error ≡ Error.SqliteFailure ErrorCode.OutOfMemory) }
{
    match error {
        Error::SqliteFailure(ErrorCode::OutOfMemory) => Refusal::NoMemory,
        Error::SqliteFailure(ErrorCode::CannotOpen) => Refusal::Failed(unopened(rt, error)),
        _ => Refusal::Failed(Cause::of_database(error)),
    }
}

/// Why the files could not be opened.
fn unopened(rt: &HostRuntime, error: Error) -> Cause {
    match refusal(rt) {
        Some(error) => Cause::of_system(error),
        None => Cause::of_database(error),
    }
}

/// Puts a keeper over the connection in its place.
fn put_over<S: Alter + Drop>(
    alloc: Global,
    keeper: &mut Option<SqlKeeper<S>>,
    connection: Connection<S>,
)
    requires { connection.in_transaction ≡ false }
    ensures { IsSome keeper.new }
{
    drop(keeper.replace(SqlKeeper::over(alloc, connection)));
}

/// Opens the file. One without a page yet gets sums of its pages.
fn open(rt: &HostRuntime, keeper: &mut Option<Inner>) -> Result<(), Refusal>
    ensures { OnOk result (IsSome keeper.new) }
{
    match Connection::open_with_sums(rt, FILE) {
        Ok(connection) => {
            put_over(rt.alloc(), keeper, connection);
            Ok(())
        }
        Err(error) => Err(by_database(rt, error)),
    }
}

/// Looks what lies in the folder.
fn found(rt: &HostRuntime) -> Result<Found, Refusal> {
    match look(rt) {
        Ok(Found::LogAlone) => Err(Refusal::Failed(Cause::plain(Trouble::Orphaned))),
        Ok(found) => Ok(found),
        Err(error) => Err(by_system(error)),
    }
}

/// Opens the file, where there is one with a byte.
pub(crate) fn open_kept(rt: &HostRuntime, keeper: &mut Option<Inner>) -> Result<(), Refusal> {
    match found(rt)? {
        Found::File => open(rt, keeper),
        _ => Ok(()),
    }
}

/// Opens the file, or makes it.
pub(crate) fn open_or_make(rt: &HostRuntime, keeper: &mut Option<Inner>) -> Result<(), Refusal>
    ensures { OnOk result (IsSome keeper.new) }
{
    if found(rt)? == Found::Nothing {
        match make(rt) {
            Ok(()) => {}
            Err(error) => return Err(by_system(error)),
        }
    }
    open(rt, keeper)
}
