//! The keeper over a database.
ghost use Rattle.std.specs.Prelude.{◌≡◌, ◌≢◌, ◌≤◌, ◌↔◌, false, true, IfOk, None, Some, OnOk, OnErr};
ghost use Rattle.sg_outside.specs.Faults.{Rose};
ghost use Rattle.sg_keeper.specs.Laws.{RowsRise};
ghost use Rattle.sg_keeper.specs.Rows.{HasFaultCause, IsAscii, IsAsciiChange, IsNewChange, with_change, with_setup};
ghost use Rattle.sg_store.specs.Told.{HasTables, IsOurs, IsSure, KeeperTells, rows_in};
ghost use Rattle.sg_store.specs.Why.{HasWhy};

use crate::loads::load_rising;
use crate::tables::make_tables;
use crate::texts::text_of;
use crate::writes::{add_change, add_setup};
use sg_keeper::{Change, KeepFault, Keeper, Rows};
use sg_plan::Word;
use sqlite::{Alter, Connection, Error, ErrorCode};
use std::alloc::Global;

/// Counts and keeps a refusal of the database, unless it is want of memory, and names it.
fn refused(faults: &mut u64, cause: &mut Option<Error>, error: Error) -> KeepFault
    ensures later { faults.old ≤ faults.new }
    ensures failed { result ≡ KeepFault.Failed → Rose faults.old faults.new }
    ensures kept { result ≡ KeepFault.Failed → (cause.new ≡ Some error) × (error ≢ Error.SqliteFailure ErrorCode.OutOfMemory) }
    ensures memory { result ≡ KeepFault.NoMemory → cause.new ≡ cause.old }
    ensures uncounted { result ≡ KeepFault.NoMemory → faults.new ≡ faults.old }
    ensures wanted { (result ≡ KeepFault.NoMemory) ↔ (error ≡ Error.SqliteFailure ErrorCode.OutOfMemory) }
{
    match error {
        Error::SqliteFailure(ErrorCode::OutOfMemory) => KeepFault::NoMemory,
        _ => {
            *faults = faults.saturating_add(1);
            *cause = Some(error);
            KeepFault::Failed
        }
    }
}

/// Makes the tables that are not there, at the first call that is not refused.
fn make_ready<S: Alter>(
    conn: &mut Connection<S>,
    has_tables: &mut bool,
    faults: &mut u64,
    cause: &mut Option<Error>,
) -> Result<(), KeepFault>
    ensures told { KeeperTells S.Store has_tables.old conn.old → KeeperTells S.Store has_tables.new conn.new }
    ensures ok { KeeperTells S.Store has_tables.old conn.old → OnOk result ((has_tables.new ≡ true) × HasTables S.Store 6 conn.new) }
    ensures same { KeeperTells S.Store has_tables.old conn.old → rows_in S.Store conn.new ≡ rows_in S.Store conn.old }
    ensures cause { HasFaultCause faults.old faults.new result }
    ensures why { HasWhy cause.old cause.new result }
{
    if *has_tables {
        return Ok(());
    }
    match make_tables(conn) {
        Ok(()) => {
            *has_tables = true;
            Ok(())
        }
        Err(error) => Err(refused(faults, cause, error)),
    }
}

/// Loads over the parts of a keeper.
fn load_parts<S: Alter>(
    alloc: Global,
    conn: &mut Connection<S>,
    has_tables: &mut bool,
    faults: &mut u64,
    cause: &mut Option<Error>,
) -> Result<Rows, KeepFault>
    ensures told { KeeperTells S.Store has_tables.old conn.old → KeeperTells S.Store has_tables.new conn.new }
    ensures same { KeeperTells S.Store has_tables.old conn.old → rows_in S.Store conn.new ≡ rows_in S.Store conn.old }
    ensures loaded { KeeperTells S.Store has_tables.old conn.old → IfOk result (λ loaded. loaded ≡ rows_in S.Store conn.old) }
    ensures cause { HasFaultCause faults.old faults.new result }
    ensures why { HasWhy cause.old cause.new result }
    ensures rising { KeeperTells S.Store has_tables.old conn.old → IfOk result RowsRise }
{
    make_ready(conn, has_tables, faults, cause)?;
    match load_rising(alloc, conn) {
        Ok(rows) => Ok(rows),
        Err(error) => Err(refused(faults, cause, error)),
    }
}

/// Begins over the parts of a keeper.
fn begin_parts<S: Alter>(
    conn: &mut Connection<S>,
    has_tables: &mut bool,
    faults: &mut u64,
    cause: &mut Option<Error>,
    setup: &Word,
) -> Result<(), KeepFault>
    ensures told { KeeperTells S.Store has_tables.old conn.old → KeeperTells S.Store has_tables.new conn.new }
    ensures ok { KeeperTells S.Store has_tables.old conn.old → (rows_in S.Store conn.old).setup ≡ None → OnOk result (rows_in S.Store conn.new ≡ with_setup (rows_in S.Store conn.old) setup.now) }
    ensures err { KeeperTells S.Store has_tables.old conn.old → OnErr result (rows_in S.Store conn.new ≡ rows_in S.Store conn.old) }
    ensures fresh { KeeperTells S.Store has_tables.old conn.old → OnOk result ((rows_in S.Store conn.old).setup ≡ None) }
    ensures cause { HasFaultCause faults.old faults.new result }
    ensures why { HasWhy cause.old cause.new result }
{
    let Ok(body) = text_of(setup) else {
        return Err(refused(faults, cause, Error::Utf8Error(0)));
    };
    make_ready(conn, has_tables, faults, cause)?;
    match add_setup(conn, body) {
        Ok(_) => Ok(()),
        Err(error) => Err(refused(faults, cause, error)),
    }
}

/// Commits over the parts of a keeper.
fn commit_parts<S: Alter>(
    conn: &mut Connection<S>,
    has_tables: &mut bool,
    faults: &mut u64,
    cause: &mut Option<Error>,
    change: &Change,
) -> Result<(), KeepFault>
    ensures told { KeeperTells S.Store has_tables.old conn.old → KeeperTells S.Store has_tables.new conn.new }
    ensures ok { KeeperTells S.Store has_tables.old conn.old → IsNewChange (rows_in S.Store conn.old) change.now → OnOk result (rows_in S.Store conn.new ≡ with_change (rows_in S.Store conn.old) change.now) }
    ensures err { KeeperTells S.Store has_tables.old conn.old → OnErr result (rows_in S.Store conn.new ≡ rows_in S.Store conn.old) }
    ensures fresh { KeeperTells S.Store has_tables.old conn.old → OnOk result (IsNewChange (rows_in S.Store conn.old) change.now) }
    ensures cause { HasFaultCause faults.old faults.new result }
    ensures why { HasWhy cause.old cause.new result }
{
    make_ready(conn, has_tables, faults, cause)?;
    match add_change(conn, change) {
        Ok(()) => Ok(()),
        Err(error) => Err(refused(faults, cause, error)),
    }
}

/// A keeper over six tables in any store of the database.
///
/// It makes the tables that are not there at its first call; where that is refused the call is refused, and
/// the next one tries again. Want of memory is [`KeepFault::NoMemory`]. Each other refusal of the database is
/// counted as a fault, and the last one is kept as the cause: a failing disk, a full one, damage, tables of another
/// shape, a key that is kept, a text that is not UTF-8. A refused call changes nothing.
///
/// It tells its rows where each state of its type of store is sure, as of a store in memory, and where the
/// tables are the six, or the first few of them, or none.
pub struct SqlKeeper<S: Alter> {
    conn: Connection<S>,
    has_tables: bool,
    faults: u64,
    cause: Option<Error>,
}

impl<S: Alter + Drop> Drop for SqlKeeper<S> {
    fn drop(self) {
        let SqlKeeper {
            conn: _,
            has_tables: _,
            faults: _,
            cause: _,
        } = self;
    }
}

impl<S: Alter + Drop> SqlKeeper<S> {
    /// A keeper of what the connection holds, which is in no transaction. It has no fault yet.
    pub fn over(_: Global, connection: Connection<S>) -> SqlKeeper<S>
        requires { connection.in_transaction ≡ false }
        ensures told { IsSure S.Store → IsOurs connection.schema → KeeperTells S.Store result.has_tables result.conn }
        ensures same { result.conn ≡ connection }
        ensures none { result.faults ≡ 0 }
        ensures quiet { result.cause ≡ None }
    {
        let _ = connection.is_autocommit();
        let _ = connection.schema();
        SqlKeeper {
            conn: connection,
            has_tables: false,
            faults: 0,
            cause: None,
        }
    }

    /// The last refusal of the database that was counted as a fault: none before the first.
    pub fn cause(&self) -> Option<Error>
        ensures { result ≡ self.now.cause }
    {
        self.cause
    }

    /// Gives the connection back.
    pub fn into_connection(self) -> Connection<S>
        ensures { result ≡ self.conn }
    {
        let SqlKeeper {
            conn,
            has_tables: _,
            faults: _,
            cause: _,
        } = self;
        conn
    }
}

impl<S: Alter> Keeper for SqlKeeper<S> {
    ghost tells = { λ keeper. KeeperTells S.Store keeper.has_tables keeper.conn };

    ghost rows = { λ keeper. rows_in S.Store keeper.conn };

    ghost faults = { λ keeper. keeper.faults };

    fn load(&mut self, alloc: Global) -> Result<Rows, KeepFault>
        ensures told { KeeperTells S.Store self.old.has_tables self.old.conn → KeeperTells S.Store self.new.has_tables self.new.conn }
        ensures same { KeeperTells S.Store self.old.has_tables self.old.conn → rows_in S.Store self.new.conn ≡ rows_in S.Store self.old.conn }
        ensures loaded { KeeperTells S.Store self.old.has_tables self.old.conn → IfOk result (λ loaded. loaded ≡ rows_in S.Store self.old.conn) }
        ensures cause { HasFaultCause self.old.faults self.new.faults result }

        // The refusal behind a fault is kept.
        ensures why { HasWhy self.old.cause self.new.cause result }

        // Each list of the rows rises by its key.
        ensures rising { KeeperTells S.Store self.old.has_tables self.old.conn → IfOk result RowsRise }
    {
        load_parts(
            alloc,
            &mut self.conn,
            &mut self.has_tables,
            &mut self.faults,
            &mut self.cause,
        )
    }

    fn begin(&mut self, setup: &Word) -> Result<(), KeepFault>
        requires ascii { IsAscii setup.now }
        ensures told { KeeperTells S.Store self.old.has_tables self.old.conn → KeeperTells S.Store self.new.has_tables self.new.conn }
        ensures ok { KeeperTells S.Store self.old.has_tables self.old.conn → (rows_in S.Store self.old.conn).setup ≡ None → OnOk result (rows_in S.Store self.new.conn ≡ with_setup (rows_in S.Store self.old.conn) setup.now) }
        ensures err { KeeperTells S.Store self.old.has_tables self.old.conn → OnErr result (rows_in S.Store self.new.conn ≡ rows_in S.Store self.old.conn) }
        ensures cause { HasFaultCause self.old.faults self.new.faults result }

        // The refusal behind a fault is kept.
        ensures why { HasWhy self.old.cause self.new.cause result }

        // A second setup is refused.
        ensures fresh { KeeperTells S.Store self.old.has_tables self.old.conn → OnOk result ((rows_in S.Store self.old.conn).setup ≡ None) }
    {
        begin_parts(
            &mut self.conn,
            &mut self.has_tables,
            &mut self.faults,
            &mut self.cause,
            setup,
        )
    }

    fn commit(&mut self, change: &Change) -> Result<(), KeepFault>
        requires ascii { IsAsciiChange change.now }
        ensures told { KeeperTells S.Store self.old.has_tables self.old.conn → KeeperTells S.Store self.new.has_tables self.new.conn }
        ensures ok { KeeperTells S.Store self.old.has_tables self.old.conn → IsNewChange (rows_in S.Store self.old.conn) change.now → OnOk result (rows_in S.Store self.new.conn ≡ with_change (rows_in S.Store self.old.conn) change.now) }
        ensures err { KeeperTells S.Store self.old.has_tables self.old.conn → OnErr result (rows_in S.Store self.new.conn ≡ rows_in S.Store self.old.conn) }
        ensures cause { HasFaultCause self.old.faults self.new.faults result }

        // The refusal behind a fault is kept.
        ensures why { HasWhy self.old.cause self.new.cause result }

        // A key that is kept is refused.
        ensures fresh { KeeperTells S.Store self.old.has_tables self.old.conn → OnOk result (IsNewChange (rows_in S.Store self.old.conn) change.now) }
    {
        commit_parts(
            &mut self.conn,
            &mut self.has_tables,
            &mut self.faults,
            &mut self.cause,
            change,
        )
    }
}
