//! Keepers over databases in memory, with given rows.
use crate::fault::Fault;
use crate::rows::writing::{STATEMENTS, put_rows};
use sg_keeper::{Keeper, Rows};
use sg_store::SqlKeeper;
use sqlite::{Connection, MemStore};
use std::alloc::Global;

/// A keeper over a database in memory.
pub(crate) type Database = SqlKeeper<MemStore>;

/// The statements that add these rows.
pub(crate) fn statements_of(alloc: Global, rows: &Rows) -> Result<Vec<u8>, Fault> {
    let mut text = Vec::new(alloc);
    put_rows(&STATEMENTS, rows, &mut text)?;
    Ok(text)
}

/// A keeper over what a connection holds, outside a transaction.
fn keeper_over(alloc: Global, connection: Connection<MemStore>) -> Result<Database, Fault> {
    if connection.is_autocommit() {
        Ok(SqlKeeper::over(alloc, connection))
    } else {
        Err(Fault::Case)
    }
}

/// Has the keeper make its tables, as its first call does.
fn make_tables(alloc: Global, keeper: &mut Database) -> Result<(), Fault> {
    keeper.load(alloc)?;
    Ok(())
}

/// A connection to a new database in memory, with the tables of a keeper and no rows.
fn empty_connection(alloc: Global) -> Result<Connection<MemStore>, Fault> {
    let mut keeper = keeper_over(alloc, Connection::open_in_memory(alloc)?)?;
    make_tables(alloc, &mut keeper)?;
    Ok(keeper.into_connection())
}

/// Runs the statements.
fn run_all(connection: &mut Connection<MemStore>, statements: &str) -> Result<(), Fault> {
    match connection.execute_batch(statements) {
        Ok(()) => Ok(()),
        Err(_) => Err(Fault::Case),
    }
}

/// A keeper over a new database in memory that these statements fill.
pub(crate) fn database_of(alloc: Global, statements: &str) -> Result<Database, Fault> {
    let mut connection = empty_connection(alloc)?;
    run_all(&mut connection, statements)?;
    keeper_over(alloc, connection)
}
