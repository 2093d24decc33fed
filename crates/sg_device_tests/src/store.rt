//! What no clause says: that calls succeed, what outlives a close, and that other databases and failing disks are
//! met as faults.
use crate::changes::{ballot, keep, keep_all};
use crate::trials::{Trial, holds, holds_of};
use sg_keeper::{KeepFault, Keeper};
use sg_store::SqlKeeper;
use sqlite::{Alter, Connection, FileStore, Files, MemStore, Options};
use sqlite_disk::{Disk, Fuse, Memory};
use std::alloc::Global;
use std::test::Fail;

/// A keeper over what a connection holds, outside a transaction.
fn keeper_of<S: Alter + Drop>(alloc: Global, connection: Connection<S>) -> Option<SqlKeeper<S>> {
    if connection.is_autocommit() {
        Some(SqlKeeper::over(alloc, connection))
    } else {
        None
    }
}

/// A keeper over a database in memory that this text makes.
fn made_by(alloc: Global, text: &str) -> Result<SqlKeeper<MemStore>, Fail> {
    let mut connection = Connection::open_in_memory(alloc)?;
    connection.execute_batch(text)?;
    match keeper_of(alloc, connection) {
        Some(keeper) => Ok(keeper),
        None => Err(Fail::new("a transaction is open")),
    }
}

/// This holds of such a keeper.
fn holds_in_memory(alloc: Global, text: &str, trial: Trial) -> Result<bool, Fail> {
    let keeper = made_by(alloc, text)?;
    holds_of(alloc, keeper, trial)
}

#[test]
fn kept_keys_are_refused(rt: HostRuntime) -> Result<(), Fail> {
    assert!(rt; holds_in_memory(rt.alloc(), "", Trial::Keys)?);
    Ok(())
}

/// What an older program made: five tables, with a setup and a scan.
const FIVE_TABLES: &str = "
CREATE TABLE setup (id INTEGER PRIMARY KEY CHECK (id = 1), body TEXT NOT NULL) STRICT;
CREATE TABLE ballot (number INTEGER PRIMARY KEY, fate INTEGER NOT NULL, detail TEXT NOT NULL) STRICT;
CREATE TABLE stage (step INTEGER PRIMARY KEY, detail TEXT NOT NULL) STRICT;
CREATE TABLE claim (number INTEGER PRIMARY KEY, ballot INTEGER NOT NULL, race INTEGER NOT NULL, code INTEGER NOT NULL) STRICT;
CREATE TABLE done (station INTEGER NOT NULL, number INTEGER NOT NULL, act TEXT NOT NULL, PRIMARY KEY (station, number)) STRICT;
INSERT INTO setup (id, body) VALUES (1, 'setup');
INSERT INTO ballot (number, fate, detail) VALUES (7, 1, '0:0');
INSERT INTO done (station, number, act) VALUES (1, 5, 'scan 7 0:0');";

#[test]
fn five_tables_get_the_sixth(rt: HostRuntime) -> Result<(), Fail> {
    assert!(rt; holds_in_memory(rt.alloc(), FIVE_TABLES, Trial::Void)?);
    Ok(())
}

#[test]
fn other_databases_are_faults(rt: HostRuntime) -> Result<(), Fail> {
    for text in [
        "CREATE TABLE ballot (number TEXT PRIMARY KEY) STRICT",
        "CREATE TABLE done (station INTEGER, number INTEGER, act INTEGER); INSERT INTO done VALUES (1, 2, 3)",
        "CREATE TABLE setup (id INTEGER PRIMARY KEY, body TEXT); INSERT INTO setup VALUES (1, CAST(x'ff' AS TEXT))",
    ] {
        assert!(rt; holds_in_memory(rt.alloc(), text, Trial::Faults)?, "{text}");
    }
    Ok(())
}

/// A keeper over two files, unless they cannot be opened.
fn opened<D: Disk + Drop>(alloc: Global, files: Files<D>) -> Option<SqlKeeper<FileStore<D>>> {
    if !files.may_be_used() {
        return None;
    }
    match Connection::open_files(alloc, files, Options::new(1)) {
        Ok(connection) => keeper_of(alloc, connection),
        Err(_) => None,
    }
}

/// The files of a keeper, closed.
fn closed<D: Disk + Drop>(keeper: SqlKeeper<FileStore<D>>) -> Option<Files<D>> {
    let connection = keeper.into_connection();
    match connection.close_files() {
        Ok(files) => Some(files),
        Err((error, store)) => {
            drop(store.close());
            drop(error);
            None
        }
    }
}

/// The files, filled by a keeper with the rows of the test and closed. `None`: they cannot be opened or closed.
fn filled<D: Disk + Drop>(alloc: Global, files: Files<D>) -> Result<Option<Files<D>>, Fail> {
    match opened(alloc, files) {
        Some(keeper) => filled_by(alloc, keeper),
        None => Ok(None),
    }
}

/// The files of a keeper that fills them.
fn filled_by<D: Disk + Drop>(
    alloc: Global,
    keeper: SqlKeeper<FileStore<D>>,
) -> Result<Option<Files<D>>, Fail> {
    let mut keeper = keeper;
    let kept = keep_all(alloc, &mut keeper);
    let files = closed(keeper);
    match kept {
        Ok(()) => Ok(files),
        Err(fail) => Err(fail),
    }
}

/// Two files that a keeper filled with the rows of the test, closed.
fn filled_files(alloc: Global) -> Result<Files<Memory>, Fail> {
    let new = Files {
        log: Memory::new(alloc),
        db: Memory::new(alloc),
    };
    match filled(alloc, new)? {
        Some(files) => Ok(files),
        None => Err(Fail::new("the files cannot be opened or closed")),
    }
}

/// This holds of a keeper over two files.
fn holds_in_files<D: Disk + Drop>(
    alloc: Global,
    files: Files<D>,
    trial: Trial,
) -> Result<bool, Fail> {
    match opened(alloc, files) {
        Some(keeper) => holds_of(alloc, keeper, trial),
        None => Err(Fail::new("the files cannot be opened")),
    }
}

#[test]
fn rows_outlive_a_close(rt: HostRuntime) -> Result<(), Fail> {
    let files = filled_files(rt.alloc())?;
    assert!(rt; holds_in_files(rt.alloc(), files, Trial::Filled)?);
    Ok(())
}

/// How many of two more ballots are kept, up to a refusal. Each refusal is a fault.
fn kept<K: Keeper>(alloc: Global, keeper: &mut K) -> Result<usize, Fail> {
    for number in 0..2u8 {
        let change = ballot(alloc, 10 + i64::from(number), (9, i64::from(number)))?;
        match keep(keeper, change) {
            Ok(()) => {}
            Err(KeepFault::Failed) => return Ok(usize::from(number)),
            Err(KeepFault::NoMemory) => return Err(Fail::new("want of memory")),
        }
    }
    Ok(2)
}

/// How many of two more ballots a keeper keeps that has just these rows then.
fn kept_and_had<K: Keeper>(alloc: Global, keeper: &mut K) -> Result<usize, Fail> {
    let count = kept(alloc, keeper)?;
    if holds(alloc, keeper, Trial::More(count, count))? {
        Ok(count)
    } else {
        Err(Fail::new("rows are not as before"))
    }
}

/// A file with the bytes of this one.
fn copy_of(alloc: Global, file: &Memory) -> Result<Memory, Fail> {
    let mut copy = Memory::new(alloc);
    copy.write_at(0, file.bytes())?;
    Ok(copy)
}

/// Files with the bytes of these.
fn copies_of(alloc: Global, log: &Memory, db: &Memory) -> Result<Files<Memory>, Fail> {
    let log = copy_of(alloc, log)?;
    let db = copy_of(alloc, db)?;
    Ok(Files { log, db })
}

/// The files, of which the log fails behind so many calls, and the database behind so many.
fn fused(files: Files<Memory>, calls: (u64, u64)) -> Files<Fuse<Memory>> {
    Files {
        log: Fuse::new(files.log, calls.0),
        db: Fuse::new(files.db, calls.1),
    }
}

/// The files hold so many more ballots, and perhaps the change that was refused as a whole.
fn is_whole(alloc: Global, files: &Files<Fuse<Memory>>, count: usize) -> Result<bool, Fail> {
    let copies = copies_of(alloc, files.log.inner(), files.db.inner())?;
    let trial = Trial::More(count, count.saturating_add(1));
    holds_in_files(alloc, copies, trial)
}

/// So many more ballots, which the files hold too.
fn held_too(alloc: Global, files: &Files<Fuse<Memory>>, count: usize) -> Result<usize, Fail> {
    if is_whole(alloc, files, count)? {
        Ok(count)
    } else {
        Err(Fail::new("rows are lost, or there by half"))
    }
}

/// The files of a keeper as they are.
fn files_of<D: Disk + Drop>(keeper: SqlKeeper<FileStore<D>>) -> Files<D> {
    keeper.into_connection().into_store().close()
}

/// How many of two more ballots a keeper keeps, and its files behind that.
fn kept_by<D: Disk + Drop>(
    alloc: Global,
    keeper: SqlKeeper<FileStore<D>>,
) -> Result<(usize, Files<D>), Fail> {
    let mut keeper = keeper;
    let kept = kept_and_had(alloc, &mut keeper);
    let files = files_of(keeper);
    match kept {
        Ok(count) => Ok((count, files)),
        Err(fail) => Err(fail),
    }
}

/// How many of two ballots a keeper over failing copies of the files keeps: none where it cannot be opened. It has just
/// the rows that it kept; and so has one over what the copies hold, but that the change which was refused may be there
/// as a whole.
fn kept_by_failing(alloc: Global, files: &Files<Memory>, calls: (u64, u64)) -> Result<usize, Fail> {
    let copies = copies_of(alloc, &files.log, &files.db)?;
    match opened(alloc, fused(copies, calls)) {
        Some(keeper) => {
            let (count, files) = kept_by(alloc, keeper)?;
            held_too(alloc, &files, count)
        }
        None => Ok(0),
    }
}

/// More calls than any of the files gets.
const ENOUGH: u64 = 1_000_000;

/// How many calls of the log, or of the database file, may come before the first that fails.
fn limits(is_log: bool, calls: u64) -> (u64, u64) {
    if is_log {
        (calls, ENOUGH)
    } else {
        (ENOUGH, calls)
    }
}

/// Behind so many calls of the log, or of the database file, no change is refused, and behind fewer one is.
fn calls_of(alloc: Global, files: &Files<Memory>, is_log: bool) -> Result<u64, Fail> {
    for calls in 0..100 {
        if kept_by_failing(alloc, files, limits(is_log, calls))? == 2 {
            return Ok(calls);
        }
    }
    Err(Fail::new("a change is refused behind 100 calls"))
}

#[test]
fn each_call_of_the_disk_fails_in_turn(rt: HostRuntime) -> Result<(), Fail> {
    let files = filled_files(rt.alloc())?;
    assert!(rt; calls_of(rt.alloc(), &files, true)? > 0);
    assert!(rt; calls_of(rt.alloc(), &files, false)? > 0);
    Ok(())
}
