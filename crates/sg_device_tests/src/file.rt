//! What no clause says of the keeper over the file: what lies in the folder behind each call, and which cause is told.
ghost use Rattle.std.specs.Prelude.{IfOk};
ghost use Rattle.sg_keeper.specs.Rows.{IsAscii, IsAsciiChange};

use sg_file::{Cause, FileKeeper, Trouble};
use sg_keeper::{BallotRow, Change, ChangeRow, DoneRow, KeepFault, Keeper};
use sg_plan::{NoMemory, Word};
use sqlite::{Connection, Constraint, Error, ErrorCode};
use std::alloc::Global;
use std::io::ErrorKind;
use std::os::unix::fs::{FileExt, MetadataExt};
use std::path::PathBuf;
use std::process::Abort;
use std::test::Fail;
use std::{env, fs, process};

/// A word of one byte.
fn word(alloc: Global) -> Result<Word, NoMemory>
    ensures { IfOk result IsAscii }
{
    let mut word = Word::new(alloc);
    word.push(b'x')?;
    Ok(word)
}

/// What a scan of ballot 7 adds.
fn scan(alloc: Global) -> Result<Change, NoMemory>
    ensures { IfOk result IsAsciiChange }
{
    let detail = word(alloc)?;
    let act = word(alloc)?;
    Ok(Change {
        row: ChangeRow::Ballot(BallotRow {
            ballot: 7,
            fate: 1,
            detail,
        }),
        done: DoneRow {
            station: 1,
            number: 5,
            act,
        },
    })
}

/// How many names the current folder has.
fn names_here(rt: &HostRuntime) -> Result<usize, Fail> {
    Ok(fs::read_dir(rt, ".")?.count())
}

/// The kind of the cause of the keeper's last failure.
fn trouble(keeper: &FileKeeper) -> Option<Trouble> {
    keeper.cause().map(Cause::trouble)
}

/// Keeps the setup of an office.
fn begin(rt: &HostRuntime, keeper: &mut FileKeeper) -> Result<(), KeepFault> {
    let setup = word(rt.alloc())?;
    let begun = keeper.begin(&setup);
    drop(setup);
    begun
}

/// Keeps a scan.
fn commit(rt: &HostRuntime, keeper: &mut FileKeeper) -> Result<(), KeepFault> {
    let scan = scan(rt.alloc())?;
    let kept = keeper.commit(&scan);
    drop(scan);
    kept
}

/// How many setups, scans and acts the keeper loads.
fn load(rt: &HostRuntime, keeper: &mut FileKeeper) -> Result<[usize; 3], KeepFault> {
    let rows = keeper.load(rt.alloc())?;
    let setups = usize::from(rows.setup.is_some());
    let counts = [setups, rows.ballots.len(), rows.dones.len()];
    drop(rows);
    Ok(counts)
}

/// What a keeper of its own loads, and the cause where it fails.
fn loaded(rt: &HostRuntime) -> (Result<[usize; 3], KeepFault>, Option<Trouble>) {
    let mut keeper = FileKeeper::new(rt);
    let counts = load(rt, &mut keeper);
    let trouble = trouble(&keeper);
    drop(keeper);
    (counts, trouble)
}

/// Another keeper loads the setup, and the two rows of the scan.
fn is_loaded(rt: &HostRuntime) -> bool {
    loaded(rt).0 == Ok([1, 1, 1])
}

/// Another keeper loads nothing for this cause.
fn is_refused(rt: &HostRuntime, trouble: Trouble) -> bool {
    loaded(rt) == (Err(KeepFault::Failed), Some(trouble))
}

/// There is no office, and the keeper refuses a scan.
fn misses_the_office(rt: &HostRuntime, keeper: &mut FileKeeper) -> bool {
    let is_empty = load(rt, keeper) == Ok([0, 0, 0]);
    let is_refused = commit(rt, keeper) == Err(KeepFault::Failed);
    let is_missing = trouble(keeper) == Some(Trouble::Missing);
    [is_empty, is_refused, is_missing] == [true; 3]
}

/// A folder without an office stays as it is, but where one begins.
fn stays_empty(rt: &HostRuntime) -> Result<bool, Fail> {
    let mut keeper = FileKeeper::new(rt);
    let misses = misses_the_office(rt, &mut keeper);
    drop(keeper);
    Ok(misses && names_here(rt)? == 0)
}

/// An empty file stays as it is, too.
fn stays_blank(rt: &HostRuntime) -> Result<bool, Fail> {
    fs::write(rt, "office.db", b"")?;
    let is_empty = loaded(rt).0 == Ok([0, 0, 0]);
    let stays = names_here(rt)? == 1;
    fs::remove_file(rt, "office.db")?;
    Ok(is_empty && stays)
}

/// The keeper neither loads nor begins over a log without its file.
fn refuses_all(rt: &HostRuntime, keeper: &mut FileKeeper) -> bool {
    let loaded = load(rt, keeper).is_err();
    let begun = begin(rt, keeper).is_err();
    let is_orphaned = trouble(keeper) == Some(Trouble::Orphaned);
    [loaded, begun, is_orphaned] == [true; 3]
}

/// A log without its file is refused, and no file is made beside it.
fn refuses_the_log_alone(rt: &HostRuntime) -> Result<bool, Fail> {
    fs::write(rt, "office.db-wal", b"x")?;
    let mut keeper = FileKeeper::new(rt);
    let refuses = refuses_all(rt, &mut keeper);
    drop(keeper);
    let stays = names_here(rt)? == 1;
    fs::remove_file(rt, "office.db-wal")?;
    Ok(refuses && stays)
}

/// A folder in the file's place is refused, and one that is gone does not matter to the next call.
fn refuses_a_folder(rt: &HostRuntime, keeper: &mut FileKeeper) -> Result<bool, Fail> {
    fs::create_dir(rt, "office.db")?;
    let refused = load(rt, keeper) == Err(KeepFault::Failed);
    fs::remove_dir(rt, "office.db")?;
    let _removed = fs::remove_file(rt, "office.db-wal");
    Ok(refused && trouble(keeper) == Some(Trouble::Foreign))
}

/// The mode of a file here.
fn mode_of(rt: &HostRuntime, name: &str) -> Result<u32, Fail> {
    Ok(fs::metadata(rt, name)?.mode() & 0o777)
}

/// The setup is kept once, and a scan.
fn keeps_once(rt: &HostRuntime, keeper: &mut FileKeeper) -> bool {
    let begun = begin(rt, keeper).is_ok();
    let kept = commit(rt, keeper).is_ok();
    let again = begin(rt, keeper) == Err(KeepFault::Failed);
    let is_other = trouble(keeper) == Some(Trouble::Other);
    [begun, kept, again, is_other] == [true; 4]
}

/// They are kept in files that their owner alone may read. Another keeper is told that they are in use.
fn keeps_alone(rt: &HostRuntime, keeper: &mut FileKeeper) -> Result<bool, Fail> {
    let is_refused_before = refuses_a_folder(rt, keeper)?;
    let is_kept = keeps_once(rt, keeper);
    let modes = [mode_of(rt, "office.db")?, mode_of(rt, "office.db-wal")?];
    let is_in_use = is_refused(rt, Trouble::InUse);
    let found = [is_refused_before, is_kept, is_in_use];
    Ok(found == [true; 3] && modes == [0o600; 2])
}

/// All of it in the current folder, which is empty.
fn keeps(rt: &HostRuntime) -> Result<bool, Fail> {
    let mut keeper = FileKeeper::new(rt);
    let keeps = keeps_alone(rt, &mut keeper);
    drop(keeper);
    Ok(keeps? && is_loaded(rt))
}

/// Changes the lowest bit of a byte of the file.
fn turn(file: &fs::File, at: u64) -> Result<(), Fail> {
    let mut byte = [0];
    file.read_exact_at(&mut byte, at)?;
    byte[0] ^= 1;
    file.write_all_at(&byte, at)?;
    Ok(())
}

/// A changed byte is found where a file has sums of its pages.
fn finds_changed_byte(rt: &HostRuntime, file: &fs::File, at: u64) -> Result<bool, Fail> {
    turn(file, at)?;
    let is_found = is_refused(rt, Trouble::Damaged);
    turn(file, at)?;
    Ok(is_found)
}

/// Changed bytes are found in the head of the file and in each of its first pages.
fn finds_each(rt: &HostRuntime, file: &fs::File) -> Result<bool, Fail> {
    let found = [
        finds_changed_byte(rt, file, 60)?,
        finds_changed_byte(rt, file, 4_100)?,
        finds_changed_byte(rt, file, 8_190)?,
        finds_changed_byte(rt, file, 12_000)?,
    ];
    Ok(found == [true; 4])
}

/// The file has sums of its pages, and changed bytes are found.
fn finds_changed_bytes(rt: &HostRuntime) -> Result<bool, Fail> {
    let file = fs::OpenOptions::new()
        .read(true)
        .write(true)
        .open(rt, "office.db")?;
    let finds = finds_each(rt, &file);
    drop(file);
    Ok(finds? && bytes_for_sums(rt)? == 8 && is_loaded(rt))
}

/// How many bytes of each page of the file are left for its sum.
fn bytes_for_sums(rt: &HostRuntime) -> Result<u8, Fail> {
    let mut byte = [0];
    fs::open(rt, "office.db")?.read_exact_at(&mut byte, 20)?;
    Ok(byte[0])
}

/// A file that was made without sums is an office's all the same, and stays without them.
fn keeps_without_sums(rt: &HostRuntime) -> Result<bool, Fail> {
    fs::remove_file(rt, "office.db")?;
    fs::remove_file(rt, "office.db-wal")?;
    Connection::open(rt, "office.db")?.close()?;
    let mut keeper = FileKeeper::new(rt);
    let is_kept = keeps_once(rt, &mut keeper);
    drop(keeper);
    Ok(is_kept && is_loaded(rt) && bytes_for_sums(rt)? == 0)
}

/// The path of a folder for this process alone.
fn own_folder(rt: &HostRuntime, folder: &PathBuf) -> Result<PathBuf, Fail> {
    let name = format!(in rt.alloc(); "voldkaumi-sg-file-{}", process::id(rt.process()))?;
    let path = folder.join(rt.alloc(), &name);
    drop(name);
    Ok(path?)
}

/// Makes the folder, which is empty then, and goes there. What is found of it behind each call must all be so.
fn found_behind_each_call(rt: &HostRuntime, path: &PathBuf) -> Result<[bool; 6], Fail> {
    let _removed = fs::remove_dir_all(rt, path);
    fs::create_dir(rt, path)?;
    env::set_current_dir(rt, path)?;
    Ok([
        stays_empty(rt)?,
        stays_blank(rt)?,
        refuses_the_log_alone(rt)?,
        keeps(rt)?,
        finds_changed_bytes(rt)?,
        keeps_without_sums(rt)?,
    ])
}

/// The same in a folder of this one, which is gone behind it. The current folder is then this one.
fn found_in(rt: &HostRuntime, folder: &PathBuf) -> Result<[bool; 6], Fail> {
    let path = own_folder(rt, folder)?;
    let found = found_behind_each_call(rt, &path);
    let _left = env::set_current_dir(rt, folder);
    let _removed = fs::remove_dir_all(rt, &path);
    drop(path);
    found
}

#[test]
fn the_folder_behind_each_call(rt: HostRuntime) -> Result<(), Fail> {
    let folder = env::temp_dir(&rt)?;
    let found = found_in(&rt, &folder);
    drop(folder);
    assert!(rt; found? == [true; 6]);
    Ok(())
}

/// Refusals of the database, and what each of them is to an office.
const CODES: [(ErrorCode, Trouble); 8] = [
    (ErrorCode::DatabaseBusy, Trouble::InUse),
    (ErrorCode::DiskFull, Trouble::Full),
    (ErrorCode::NotADatabase, Trouble::Foreign),
    (ErrorCode::DatabaseCorrupt, Trouble::Damaged),
    (ErrorCode::Closed, Trouble::Shut),
    (ErrorCode::SystemIoFailure, Trouble::Other),
    (
        ErrorCode::ConstraintViolation(Constraint::PrimaryKey),
        Trouble::Other,
    ),
    (
        ErrorCode::ConstraintViolation(Constraint::Check),
        Trouble::Foreign,
    ),
];

/// What a refusal is to an office.
fn trouble_of(code: ErrorCode) -> Trouble {
    Cause::of_database(Error::SqliteFailure(code)).trouble()
}

/// Each refusal is what stands beside it.
fn expect_troubles(rt: &impl Abort, cases: &[(ErrorCode, Trouble)]) {
    for (code, trouble) in cases {
        assert!(rt; trouble_of(*code) == *trouble, "{code}");
    }
}

#[test]
fn kinds_of_refusals(rt: HostRuntime) {
    expect_troubles(&rt, &CODES);
}

/// The cause has these words.
fn has_words(alloc: Global, cause: Cause, words: &str) -> Result<bool, Fail> {
    let text = format!(in alloc; "{cause}")?;
    let same = text.as_str() == words;
    drop(text);
    Ok(same)
}

#[test]
fn words_of_causes(rt: HostRuntime) -> Result<(), Fail> {
    let busy = "another program has office.db open: database is locked";
    let shape = "office.db is not the database of an office: the statement returns no rows";
    let denied = "office.db may not be read and written: permission denied";
    let failure = Error::SqliteFailure(ErrorCode::DatabaseBusy);
    let kind = ErrorKind::PermissionDenied;
    let same = [
        has_words(rt.alloc(), Cause::of_database(failure), busy)?,
        has_words(rt.alloc(), Cause::of_database(Error::InvalidQuery), shape)?,
        has_words(rt.alloc(), Cause::of_system(kind.into()), denied)?,
    ];
    assert!(rt; same == [true; 3]);
    Ok(())
}
