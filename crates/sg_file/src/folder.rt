//! What lies in the folder under the names of the office's files, and the file that is made there.
ghost use Rattle.std.specs.Prelude.{◌≡◌, ◌↔◌, ◌⊎◌, None, Some, IsSome};

use std::fs::{self, Files, OpenOptions};
use std::io::{self, ErrorKind};
use std::os::unix::fs::{MetadataExt, OpenOptionsExt};

/// The database.
pub(crate) const FILE: &str = "office.db";

/// Its log.
pub(crate) const LOG: &str = "office.db-wal";

/// The mode of a file that is made: its owner alone reads and writes it.
const PRIVATE: u32 = 0o600;

/// The bits of a mode by which the group or others read or write a file.
const SHARED: u32 = 0o066;

/// What lies in the folder.
#[derive(Clone, Copy, PartialEq, Eq)]
pub(crate) enum Found {
    /// Neither the file nor its log.
    Nothing,
    /// The log alone.
    LogAlone,
    /// A file of no byte, and no log with one.
    Blank,
    /// A file, or something else that has its name.
    File,
}

/// The length of what has the name: none where nothing has it, and a byte where it is no file.
fn length_of<R: Files>(files: &R, name: &str) -> io::Result<Option<u64>> {
    match fs::symlink_metadata(files, name) {
        Ok(found) if found.is_file() => Ok(Some(found.len())),
        Ok(_) => Ok(Some(1)),
        Err(error) if error.kind() == ErrorKind::NotFound => Ok(None),
        Err(error) => Err(error),
    }
}

/// What the lengths of the file and of its log mean.
fn found_by(file: Option<u64>, log: Option<u64>) -> Found
    ensures nothing { (result ≡ Found.Nothing) ↔ ((file ≡ None) × (log ≡ None)) }
    ensures alone { (result ≡ Found.LogAlone) ↔ ((file ≡ None) × IsSome log) }
    ensures blank { (result ≡ Found.Blank) ↔ ((file ≡ Some 0) × ((log ≡ None) ⊎ (log ≡ Some 0))) }
{
    match (file, log) {
        (None, None) => Found::Nothing,
        (None, Some(_)) => Found::LogAlone,
        (Some(0), None | Some(0)) => Found::Blank,
        (Some(_), _) => Found::File,
    }
}

/// Looks what lies in the folder, and changes nothing.
pub(crate) fn look<R: Files>(files: &R) -> io::Result<Found> {
    let file = length_of(files, FILE)?;
    let log = length_of(files, LOG)?;
    Ok(found_by(file, log))
}

/// Makes the file, for its owner alone. One that was made since nothing was found stays as it is.
pub(crate) fn make<R: Files>(files: &R) -> io::Result<()> {
    let made = OpenOptions::new()
        .read(true)
        .write(true)
        .create_new(true)
        .mode(PRIVATE)
        .open(files, FILE);
    match made {
        Ok(_) => Ok(()),
        Err(error) if error.kind() == ErrorKind::AlreadyExists => Ok(()),
        Err(error) => Err(error),
    }
}

/// What the system says where the file, or its log, is opened. A log that is missing is made, as the database does.
fn try_both<R: Files>(files: &R) -> io::Result<()> {
    OpenOptions::new().read(true).write(true).open(files, FILE)?;
    OpenOptions::new()
        .read(true)
        .write(true)
        .create(true)
        .mode(PRIVATE)
        .open(files, LOG)?;
    Ok(())
}

/// Why the system refuses the files, where the database only says that it could not open them.
pub(crate) fn refusal<R: Files>(files: &R) -> Option<io::Error> {
    try_both(files).err()
}

/// The group or others may read or write what has the name.
fn is_open_to_others<R: Files>(files: &R, name: &str) -> bool {
    match fs::metadata(files, name) {
        Ok(found) => found.mode() & SHARED != 0,
        Err(_) => false,
    }
}

/// The group or others may read or write the file or its log.
pub(crate) fn is_shared<R: Files>(files: &R) -> bool {
    is_open_to_others(files, FILE) || is_open_to_others(files, LOG)
}
