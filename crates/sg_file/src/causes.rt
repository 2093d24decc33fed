//! Why a call over `office.db` failed.
ghost use Rattle.std.specs.Prelude.{◌≡◌, ◌↔◌, ◌⊎◌};
ghost use Rattle.std.specs.IoError.{error_kind};

use sqlite::{Constraint, Error, ErrorCode};
use std::fmt;
use std::io::{self, ErrorKind};

/// Of which kind a cause is.
#[derive(Clone, Copy, Debug, PartialEq, Eq)]
pub enum Trouble {
    /// No office is set up in the folder, and the call sets none up.
    Missing,
    /// The log is there without the file that it belongs to.
    Orphaned,
    /// Another program has the file open.
    InUse,
    /// The system does not let the program read or write it.
    Forbidden,
    /// Its disk has no room left.
    Full,
    /// It is no database, or its tables are not the office's.
    Foreign,
    /// Some of it is not as it was written.
    Damaged,
    /// An earlier sync or write failed, and nothing is written any more until the file is opened again.
    Shut,
    /// Any other.
    Other,
}

impl Trouble {
    /// What is wrong.
    fn text(self) -> &'static str {
        match self {
            Trouble::Missing => "no office is set up here: office.db is missing or empty",
            Trouble::Orphaned => "office.db-wal is here without office.db, to which it belongs",
            Trouble::InUse => "another program has office.db open",
            Trouble::Forbidden => "office.db may not be read and written",
            Trouble::Full => "the disk of office.db is full",
            Trouble::Foreign => "office.db is not the database of an office",
            Trouble::Damaged => "office.db is damaged",
            Trouble::Shut => "office.db was shut when a write or a sync failed",
            Trouble::Other => "office.db could not be read or written",
        }
    }

    /// What to do about an act that could not be kept.
    pub(crate) fn advice(self) -> &'static str {
        match self {
            Trouble::Missing => "Asking again does not help before an office is set up",
            Trouble::Orphaned => "Asking again does not help before office.db is put back",
            Trouble::InUse => "When the other program has ended, send the very same ask again",
            Trouble::Forbidden => "When it may be read and written, send the very same ask again",
            Trouble::Full => "When there is room, send the very same ask again",
            Trouble::Foreign | Trouble::Damaged => {
                "Asking again does not help: stop the program, and restore office.db and office.db-wal"
            }
            Trouble::Shut => {
                "Asking again does not help until the program is started again; then send the very same ask again"
            }
            Trouble::Other => {
                "Send the very same ask again; where it fails again, start the program again first"
            }
        }
    }
}

/// Who said what is told behind the kind.
#[derive(Clone, Copy)]
enum Said {
    /// Nobody: the kind says it all.
    Nothing,
    /// The database.
    Database(Error),
    /// The system.
    System(io::Error),
}

/// Why a call failed: its kind, and what the database or the system said.
#[derive(Clone, Copy)]
pub struct Cause {
    trouble: Trouble,
    said: Said,
}

impl Cause {
    /// A cause of which nobody said more than its kind.
    pub(crate) fn plain(trouble: Trouble) -> Cause
        ensures { result.trouble ≡ trouble }
    {
        Cause {
            trouble,
            said: Said::Nothing,
        }
    }

    /// A refusal of the database.
    pub fn of_database(error: Error) -> Cause
        ensures in_use { (result.trouble ≡ Trouble.InUse) ↔ (error ≡ Error.SqliteFailure ErrorCode.DatabaseBusy) }
        ensures full { (result.trouble ≡ Trouble.Full) ↔ (error ≡ Error.SqliteFailure ErrorCode.DiskFull) }
        ensures damaged { (result.trouble ≡ Trouble.Damaged) ↔ (error ≡ Error.SqliteFailure ErrorCode.DatabaseCorrupt) }
        ensures shut { (result.trouble ≡ Trouble.Shut) ↔ (error ≡ Error.SqliteFailure ErrorCode.Closed) }
    {
        Cause {
            trouble: trouble_of(&error),
            said: Said::Database(error),
        }
    }

    /// An error of the system.
    pub fn of_system(error: io::Error) -> Cause
        ensures forbidden { (result.trouble ≡ Trouble.Forbidden) ↔ ((error_kind error ≡ ErrorKind.PermissionDenied) ⊎ (error_kind error ≡ ErrorKind.ReadOnlyFilesystem)) }
        ensures full { (result.trouble ≡ Trouble.Full) ↔ ((error_kind error ≡ ErrorKind.StorageFull) ⊎ (error_kind error ≡ ErrorKind.QuotaExceeded)) }
    {
        Cause {
            trouble: trouble_by(error.kind()),
            said: Said::System(error),
        }
    }

    /// Of which kind it is.
    pub fn trouble(&self) -> Trouble
        ensures { result ≡ self.now.trouble }
    {
        self.trouble
    }
}

impl fmt::Display for Cause {
    fn fmt<W: fmt::Write>(&self, f: &mut fmt::Formatter<W>) -> fmt::Result {
        let text = self.trouble.text();
        match &self.said {
            Said::Nothing => f.write_str(text),
            Said::Database(error) => write!(f, "{text}: {error}"),
            Said::System(error) => write!(f, "{text}: {error}"),
        }
    }
}

/// The kind of a refusal of the database.
fn trouble_of(error: &Error) -> Trouble
    ensures in_use { (result ≡ Trouble.InUse) ↔ (error.now ≡ Error.SqliteFailure ErrorCode.DatabaseBusy) }
    ensures full { (result ≡ Trouble.Full) ↔ (error.now ≡ Error.SqliteFailure ErrorCode.DiskFull) }
    ensures damaged { (result ≡ Trouble.Damaged) ↔ (error.now ≡ Error.SqliteFailure ErrorCode.DatabaseCorrupt) }
    ensures shut { (result ≡ Trouble.Shut) ↔ (error.now ≡ Error.SqliteFailure ErrorCode.Closed) }
{
    match error {
        Error::SqliteFailure(code) => trouble_behind(code),
        _ => Trouble::Foreign,
    }
}

/// The kind of a refusal with a code. Each statement of the keeper fits its own tables, and each row the rules of these: where
/// one is refused for a rule and not for a key that is kept, the tables are others.
fn trouble_behind(code: &ErrorCode) -> Trouble
    ensures in_use { (result ≡ Trouble.InUse) ↔ (code.now ≡ ErrorCode.DatabaseBusy) }
    ensures full { (result ≡ Trouble.Full) ↔ (code.now ≡ ErrorCode.DiskFull) }
    ensures damaged { (result ≡ Trouble.Damaged) ↔ (code.now ≡ ErrorCode.DatabaseCorrupt) }
    ensures shut { (result ≡ Trouble.Shut) ↔ (code.now ≡ ErrorCode.Closed) }
{
    match code {
        ErrorCode::DatabaseBusy => Trouble::InUse,
        ErrorCode::DiskFull => Trouble::Full,
        ErrorCode::DatabaseCorrupt => Trouble::Damaged,
        ErrorCode::Closed => Trouble::Shut,
        ErrorCode::ConstraintViolation(Constraint::PrimaryKey | Constraint::Unique) => {
            Trouble::Other
        }
        ErrorCode::OutOfMemory
        | ErrorCode::SystemIoFailure
        | ErrorCode::CannotOpen
        | ErrorCode::TooBig
        | ErrorCode::TransactionState
        | ErrorCode::OperationInterrupted => Trouble::Other,
        _ => Trouble::Foreign,
    }
}

/// The kind of an error of the system.
fn trouble_by(kind: ErrorKind) -> Trouble
    ensures forbidden { (result ≡ Trouble.Forbidden) ↔ ((kind ≡ ErrorKind.PermissionDenied) ⊎ (kind ≡ ErrorKind.ReadOnlyFilesystem)) }
    ensures full { (result ≡ Trouble.Full) ↔ ((kind ≡ ErrorKind.StorageFull) ⊎ (kind ≡ ErrorKind.QuotaExceeded)) }
{
    match kind {
        ErrorKind::PermissionDenied | ErrorKind::ReadOnlyFilesystem => Trouble::Forbidden,
        ErrorKind::StorageFull | ErrorKind::QuotaExceeded => Trouble::Full,
        ErrorKind::IsADirectory => Trouble::Foreign,
        _ => Trouble::Other,
    }
}
