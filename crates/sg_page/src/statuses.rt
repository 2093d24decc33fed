//! The statuses of the calls that take memory: those of the auditor's commands.

/// What was asked for was done; of an audit, the verdict is yes.
pub(crate) const DONE: u32 = 0;

/// The verdict is no.
pub(crate) const NO: u32 = 1;

/// The room that was given is too short.
pub(crate) const NO_ROOM: u32 = 4;

/// Memory was wanted and not found.
pub(crate) const WANT_OF_MEMORY: u32 = 9;
