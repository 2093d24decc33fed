//! What stops a work.
use sg_office::OpenFault;
use sg_plan::NoMemory;
use std::alloc::AllocError;
use std::{fmt, io};

/// What stops a work.
#[derive(Debug, Drop)]
pub(crate) enum Stop {
    /// A setup or a plan does not keep its limits, or a story does not fit its plan.
    Plan,
    /// The rows are no office's.
    Rows,
    /// A line of the record may not stand where it does, or was written as other bytes.
    Line,
    /// There is no memory.
    NoMemory,
    /// The input, the output or the clock failed.
    Outside,
}

impl From<NoMemory> for Stop {
    fn from(_: NoMemory) -> Stop {
        Stop::NoMemory
    }
}

impl From<sg_outside::NoMemory> for Stop {
    fn from(_: sg_outside::NoMemory) -> Stop {
        Stop::NoMemory
    }
}

impl From<AllocError> for Stop {
    fn from(_: AllocError) -> Stop {
        Stop::NoMemory
    }
}

impl From<fmt::Error> for Stop {
    fn from(_: fmt::Error) -> Stop {
        Stop::NoMemory
    }
}

impl From<OpenFault> for Stop {
    fn from(fault: OpenFault) -> Stop {
        match fault {
            OpenFault::NoMemory => Stop::NoMemory,
            _ => Stop::Rows,
        }
    }
}

impl From<io::Error> for Stop {
    fn from(error: io::Error) -> Stop {
        match error.kind() {
            io::ErrorKind::OutOfMemory => Stop::NoMemory,
            _ => Stop::Outside,
        }
    }
}
