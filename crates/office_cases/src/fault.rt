//! Why cases were not played to their end.
ghost use Rattle.std.specs.Prelude.{◌≡◌};

use sg_keeper::KeepFault;
use std::alloc::{AllocError, AllocFailed};
use std::{fmt, io};

/// Why cases were not played to their end.
#[derive(Debug, Drop)]
pub(crate) enum Fault {
    /// An input has not the form that its reader tells.
    Input,
    /// What a case begins with cannot be made: a keeper of these rows.
    Case,
    /// A file was not read, the output or a load of rows failed, or memory was wanted.
    Outside,
}

impl Fault {
    /// The status that the program ends with where this came.
    pub(crate) fn status(&self) -> u8
        ensures input { self.now ≡ Fault.Input → result ≡ 2 }
        ensures case { self.now ≡ Fault.Case → result ≡ 4 }
        ensures outside { self.now ≡ Fault.Outside → result ≡ 9 }
    {
        match self {
            Fault::Input => 2,
            Fault::Case => 4,
            Fault::Outside => 9,
        }
    }
}

impl From<sg_plan::NoMemory> for Fault {
    fn from(_: sg_plan::NoMemory) -> Fault {
        Fault::Outside
    }
}

impl From<sg_outside::NoMemory> for Fault {
    fn from(_: sg_outside::NoMemory) -> Fault {
        Fault::Outside
    }
}

impl From<KeepFault> for Fault {
    fn from(_: KeepFault) -> Fault {
        Fault::Outside
    }
}

impl From<AllocError> for Fault {
    fn from(_: AllocError) -> Fault {
        Fault::Outside
    }
}

impl<T: Drop> From<AllocFailed<T>> for Fault {
    fn from(_: AllocFailed<T>) -> Fault {
        Fault::Outside
    }
}

impl From<fmt::Error> for Fault {
    fn from(_: fmt::Error) -> Fault {
        Fault::Outside
    }
}

impl From<io::Error> for Fault {
    fn from(_: io::Error) -> Fault {
        Fault::Outside
    }
}
