//! How a command ends.
ghost use Rattle.std.specs.Prelude.{◌≡◌};
ghost use Rattle.sg_outside.specs.Outcomes.{status_of};

/// How a command ended. What each case says of the input, the rows and the output is said command by command.
#[derive(Clone, Copy, Debug, PartialEq, Eq)]
pub enum Outcome {
    /// The work was done, and the answer, where there is one, is yes.
    Done,
    /// The work was done, and the answer is no.
    No,
    /// A read of the input failed.
    ReadFailed,
    /// A write of the output failed.
    WriteFailed,
    /// The keeper failed.
    KeeperFailed,
    /// The links failed.
    LinksFailed,
    /// What was asked is refused.
    Refused,
    /// What is kept is no office's.
    Damaged,
    /// Memory was wanted and not found.
    NoMemory,
}

impl Outcome {
    /// The status that the program ends with.
    pub fn status(self) -> u8
        ensures { result ≡ status_of self }
    {
        match self {
            Outcome::Done => 0,
            Outcome::No => 1,
            Outcome::ReadFailed => 3,
            Outcome::WriteFailed => 4,
            Outcome::KeeperFailed => 5,
            Outcome::LinksFailed => 6,
            Outcome::Refused => 7,
            Outcome::Damaged => 8,
            Outcome::NoMemory => 9,
        }
    }
}
