//! How a talk of the office ends, and the lines that it writes.
ghost use Rattle.std.specs.Prelude.{◌≡◌, ◌≤◌, IfOk};
ghost use Rattle.sg_talk.specs.Answers.{IsWritable};
ghost use Rattle.sg_clerk.specs.Ends.{Refuses, WroteLine, answer_line, outcome_of, refused_line};

use sg_outside::{Failed, Outcome, Sink};
use sg_plan::{NoMemory, Word};
use sg_talk::Answered;
use std::alloc::Global;

/// Why an input is refused.
#[derive(Clone, Copy, Debug, PartialEq, Eq)]
pub enum Unfit {
    /// The first 65,536 bytes of a line have no line feed.
    Line,
    /// A 100,001st line begins, or more than 100,000 records stand behind the first one.
    Count,
    /// It has more than 16,777,216 bytes.
    Size,
    /// Its first record is not `station,secret,ref,ballot,marks`.
    Header,
}

/// How a talk ended: over the lines of an input, over a scanner's records in it, or over connections.
#[derive(Clone, Copy, Debug, PartialEq, Eq)]
pub enum Ending {
    /// All that came in was answered, and each line written.
    Done,
    /// A read of the input failed.
    ReadFault,
    /// A write failed: of an answer's line, or of a refusal's.
    WriteFault(Option<Unfit>),
    /// The port could not be listened on, or no connection be accepted.
    LinkFault,
    /// The input was refused, and that was written.
    Refused(Unfit),
    /// Memory was wanted and not found.
    NoMemory,
}

impl Ending {
    /// How the command ends whose talk ended so.
    pub fn outcome(self) -> Outcome
        ensures { result ≡ outcome_of self }
    {
        match self {
            Ending::Done => Outcome::Done,
            Ending::ReadFault => Outcome::ReadFailed,
            Ending::WriteFault(_) => Outcome::WriteFailed,
            Ending::LinkFault => Outcome::LinksFailed,
            Ending::Refused(_) => Outcome::Refused,
            Ending::NoMemory => Outcome::NoMemory,
        }
    }
}

/// Writes a line, as one put. Where that fails, the talk ends so.
pub fn put_line<O: Sink>(out: &mut O, line: &[u8]) -> Result<(), Ending>
    ensures wrote { WroteLine result line.now (O.written out.old) (O.written out.new) (O.faults out.old) (O.faults out.new) }
    ensures later { O.faults out.old ≤ O.faults out.new }
{
    match out.put(line) {
        Ok(()) => Ok(()),
        Err(Failed) => Err(Ending::WriteFault(None)),
    }
}

/// The line that is written for an answer.
fn line_of(alloc: Global, version: u32, answer: &Answered) -> Result<Word, NoMemory>
    requires { IsWritable version answer.now }
    ensures { IfOk result (λ line. line ≡ answer_line version answer.now) }
{
    let mut line = answer.text(alloc, version)?;
    line.push(b'\n')?;
    Ok(line)
}

/// Writes an answer's line, as one put. Where that fails, or memory is wanted for the line, the talk ends so.
pub fn write_answer<O: Sink>(
    alloc: Global,
    version: u32,
    answer: &Answered,
    out: &mut O,
) -> Result<(), Ending>
    requires { IsWritable version answer.now }
    ensures wrote { WroteLine result (answer_line version answer.now) (O.written out.old) (O.written out.new) (O.faults out.old) (O.faults out.new) }
    ensures later { O.faults out.old ≤ O.faults out.new }
{
    match line_of(alloc, version, answer) {
        Ok(line) => put_line(out, line.bytes()),
        Err(NoMemory) => Err(Ending::NoMemory),
    }
}

/// The line that is written for a refusal.
fn refused_line(why: Unfit) -> &'static [u8]
    ensures { result.now ≡ refused_line why }
{
    match why {
        Unfit::Line => b"refused line\n",
        Unfit::Count => b"refused count\n",
        Unfit::Size => b"refused size\n",
        Unfit::Header => b"refused header\n",
    }
}

/// Writes a refusal's line, as one put, and says how the talk ends.
pub fn refuse<O: Sink>(out: &mut O, why: Unfit) -> Ending
    ensures refuses { Refuses result why (O.written out.old) (O.written out.new) (O.faults out.old) (O.faults out.new) }
    ensures later { O.faults out.old ≤ O.faults out.new }
{
    match out.put(refused_line(why)) {
        Ok(()) => Ending::Refused(why),
        Err(Failed) => Ending::WriteFault(Some(why)),
    }
}
