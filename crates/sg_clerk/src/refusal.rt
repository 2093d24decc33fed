//! Why an office is not set up, and the line that says so.
ghost use Rattle.std.specs.Prelude.{◌≡◌, ◌++◌, IfOk, OnOk, decimal};
ghost use Rattle.sg_clerk.specs.Begun.{plan_words, refusal_line as refusal_text};

use crate::lines::put_decimal;
use sg_plan::{NoMemory, PlanFault, Word};
use std::alloc::Global;

/// Why an office is not set up. The causes are sought in this order.
#[derive(Clone, Copy, Debug, PartialEq, Eq)]
pub enum Refusal {
    /// The election file has more than 1,048,576 bytes.
    Size,
    /// It is no JSON.
    Json,
    /// It has not the form of an election file.
    Shape,
    /// Its plan breaks this limit.
    Plan(PlanFault),
    /// It has no secret, or more than 32.
    Secrets,
    /// A setup is kept already.
    Begun,
}

/// The line that is written for a refusal.
pub(crate) fn refusal_line(alloc: Global, why: Refusal) -> Result<Word, NoMemory>
    ensures { IfOk result (λ line. line ≡ refusal_text why) }
{
    match why {
        Refusal::Size => word_of(alloc, b"refused size\n"),
        Refusal::Json => word_of(alloc, b"refused json\n"),
        Refusal::Shape => word_of(alloc, b"refused shape\n"),
        Refusal::Plan(broken) => plan_line(alloc, broken),
        Refusal::Secrets => word_of(alloc, b"refused secrets\n"),
        Refusal::Begun => word_of(alloc, b"refused begun\n"),
    }
}

/// A text of these bytes.
fn word_of(alloc: Global, bytes: &[u8]) -> Result<Word, NoMemory>
    ensures { IfOk result (λ word. word ≡ bytes.now) }
{
    let mut word = Word::new(alloc);
    word.extend(bytes)?;
    Ok(word)
}

/// The line `refused plan N`, with the limit's number, and behind it where it is broken.
fn plan_line(alloc: Global, broken: PlanFault) -> Result<Word, NoMemory>
    ensures { IfOk result (λ line. line ≡ refusal_text (Refusal.Plan broken)) }
{
    let mut line = Word::new(alloc);
    line.extend(b"refused plan ")?;
    put_plan_words(&mut line, broken)?;
    line.push(b'\n')?;
    Ok(line)
}

/// Puts the number of a plan's limit, and behind it where it is broken.
fn put_plan_words(line: &mut Word, broken: PlanFault) -> Result<(), NoMemory>
    ensures { OnOk result (line.new ≡ line.old ++ plan_words broken) }
{
    match broken {
        PlanFault::Version => line.extend(b"1"),
        PlanFault::Name => line.extend(b"2"),
        PlanFault::Instances => line.extend(b"3"),
        PlanFault::Race(at) => put_numbered(line, b"4 ", u64::from(at)),
        PlanFault::Style(at) => put_numbered(line, b"5 ", u64::from(at)),
        PlanFault::Run(at) => put_numbered(line, b"6 ", u64::from(at)),
        PlanFault::TooLarge(rows) => put_numbered(line, b"7 ", rows),
    }
}

/// Puts these bytes, and then a number's digits.
fn put_numbered(line: &mut Word, bytes: &[u8], value: u64) -> Result<(), NoMemory>
    ensures { OnOk result (line.new ≡ line.old ++ (bytes.now ++ decimal value)) }
{
    line.extend(bytes)?;
    put_decimal(line, value)
}
