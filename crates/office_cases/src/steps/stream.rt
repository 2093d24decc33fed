//! The steps of a stream. Before each stands a line with its name, its word, the sizes of what goes in and of what must
//! come out, and the status, with a space between two of them.
ghost use Rattle.std.specs.Prelude.{IfSome};
ghost use Rattle.office_cases.specs.Cut.{IsCut};

use super::rows::rows_of;
use super::step::{Step, take};
use crate::cutting::{cut, cut_at, size_of};
use crate::fault::Fault;
use sg_keeper::{Keeper, Rows};
use std::alloc::Global;
use std::io::Write;

/// How many steps may stand behind new rows.
const MOST_STEPS: u32 = 10_000;

/// What a line before a step says: the name, the word, the sizes of what goes in and of what must come out, and the status.
#[derive(Clone, Copy, Debug)]
struct Head<'a> {
    name: &'a [u8],
    word: &'a [u8],
    given: usize,
    wanted: usize,
    status: u8,
}

/// What a line says.
fn head_of(line: &[u8]) -> Option<Head<'_>> {
    let mut words = line.split(|byte| *byte == b' ');
    let name = words.next()?;
    let word = words.next()?;
    let given = size_of(words.next()?)?;
    let wanted = size_of(words.next()?)?;
    let status = u8::try_from(size_of(words.next()?)?).ok()?;
    Some(Head {
        name,
        word,
        given,
        wanted,
        status,
    })
}

/// The first step of the stream.
fn first_of(stream: &[u8]) -> Option<Step<'_>>
    ensures { IfSome result (λ step. IsCut stream.now step.input.now step.output.now step.behind.now) }
{
    let (line, rest) = cut_at(stream, b'\n')?;
    let head = head_of(line)?;
    let (input, rest) = cut(rest, head.given)?;
    let (output, behind) = cut(rest, head.wanted)?;
    Some(Step {
        name: head.name,
        word: head.word,
        input,
        output,
        status: head.status,
        behind,
    })
}

/// The rows that the first step of the stream gives, and the stream behind it.
pub(super) fn rows_at_front(alloc: Global, stream: &[u8]) -> Result<(Rows, &[u8]), Fault> {
    match first_of(stream) {
        Some(step) if matches!(step.word, b"rows") => {
            Ok((rows_of(alloc, step.input)?, step.behind))
        }
        _ => Err(Fault::Input),
    }
}

/// Takes the steps of the stream over this keeper up to one that gives new rows, fewer than 10,000, and answers the
/// stream from there.
pub(super) fn tell_until_rows<'a, K: Keeper, W: Write>(
    alloc: Global,
    stream: &'a [u8],
    keeper: &mut K,
    out: &mut W,
) -> Result<&'a [u8], Fault> {
    let mut stream = stream;
    for _step in 0..MOST_STEPS {
        if stream.is_empty() {
            return Ok(stream);
        }
        let Some(step) = first_of(stream) else {
            return Err(Fault::Input);
        };
        if matches!(step.word, b"rows") {
            return Ok(stream);
        }
        take(alloc, &step, keeper, out)?;
        stream = step.behind;
    }
    Err(Fault::Input)
}
