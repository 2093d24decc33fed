//! What is heard of an input: its lines are fed to a judge one by one, and the answer is that of the judge where they stop.
ghost use Rattle.std.specs.Prelude.{◌≡◌, List, [], Option, false, true};
ghost use Rattle.sg_plan.specs.Limits.{longest_line};
ghost use Rattle.sg_outside.specs.Cutting.{Cutting};
ghost use Rattle.sg_outside.specs.Streams.{seen};
ghost use Rattle.sg_driver.specs.inside.Hearing.{Hears, heard_of};
ghost use Rattle.sg_driver.specs.inside.Stopping.{Cuts, Stops};

use crate::judge::{Judge, Standing};
use sg_outside::{Got, Lines, Source};
use sg_plan::NoMemory;
use sg_plan::limits::LONGEST_LINE;
use std::alloc::Global;

/// What was heard of an input.
#[derive(Debug, Drop)]
pub enum Heard<A> {
    /// The answer on its bytes.
    Answer(A),
    /// It failed.
    Fault,
    /// Memory was wanted and not found.
    NoMemory,
}

/// Why no more lines are taken.
#[derive(Clone, Copy, Debug)]
enum Stop {
    /// The next bytes are no line: they have no line feed, or are too many.
    NoLine,
    /// The lines settled an answer.
    Settled,
    /// There are no more.
    End,
    /// A read failed.
    Fault,
    /// Memory was wanted and not found.
    NoMemory,
}

/// The answer on the lines of the input.
pub(crate) fn hear<J: Judge + Drop, S: Source>(alloc: Global, input: &mut S) -> Heard<J::Answer>
    ensures { Hears J.judging result (seen (S.left input.old) (S.faults input.old)) (seen (S.left input.new) (S.faults input.new)) }
{
    let Ok(mut judge) = J::new(alloc) else {
        return Heard::NoMemory;
    };
    let Ok(mut lines) = Lines::new(alloc, LONGEST_LINE) else {
        return Heard::NoMemory;
    };
    match take_lines(&mut judge, &mut lines, input) {
        Stop::NoLine => answered(judge.end_at_no_line(alloc)),
        Stop::Settled => Heard::Answer(judge.end_settled()),
        Stop::End => answered(judge.end(alloc)),
        Stop::Fault => Heard::Fault,
        Stop::NoMemory => Heard::NoMemory,
    }
}

/// The answer, or that memory was wanted.
fn answered<A>(answer: Result<A, NoMemory>) -> Heard<A>
    ensures { result ≡ heard_of answer }
{
    match answer {
        Ok(answer) => Heard::Answer(answer),
        Err(NoMemory) => Heard::NoMemory,
    }
}

/// Feeds the lines to a judge, up to the first that settles an answer.
fn take_lines<J: Judge, S: Source>(judge: &mut J, lines: &mut Lines, input: &mut S) -> Stop
    requires stands { J.stands judge.old [] }
    requires unsettled { J.judging.Unsettled [] }
    requires fresh { lines.old ≡ record { limit = longest_line; text = []; ahead = []; is_over = false } }
    ensures { Stops J.judging (J.stands judge.new) (J.settled judge.new) result (seen (S.left input.old) (S.faults input.old)) (seen (S.left input.new) (S.faults input.new)) }
{
    loop {
        match cut_line(lines, input) {
            Some(stop) => return stop,
            None => {}
        }
        match judge.line(lines.text()) {
            Ok(Standing::Open) => {}
            Ok(Standing::Settled) => return Stop::Settled,
            Err(_) => return Stop::NoMemory,
        }
    }
}

/// Cuts the next line, or says why there is none.
fn cut_line<S: Source>(lines: &mut Lines, input: &mut S) -> Option<Stop>
    requires { lines.old.is_over ≡ false }
    ensures { Cuts result lines.old lines.new (seen (S.left input.old) (S.faults input.old)) (seen (S.left input.new) (S.faults input.new)) }
{
    match lines.next(input) {
        Got::Line => None,
        Got::Part => Some(Stop::NoLine),
        Got::Long => Some(Stop::NoLine),
        Got::End => Some(Stop::End),
        Got::ReadFault => Some(Stop::Fault),
    }
}
