//! The lines of an input are asks of an office, and each is answered by a line.
ghost use Rattle.std.specs.Prelude.{◌≡◌, List};
ghost use Rattle.sg_plan.specs.Limits.{longest_ask};
ghost use Rattle.sg_outside.specs.Streams.{seen};
ghost use Rattle.sg_histories.specs.Histories.{Entry};
ghost use Rattle.sg_histories.specs.Standing.{StandsFor};
ghost use Rattle.sg_clerk.specs.Outside.{unlinked};
ghost use Rattle.sg_clerk.specs.Does.{Does};
ghost use Rattle.sg_clerk.specs.inside.LineAsks.{CutsNext, EndsBehind};

use crate::asker::{Asker, Stop};
use crate::conversing::converse;
use crate::ended::{Ending, Unfit, write_answer};
use sg_keeper::Keeper;
use sg_office::Office;
use sg_outside::{Got, Lines, Sink, Source};
use sg_plan::NoMemory;
use sg_plan::limits::{LONGEST_ASK, MOST_ASKS};
use sg_talk::{Answered, answer_to};
use std::alloc::Global;

/// Asks what the lines of an input are.
#[derive(Debug, Drop)]
struct LineAsks {
    lines: Lines,
    /// How many more may be answered.
    left: u32,
}

impl<S: Source> Asker<S> for LineAsks {
    ghost use Rattle.std.specs.Prelude.{◌≡◌};
    ghost use Rattle.sg_plan.specs.Limits.{longest_ask};
    ghost use Rattle.sg_outside.specs.Streams.{seen};
    ghost use Rattle.sg_talk.specs.Talk.{Exchange as LineExchange};
    ghost use Rattle.sg_clerk.specs.inside.LineAsks.{LinesCame, LinesOver, by_lines};

    type Reply = Answered;

    ghost Exchange = { LineExchange };

    ghost exchanging = { by_lines };

    ghost came = { λ start first asks input exchanges.
        LinesCame asks.lines asks.left (seen (S.left first) (S.faults first)) (seen (S.left input) (S.faults input)) exchanges };

    ghost over = { λ start first asks input why exchanges.
        LinesOver why (seen (S.left first) (S.faults first)) (seen (S.left input) (S.faults input)) exchanges };

    ghost is_ready = { λ asks input. asks.lines.limit ≡ longest_ask };

    ghost left_in = { λ asks input. asks.left };

    fn ask<K: Keeper>(
        &mut self,
        alloc: Global,
        input: &mut S,
        office: &mut Office,
        keeper: &mut K,
    ) -> Result<Answered, Stop> {
        if self.left == 0 {
            return Err(end_behind(&mut self.lines, input));
        }
        self.left -= 1;
        match cut_ask(&mut self.lines, input) {
            Ok(()) => {}
            Err(why) => return Err(why),
        }
        match answer_to(alloc, office, keeper, self.lines.text()) {
            Ok(answer) => Ok(answer),
            Err(NoMemory) => Err(Stop::NoMemory),
        }
    }

    fn write_reply<O: Sink>(
        alloc: Global,
        version: u32,
        reply: &Answered,
        out: &mut O,
    ) -> Result<(), Ending> {
        write_answer(alloc, version, reply, out)
    }
}

/// Cuts the next line. Or says why there is none, or none that is no longer than it may be.
fn cut_ask<S: Source>(lines: &mut Lines, input: &mut S) -> Result<(), Stop>
    requires { lines.old.limit ≡ longest_ask }
    ensures cuts { CutsNext result lines.old lines.new (seen (S.left input.old) (S.faults input.old)) (seen (S.left input.new) (S.faults input.new)) }
    ensures limit { lines.new.limit ≡ longest_ask }
{
    match lines.next(input) {
        Got::Line => Ok(()),
        Got::Part => Ok(()),
        Got::Long => Err(Stop::Unfit(Unfit::Line)),
        Got::End => Err(Stop::Done),
        Got::ReadFault => Err(Stop::ReadFault),
    }
}

/// Why no more lines come behind as many as may be answered: a byte more is refused.
fn end_behind<S: Source>(lines: &mut Lines, input: &mut S) -> Stop
    requires { lines.old.limit ≡ longest_ask }
    ensures ends { EndsBehind result lines.old (seen (S.left input.old) (S.faults input.old)) (seen (S.left input.new) (S.faults input.new)) }
    ensures limit { lines.new.limit ≡ longest_ask }
{
    match lines.next(input) {
        Got::Line => Stop::Unfit(Unfit::Count),
        Got::Part => Stop::Unfit(Unfit::Count),
        Got::Long => Stop::Unfit(Unfit::Count),
        Got::End => Stop::Done,
        Got::ReadFault => {
            if lines.held().is_empty() {
                Stop::ReadFault
            } else {
                Stop::Unfit(Unfit::Count)
            }
        }
    }
}

/// Answers the lines of the input, one after another: at most 100,000, of at most 65,536 bytes with their line feed. The
/// last line may lack its line feed. Each answer is one line of the output, and one put.
///
/// A line that is no ask is told so, and the run goes on, as it does where memory is wanted for an act or the keeper
/// fails. It ends where a read or a write fails, at a line that is too long, where a 100,001st line begins, and where
/// memory is wanted for an ask or for the text of an answer.
pub fn do_lines<S: Source, K: Keeper, O: Sink>(
    alloc: Global,
    office: &mut Office,
    input: &mut S,
    keeper: &mut K,
    out: &mut O,
) -> Ending
    ensures does { (history : List Entry) → StandsFor office.old history
        → Does result office.old.setup history (K.tells keeper.old) (K.rows keeper.old) (K.rows keeper.new)
        (unlinked (S.left input.old) (O.written out.old) (S.faults input.old) (O.faults out.old) (K.faults keeper.old))
        (unlinked (S.left input.new) (O.written out.new) (S.faults input.new) (O.faults out.new) (K.faults keeper.new)) }
    ensures told { K.tells keeper.old → K.tells keeper.new }
{
    let Ok(lines) = Lines::new(alloc, LONGEST_ASK) else {
        return Ending::NoMemory;
    };
    let mut asks = LineAsks {
        lines,
        left: MOST_ASKS,
    };
    converse(alloc, office, &mut asks, input, keeper, out)
}
