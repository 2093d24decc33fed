//! An office talks: the asks of an asker are replied to, one after another, and a line is written for each.
ghost use Rattle.std.specs.Prelude.{◌≡◌, ◌<◌, ◌≤◌, [], List, IsOk};
ghost use Rattle.sg_outside.specs.Streams.{seen};
ghost use Rattle.sg_histories.specs.Histories.{Entry};
ghost use Rattle.sg_histories.specs.Standing.{StandsFor};
ghost use Rattle.sg_clerk.specs.Asking.{TalkedBy};
ghost use Rattle.sg_clerk.specs.inside.Asking.{HasReplied, Stops};

use crate::asker::{Asker, Stop};
use crate::ended::{Ending, refuse};
use sg_keeper::Keeper;
use sg_office::Office;
use sg_outside::Sink;
use sg_talk::version_of;
use std::alloc::Global;

/// How a talk ends where no more asks come. A refusal has its line.
fn end_at<O: Sink>(why: Stop, out: &mut O) -> Ending
    ensures ends { Stops why result (seen (O.written out.old) (O.faults out.old)) (seen (O.written out.new) (O.faults out.new)) }
    ensures later { O.faults out.old ≤ O.faults out.new }
{
    match why {
        Stop::Done => Ending::Done,
        Stop::ReadFault => Ending::ReadFault,
        Stop::LinkFault => Ending::LinkFault,
        Stop::Unfit(unfit) => refuse(out, unfit),
        Stop::NoMemory => Ending::NoMemory,
    }
}

/// Has the next ask replied to, and writes the line of the reply. Where there is none, or its line is not written, the talk
/// ends so.
fn reply_next<A: Asker<I>, I, K: Keeper, O: Sink>(
    alloc: Global,
    office: &mut Office,
    asker: &mut A,
    input: &mut I,
    keeper: &mut K,
    out: &mut O,
) -> Result<(), Ending>
    requires { A.is_ready asker.old input.old }
    ensures replies { (history : List Entry) (start : A) (first : I) (exchanges : List A.Exchange) → StandsFor office.old history → A.came start first asker.old input.old exchanges
        → HasReplied A.exchanging (A.came start first asker.new input.new) (A.over start first asker.new input.new) result office.old.setup office.new
        (K.tells keeper.old) (K.rows keeper.old) (K.rows keeper.new) (K.faults keeper.old) (K.faults keeper.new)
        (seen (O.written out.old) (O.faults out.old)) (seen (O.written out.new) (O.faults out.new)) history exchanges }
    ensures ready { A.is_ready asker.new input.new }
    ensures falls { IsOk result → A.left_in asker.new input.new < A.left_in asker.old input.old }
    ensures setup { office.new.setup ≡ office.old.setup }
    ensures told { K.tells keeper.old → K.tells keeper.new }
    ensures keeper_later { K.faults keeper.old ≤ K.faults keeper.new }
    ensures later { O.faults out.old ≤ O.faults out.new }
{
    let version = version_of(office);
    match asker.ask(alloc, input, office, keeper) {
        Ok(reply) => A::write_reply(alloc, version, &reply, out),
        Err(why) => Err(end_at(why, out)),
    }
}

/// Has an office reply to an asker, one ask after another, and writes a line for each reply, as one put. The talk ends where no
/// more asks come, and where a line is not written.
pub fn converse<A: Asker<I>, I, K: Keeper, O: Sink>(
    alloc: Global,
    office: &mut Office,
    asker: &mut A,
    input: &mut I,
    keeper: &mut K,
    out: &mut O,
) -> Ending
    requires ready { A.is_ready asker.old input.old }
    requires none { A.came asker.old input.old asker.old input.old [] }
    ensures talks { (history : List Entry) → StandsFor office.old history
        → TalkedBy A.exchanging (A.came asker.old input.old asker.new input.new) (A.over asker.old input.old asker.new input.new) result
        (seen (O.written out.old) (O.faults out.old)) (seen (O.written out.new) (O.faults out.new)) office.old.setup history
        (K.tells keeper.old) (K.rows keeper.old) (K.rows keeper.new) (K.faults keeper.old) (K.faults keeper.new) }
    ensures ready { A.is_ready asker.new input.new }
    ensures told { K.tells keeper.old → K.tells keeper.new }
{
    loop {
        match reply_next(alloc, office, asker, input, keeper, out) {
            Ok(()) => {}
            Err(ending) => return ending,
        }
    }
}
