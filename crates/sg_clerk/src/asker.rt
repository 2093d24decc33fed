//! Who asks an office.
ghost use Rattle.std.specs.Prelude.{◌≡◌, ◌<◌, ◌≤◌, ℕ, List, IfOk, IsOk};
ghost use Rattle.sg_histories.specs.Histories.{Entry};
ghost use Rattle.sg_histories.specs.Standing.{StandsFor};
ghost use Rattle.sg_clerk.specs.Asking.{AsksNext, Exchanging};
ghost use Rattle.sg_clerk.specs.Ends.{WroteLine};
ghost use Rattle.sg_clerk.specs.declared.asker.Stop.{Stop};

use crate::ended::{Ending, Unfit};
use sg_keeper::Keeper;
use sg_office::Office;
use sg_outside::Sink;
use std::alloc::Global;

/// Why no more asks come.
#[derive(Clone, Copy, Debug, PartialEq, Eq)]
pub enum Stop {
    /// All were taken.
    Done,
    /// A read of the input failed.
    ReadFault,
    /// No connection could be accepted.
    LinkFault,
    /// What comes next is refused.
    Unfit(Unfit),
    /// Memory was wanted and not found.
    NoMemory,
}

/// Asks an office one ask after another, of what an input has.
pub trait Asker<I> {
    /// What it is replied.
    type Reply: Drop;

    /// An ask with its reply.
    ghost Exchange: { Type 0 };

    /// What passes between it and the office: the turn of an exchange, and the line of its reply.
    ghost exchanging: { Exchanging Exchange Self.Reply };

    /// Since asker and input were the first two, these exchanges came, and no others; now they are the other two.
    ghost came: { Self → I → Self → I → List Exchange → Type 0 };

    /// Behind these exchanges no more comes, for this cause.
    ghost over: { Self → I → Self → I → Stop → List Exchange → Type 0 };

    /// It may be asked for the next.
    ghost is_ready: { Self → I → Type 0 };

    /// As many exchanges as may still come, or more.
    ghost left_in: { Self → I → ℕ };

    /// Takes the next ask, and has the office reply to it; or says why there is none.
    fn ask<K: Keeper>(
        &mut self,
        alloc: Global,
        input: &mut I,
        office: &mut Office,
        keeper: &mut K,
    ) -> Result<Self::Reply, Stop>
        requires { is_ready self.old input.old }
        ensures asks { (history : List Entry) (start : Self) (first : I) (exchanges : List Exchange) → StandsFor office.old history → came start first self.old input.old exchanges
            → AsksNext exchanging (came start first self.new input.new) (over start first self.new input.new) result office.old.setup office.new
            (K.tells keeper.old) (K.rows keeper.old) (K.rows keeper.new) (K.faults keeper.old) (K.faults keeper.new) history exchanges }
        ensures ready { is_ready self.new input.new }
        ensures falls { IsOk result → left_in self.new input.new < left_in self.old input.old }
        ensures writable { IfOk result (exchanging.IsWritable office.old.setup.plan.version) }
        ensures setup { office.new.setup ≡ office.old.setup }
        ensures told { K.tells keeper.old → K.tells keeper.new }
        ensures later { K.faults keeper.old ≤ K.faults keeper.new };

    /// Writes the line of a reply, as one put. Where that fails, or memory is wanted for the line, the talk ends so.
    fn write_reply<O: Sink>(
        alloc: Global,
        version: u32,
        reply: &Self::Reply,
        out: &mut O,
    ) -> Result<(), Ending>
        requires { exchanging.IsWritable version reply.now }
        ensures wrote { WroteLine result (exchanging.line version reply.now) (O.written out.old) (O.written out.new) (O.faults out.old) (O.faults out.new) }
        ensures later { O.faults out.old ≤ O.faults out.new };
}
