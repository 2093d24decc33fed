//! Connections are taken and served, one after another.
ghost use Rattle.std.specs.Prelude.{◌≡◌, ◌≤◌, ◌++◌, [], ◌∷◌, IfOk, decimal, false};
ghost use Rattle.sg_clerk.specs.Outside.{unread};
ghost use Rattle.sg_clerk.specs.Ends.{WroteLine};
ghost use Rattle.sg_clerk.specs.calls.Calls.{line_of};
ghost use Rattle.sg_clerk.specs.calls.Serves.{ServesPort};

use crate::{Asker, Ending, Stop, converse, put_line};
use itoa::Buffer;
use sg_http::{Desk, Served};
use sg_keeper::Keeper;
use sg_links::Links;
use sg_office::Office;
use sg_outside::{Failed, Sink};
use sg_plan::{NoMemory, Word};
use std::alloc::Global;

/// The line of a status.
fn status_line(alloc: Global, status: u16) -> Result<Word, NoMemory>
    ensures { IfOk result (λ line. line ≡ decimal status ++ 10 ∷ []) }
{
    let mut digits = Buffer::new();
    let mut line = Word::new(alloc);
    line.extend(digits.format(status).as_bytes())?;
    line.push(b'\n')?;
    Ok(line)
}

/// Writes the line of a connection. Where it is not written, the run ends so.
fn write_line<O: Sink>(alloc: Global, served: Served, out: &mut O) -> Result<(), Ending>
    ensures wrote { WroteLine result (line_of served) (O.written out.old) (O.written out.new) (O.faults out.old) (O.faults out.new) }
    ensures later { O.faults out.old ≤ O.faults out.new }
{
    match served {
        Served::Answered(status) => match status_line(alloc, status) {
            Ok(line) => put_line(out, line.bytes()),
            Err(NoMemory) => Err(Ending::NoMemory),
        },
        Served::ReadFailed => put_line(out, b"read failed\n"),
        Served::WriteFailed => put_line(out, b"write failed\n"),
        Served::Gone => put_line(out, b"gone\n"),
    }
}

/// Asks what connections ask, one each.
#[derive(Drop)]
struct CallAsks {
    desk: Desk,
    /// How many more are taken.
    left: u32,
}

impl<L: Links> Asker<L> for CallAsks {
    ghost use Rattle.std.specs.Prelude.{◌≡◌, false};
    ghost use Rattle.sg_clerk.specs.calls.Calls.{Call, by_calls};
    ghost use Rattle.sg_clerk.specs.calls.inside.Steps.{CallsCame, CallsOver};

    type Reply = Served;

    ghost Exchange = { Call };

    ghost exchanging = { by_calls };

    ghost came = { λ start first asks links calls.
        CallsCame start.left asks.left (L.board first) (L.board links) (L.faults first) (L.faults links) calls };

    ghost over = { λ start first asks links why calls.
        CallsOver why start.left (L.board first) (L.board links) (L.faults first) (L.faults links) calls };

    ghost is_ready = { λ asks links. L.is_open links ≡ false };

    ghost left_in = { λ asks links. asks.left };

    fn ask<K: Keeper>(
        &mut self,
        alloc: Global,
        links: &mut L,
        office: &mut Office,
        keeper: &mut K,
    ) -> Result<Served, Stop> {
        if self.left == 0 {
            return Err(Stop::Done);
        }
        self.left -= 1;
        match links.accept() {
            Ok(()) => Ok(self.desk.serve_one(alloc, links, keeper, office)),
            Err(Failed) => Err(Stop::LinkFault),
        }
    }

    fn write_reply<O: Sink>(
        alloc: Global,
        _version: u32,
        reply: &Served,
        out: &mut O,
    ) -> Result<(), Ending> {
        write_line(alloc, *reply, out)
    }
}

/// Listens on a port, and takes and serves so many connections, one after another. The line of each is written when it is
/// finished: its status, `read failed`, `write failed` or `gone`.
pub fn serve_calls<L: Links, K: Keeper, O: Sink>(
    alloc: Global,
    port: u16,
    count: u32,
    links: &mut L,
    keeper: &mut K,
    office: &mut Office,
    out: &mut O,
) -> Ending
    requires { L.is_open links.old ≡ false }
    ensures serves { ServesPort result office.old port count (K.tells keeper.old) (K.rows keeper.old) (K.rows keeper.new)
        (unread (L.board links.old) (O.written out.old) (L.faults links.old) (O.faults out.old) (K.faults keeper.old))
        (unread (L.board links.new) (O.written out.new) (L.faults links.new) (O.faults out.new) (K.faults keeper.new)) }
    ensures closed { L.is_open links.new ≡ false }
    ensures told { K.tells keeper.old → K.tells keeper.new }
{
    let Ok(desk) = Desk::new(alloc) else {
        return Ending::NoMemory;
    };
    let mut asks = CallAsks { desk, left: count };
    match links.listen(port) {
        Ok(()) => converse(alloc, office, &mut asks, links, keeper, out),
        Err(Failed) => Ending::LinkFault,
    }
}
