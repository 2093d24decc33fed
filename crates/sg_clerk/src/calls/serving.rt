//! `serve`: connections to a port are asks of the office, one each, and each is answered.
ghost use Rattle.std.specs.Prelude.{◌≡◌, ◌⊎◌, false};
ghost use Rattle.sg_clerk.specs.Outside.{unread};
ghost use Rattle.sg_clerk.specs.calls.Says.{ServeSays};

use crate::calls::station::serve_calls;
use crate::open_office;
use sg_keeper::Keeper;
use sg_links::Links;
use sg_outside::{Outcome, Sink};
use std::alloc::Global;

/// Opens the office of the keeper's rows, and takes and serves so many connections on a port, one after another, as
/// [`serve_calls`] does. Where there is no office, no port is listened on.
pub fn serve<L: Links, K: Keeper, O: Sink>(
    alloc: Global,
    port: u16,
    count: u32,
    links: &mut L,
    keeper: &mut K,
    out: &mut O,
) -> Outcome
    requires { L.is_open links.old ≡ false }
    ensures says { ServeSays result port count (K.tells keeper.old) (K.rows keeper.old) (K.rows keeper.new)
        (unread (L.board links.old) (O.written out.old) (L.faults links.old) (O.faults out.old) (K.faults keeper.old))
        (unread (L.board links.new) (O.written out.new) (L.faults links.new) (O.faults out.new) (K.faults keeper.new)) }
    // Where no office is opened, the links are as they were.
    ensures unlinked { (result ≡ Outcome.KeeperFailed) ⊎ (result ≡ Outcome.Refused) ⊎ (result ≡ Outcome.Damaged) → links.new ≡ links.old }
    ensures closed { L.is_open links.new ≡ false }
    ensures told { K.tells keeper.old → K.tells keeper.new }
{
    match open_office(alloc, keeper, out) {
        Ok(office) => {
            let mut office = office;
            let ending = serve_calls(alloc, port, count, links, keeper, &mut office, out);
            drop(office);
            ending.outcome()
        }
        Err(how) => how,
    }
}
