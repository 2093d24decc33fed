//! The desk: its buffers and its routes.

ghost use Rattle.std.specs.Prelude.{◌≡◌, ◌≤◌, List, true, false, vec_len};
ghost use Rattle.sg_outside.specs.Faults.{Rose};
ghost use Rattle.sg_histories.specs.Histories.{Entry};
ghost use Rattle.sg_histories.specs.Standing.{StandsFor};
ghost use Rattle.sg_http.specs.Places.{routes as three_routes};
ghost use Rattle.sg_http.specs.Visits.{Serves};
ghost use Rattle.sg_http.specs.declared.serving.Served.TheVariants as Served;

use crate::routes::{Route, make_routes};
use crate::serving::{Served, serve};
use httparse::spans::{EMPTY_HEADER_SPAN, HeaderSpan};
use matchit::Router;
use sg_keeper::Keeper;
use sg_links::Links;
use sg_office::Office;
use sg_plan::NoMemory;
use sg_plan::limits::MOST_FIELDS;
use std::alloc::Global;

/// As many bytes a request has at most: those of a head and those of a body.
const REQUEST_LIMIT: usize = 73_728;

/// Serves one connection after the other, without taking memory for what it reads.
#[derive(Drop)]
pub struct Desk {
    buf: Vec<u8>,
    headers: Vec<HeaderSpan>,
    router: Router<Route>,
    ghost room: { vec_len buf ≡ 73728 },
    ghost lines: { vec_len headers ≡ 64 },
    ghost routed: { router ≡ three_routes },
}

impl Desk {
    /// With its buffers reserved, and its routes.
    pub fn new(alloc: Global) -> Result<Desk, NoMemory> {
        let Ok(router) = make_routes(alloc) else {
            return Err(NoMemory);
        };
        Ok(Desk {
            buf: vec![in alloc; 0; REQUEST_LIMIT]?,
            headers: vec![in alloc; EMPTY_HEADER_SPAN; MOST_FIELDS]?,
            router,
        })
    }

    /// Serves the current connection, and finishes it: reads the head of a request and the body of an ask, at most 73,728
    /// bytes, has the office answer it, and sends the one answer. What is refused before it reaches the office is told so.
    ///
    /// The office answers by a turn of its talk, for every history that it stands for. Where memory is wanted, before the
    /// office is asked or behind that, an answer of status 500 is sent.
    pub fn serve_one<L: Links, K: Keeper>(
        &mut self,
        alloc: Global,
        links: &mut L,
        keeper: &mut K,
        office: &mut Office,
    ) -> Served
        requires opened { L.is_open links.old ≡ true }
        ensures serves { (history : List Entry) → StandsFor office.old history
            → Serves result office.old.setup office.new history (K.tells keeper.old) (K.rows keeper.old) (K.rows keeper.new)
            (L.board links.old) (L.board links.new) (K.faults keeper.old) (K.faults keeper.new) }
        ensures read_failed { result ≡ Served.ReadFailed → Rose (L.faults links.old) (L.faults links.new) }
        ensures write_failed { result ≡ Served.WriteFailed → Rose (L.faults links.old) (L.faults links.new) }
        ensures later { L.faults links.old ≤ L.faults links.new }
        ensures opened { L.is_open links.new ≡ false }
        ensures told { K.tells keeper.old → K.tells keeper.new }
        ensures setup { office.new.setup ≡ office.old.setup }
        ensures keeper_later { K.faults keeper.old ≤ K.faults keeper.new }
    {
        serve(
            alloc,
            links,
            keeper,
            office,
            &mut self.buf,
            &mut self.headers,
            &self.router,
        )
    }
}
