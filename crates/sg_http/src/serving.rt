//! A connection is served: what its request comes to is answered, and it is finished.

ghost use Rattle.std.specs.Prelude.{◌≡◌, ◌≤◌, None, Some, List, IfSome, length, option_map, take, true, false};
ghost use Rattle.sg_plan.specs.Limits.{most_fields};
ghost use Rattle.sg_outside.specs.Faults.{Rose};
ghost use Rattle.sg_talk.specs.Answers.{IsWritable};
ghost use Rattle.sg_histories.specs.Histories.{Entry};
ghost use Rattle.sg_histories.specs.Standing.{StandsFor};
ghost use Rattle.sg_http.specs.Leads.Lead.{Posts, Sees};
ghost use Rattle.sg_http.specs.Places.{routes as three_routes};
ghost use Rattle.sg_http.specs.Visits.{Serves, said_due};
ghost use Rattle.sg_http.specs.declared.serving.Served.TheVariants as Served;
ghost use Rattle.sg_http.specs.declared.hearing.Way.TheVariants as Way;
ghost use Rattle.sg_http.specs.inside.Reading.{Hears};
ghost use Rattle.sg_http.specs.inside.Responses.{HasSaid, Responds, Sends};

use crate::hearing::{Heard, Way, hear};
use crate::refusal::Verb;
use crate::routes::Route;
use crate::texts::{compose, memory_answer, refusal_allow, refusal_status, refusal_text};
use httparse::spans::HeaderSpan;
use matchit::Router;
use sg_acts::Look;
use sg_keeper::Keeper;
use sg_links::Links;
use sg_office::Office;
use sg_outside::Failed;
use sg_plan::NoMemory;
use sg_talk::{Answered, answer_to, show_to, version_of};
use std::alloc::Global;

/// How a connection was served.
#[derive(Clone, Copy, Debug, PartialEq, Eq)]
pub enum Served {
    /// It was sent an answer of this status, whole.
    Answered(u16),
    /// A read failed, and it was sent nothing.
    ReadFailed,
    /// A write failed: it was sent a front of its answer.
    WriteFailed,
    /// It ended with no byte, and was sent nothing.
    Gone,
}

/// Asks the office what a body says. Nothing is said where memory is wanted before.
fn post<K: Keeper>(
    alloc: Global,
    office: &mut Office,
    keeper: &mut K,
    body: &[u8],
) -> Option<Answered>
    ensures says { (history : List Entry) → StandsFor office.old history
        → HasSaid office.old.setup office.new (K.tells keeper.old) (K.rows keeper.old) (K.rows keeper.new) (Posts body.now) result history (K.faults keeper.old) (K.faults keeper.new) }
    ensures writable { IfSome result (IsWritable office.old.setup.plan.version) }
    ensures told { K.tells keeper.old → K.tells keeper.new }
    ensures setup { office.new.setup ≡ office.old.setup }
    ensures later { K.faults keeper.old ≤ K.faults keeper.new }
{
    match answer_to(alloc, office, keeper, body) {
        Ok(answer) => Some(answer),
        Err(NoMemory) => None,
    }
}

/// Asks the office for a look.
fn see<K: Keeper>(
    alloc: Global,
    office: &mut Office,
    keeper: &mut K,
    look: Look,
) -> Option<Answered>
    ensures says { (history : List Entry) → StandsFor office.old history
        → HasSaid office.old.setup office.new (K.tells keeper.old) (K.rows keeper.old) (K.rows keeper.new) (Sees look) result history (K.faults keeper.old) (K.faults keeper.new) }
    ensures writable { IfSome result (IsWritable office.old.setup.plan.version) }
    ensures told { K.tells keeper.old → K.tells keeper.new }
    ensures setup { office.new.setup ≡ office.old.setup }
    ensures later { K.faults keeper.old ≤ K.faults keeper.new }
{
    Some(show_to(alloc, office, keeper, look))
}

/// Sends the answer for want of memory.
fn send_memory<L: Links>(links: &mut L) -> Served
    requires opened { L.is_open links.old ≡ true }
    ensures sends { Sends result (L.board links.old) (L.board links.new) None }
    ensures failed { result ≡ Served.WriteFailed → Rose (L.faults links.old) (L.faults links.new) }
    ensures later { L.faults links.old ≤ L.faults links.new }
    ensures opened { L.is_open links.new ≡ true }
{
    match links.put(memory_answer()) {
        Ok(()) => Served::Answered(500),
        Err(Failed) => Served::WriteFailed,
    }
}

/// Sends an answer, or the one for want of memory in its place.
fn send<L: Links>(
    alloc: Global,
    links: &mut L,
    status: u16,
    allow: Option<Verb>,
    body: &[u8],
) -> Served
    requires opened { L.is_open links.old ≡ true }
    ensures sends { Sends result (L.board links.old) (L.board links.new) (Some (record { status = status; allow = allow; body = body.now })) }
    ensures failed { result ≡ Served.WriteFailed → Rose (L.faults links.old) (L.faults links.new) }
    ensures later { L.faults links.old ≤ L.faults links.new }
    ensures opened { L.is_open links.new ≡ true }
{
    let Ok(text) = compose(alloc, status, allow, body) else {
        return send_memory(links);
    };
    match links.put(text.bytes()) {
        Ok(()) => Served::Answered(status),
        Err(Failed) => Served::WriteFailed,
    }
}

/// Sends what the office said.
fn send_said<L: Links>(
    alloc: Global,
    links: &mut L,
    version: u32,
    said: &Option<Answered>,
) -> Served
    requires opened { L.is_open links.old ≡ true }
    requires writable { IfSome said.now (IsWritable version) }
    ensures sends { Sends result (L.board links.old) (L.board links.new) (option_map (said_due version) said.now) }
    ensures failed { result ≡ Served.WriteFailed → Rose (L.faults links.old) (L.faults links.new) }
    ensures later { L.faults links.old ≤ L.faults links.new }
    ensures opened { L.is_open links.new ≡ true }
{
    let Some(answer) = said else {
        return send_memory(links);
    };
    let Ok(text) = answer.text(alloc, version) else {
        return send_memory(links);
    };
    send(alloc, links, answer.status(), None, text.bytes())
}

/// Answers what was heard, by the office where it comes to it.
fn respond<L: Links, K: Keeper>(
    alloc: Global,
    links: &mut L,
    keeper: &mut K,
    office: &mut Office,
    heard: Heard,
    buf: &[u8],
) -> Served
    requires opened { L.is_open links.old ≡ true }
    requires bounds { heard.end ≤ length buf.now }
    requires hears { Hears heard.way (take heard.end buf.now) heard.is_ended }
    ensures responds { (history : List Entry) → StandsFor office.old history
        → Responds result office.old.setup office.new history (K.tells keeper.old) (K.rows keeper.old) (K.rows keeper.new)
        (take heard.end buf.now) heard.is_ended (L.board links.old) (L.board links.new) (K.faults keeper.old) (K.faults keeper.new) }
    ensures read_failed { result ≡ Served.ReadFailed → heard.way ≡ Way.Failed }
    ensures write_failed { result ≡ Served.WriteFailed → Rose (L.faults links.old) (L.faults links.new) }
    ensures later { L.faults links.old ≤ L.faults links.new }
    ensures opened { L.is_open links.new ≡ true }
    ensures told { K.tells keeper.old → K.tells keeper.new }
    ensures setup { office.new.setup ≡ office.old.setup }
    ensures keeper_later { K.faults keeper.old ≤ K.faults keeper.new }
{
    let version = version_of(office);
    let bytes = &buf[..heard.end];
    match heard.way {
        Way::Gone => Served::Gone,
        Way::Failed => Served::ReadFailed,
        Way::Refused(fault) => send(
            alloc,
            links,
            refusal_status(fault),
            refusal_allow(fault),
            refusal_text(fault).as_bytes(),
        ),
        Way::Sees(look) => {
            let said = see(alloc, office, keeper, look);
            send_said(alloc, links, version, &said)
        }
        Way::Posts(start, end) => {
            let said = post(alloc, office, keeper, &bytes[start..end]);
            send_said(alloc, links, version, &said)
        }
    }
}

/// Serves the current connection, and finishes it.
pub fn serve<L: Links, K: Keeper>(
    alloc: Global,
    links: &mut L,
    keeper: &mut K,
    office: &mut Office,
    buf: &mut [u8],
    headers: &mut [HeaderSpan],
    router: &Router<Route>,
) -> Served
    requires opened { L.is_open links.old ≡ true }
    requires room { 73728 ≤ length buf.old }
    requires headers { length headers.old ≡ most_fields }
    requires routes { router.now ≡ three_routes }
    ensures serves { (history : List Entry) → StandsFor office.old history
        → Serves result office.old.setup office.new history (K.tells keeper.old) (K.rows keeper.old) (K.rows keeper.new)
        (L.board links.old) (L.board links.new) (K.faults keeper.old) (K.faults keeper.new) }
    ensures read_failed { result ≡ Served.ReadFailed → Rose (L.faults links.old) (L.faults links.new) }
    ensures write_failed { result ≡ Served.WriteFailed → Rose (L.faults links.old) (L.faults links.new) }
    ensures later { L.faults links.old ≤ L.faults links.new }
    ensures opened { L.is_open links.new ≡ false }
    ensures told { K.tells keeper.old → K.tells keeper.new }
    ensures setup { office.new.setup ≡ office.old.setup }
    ensures keeper_later { K.faults keeper.old ≤ K.faults keeper.new }
    ensures same { length buf.new ≡ length buf.old }
    ensures headers { length headers.new ≡ most_fields }
{
    let heard = hear(links, buf, headers, router);
    let served = respond(alloc, links, keeper, office, heard, buf);
    links.finish();
    served
}
