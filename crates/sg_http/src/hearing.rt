//! The request of a connection is read.

ghost use Rattle.std.specs.Prelude.{◌≡◌, ◌≤◌, true, false, length, take, Option};
ghost use Rattle.sg_plan.specs.Limits.{longest_head, most_fields};
ghost use Rattle.httparse.specs.Spans.{IsRequestWithin, IsRequestOf};
ghost use Rattle.sg_links.specs.Board.{Board, Taken};
ghost use Rattle.sg_outside.specs.Faults.{Rose};
ghost use Rattle.sg_http.specs.Places.{routes};
ghost use Rattle.sg_http.specs.Leads.{TakesFew};
ghost use Rattle.sg_http.specs.inside.Reading.{Hears};
ghost use Rattle.sg_http.specs.declared.hearing.Way.TheVariants as Way;

use crate::asking::{Asked, find_asked};
use crate::body::{Came, read_rest};
use crate::heads::{Found, read_start};
use crate::refusal::Refusal;
use crate::routes::Route;
use httparse::spans::{HeaderSpan, RequestSpans};
use matchit::Router;
use sg_acts::Look;
use sg_links::Links;

/// What a connection's bytes come to.
#[derive(Clone, Copy, Debug)]
pub enum Way {
    Refused(Refusal),
    /// An ask, between these places of the buffer.
    Posts(usize, usize),
    Sees(Look),
    /// The connection ended with no byte.
    Gone,
    /// A read failed before.
    Failed,
}

/// What a connection's bytes come to, how many of the buffer they are, and whether its end was read.
#[derive(Clone, Copy, Debug)]
pub struct Heard {
    pub way: Way,
    pub end: usize,
    pub is_ended: bool,
}

/// Reads on behind a head.
fn hear_behind<L: Links>(
    links: &mut L,
    buf: &mut [u8],
    end: usize,
    headers: &[HeaderSpan],
    spans: &RequestSpans,
    router: &Router<Route>,
) -> Heard
    requires opened { L.is_open links.old ≡ true }
    requires room { 73728 ≤ length buf.old }
    requires end { end ≤ longest_head }
    requires headers { length headers.now ≡ most_fields }
    requires routes { router.now ≡ routes }
    requires within { IsRequestWithin (take end buf.old) headers.now spans.now }
    requires of { IsRequestOf (take end buf.old) headers.now spans.now }
    ensures taken { (first : Option Board) → Taken first (L.board links.old) (take end buf.old) false
        → Taken first (L.board links.new) (take result.end buf.new) result.is_ended }
    ensures bounds { result.end ≤ length buf.new }
    ensures few { TakesFew (take result.end buf.new) }
    ensures hears { Hears result.way (take result.end buf.new) result.is_ended }
    ensures failed { result.way ≡ Way.Failed → Rose (L.faults links.old) (L.faults links.new) }
    ensures later { L.faults links.old ≤ L.faults links.new }
    ensures same { length buf.new ≡ length buf.old }
    ensures opened { L.is_open links.new ≡ true }
{
    match find_asked(router, &buf[..end], headers, spans) {
        Asked::Refused(fault) => Heard {
            way: Way::Refused(fault),
            end,
            is_ended: false,
        },
        Asked::Sees(look) => Heard {
            way: Way::Sees(look),
            end,
            is_ended: false,
        },
        Asked::Body(count) => {
            let goal = spans.len + count;
            let rest = read_rest(links, buf, end, goal);
            let way = match rest.came {
                Came::All => Way::Posts(spans.len, goal),
                Came::Part => Way::Refused(Refusal::Body),
                Came::Failed => Way::Failed,
            };
            Heard {
                way,
                end: rest.end,
                is_ended: rest.is_ended,
            }
        }
    }
}

/// Reads the request of a connection.
pub fn hear<L: Links>(
    links: &mut L,
    buf: &mut [u8],
    headers: &mut [HeaderSpan],
    router: &Router<Route>,
) -> Heard
    requires opened { L.is_open links.old ≡ true }
    requires room { 73728 ≤ length buf.old }
    requires headers { length headers.old ≡ most_fields }
    requires routes { router.now ≡ routes }
    ensures taken { Taken (L.board links.old) (L.board links.new) (take result.end buf.new) result.is_ended }
    ensures bounds { result.end ≤ length buf.new }
    ensures few { TakesFew (take result.end buf.new) }
    ensures hears { Hears result.way (take result.end buf.new) result.is_ended }
    ensures failed { result.way ≡ Way.Failed → Rose (L.faults links.old) (L.faults links.new) }
    ensures later { L.faults links.old ≤ L.faults links.new }
    ensures same { length buf.new ≡ length buf.old }
    ensures headers { length headers.new ≡ most_fields }
    ensures opened { L.is_open links.new ≡ true }
{
    let start = read_start(links, buf, headers);
    let way = match start.found {
        Found::Gone => Way::Gone,
        Found::Failed => Way::Failed,
        Found::Refused(fault) => Way::Refused(fault),
        Found::Head(spans) => {
            return hear_behind(links, buf, start.end, headers, &spans, router);
        }
    };
    Heard {
        way,
        end: start.end,
        is_ended: start.is_ended,
    }
}
