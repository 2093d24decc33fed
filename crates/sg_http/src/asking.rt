//! What a head asks for.

ghost use Rattle.std.specs.Prelude.{◌≡◌, ◌≤◌, All, length, map, take, codes, IfOk, IsUtf8};
ghost use Rattle.sg_http.specs.inside.Reading.{HasFewBytes};
ghost use Rattle.std.specs.Str.{bytes_eq};
ghost use Rattle.sg_plan.specs.Limits.{longest_ask};
ghost use Rattle.httparse.specs.Grammar.{RequestHead};
ghost use Rattle.httparse.specs.Spans.{IsHeaderWithin, IsRequestWithin, IsRequestAt, header_bytes};
ghost use Rattle.sg_http.specs.Lengths.{length_of};
ghost use Rattle.sg_http.specs.Places.{path_of, place_of, routes};
ghost use Rattle.sg_http.specs.Leads.{word_of, sized, asked_of};

use crate::fields::body_length;
use crate::refusal::{Refusal, Verb};
use crate::routes::{Place, Route, find_place};
use httparse::spans::{HeaderSpan, RequestSpans};
use matchit::Router;
use sg_acts::Look;

/// What a head asks for.
#[derive(Clone, Copy, Debug)]
pub enum Asked {
    /// Nothing: it is refused.
    Refused(Refusal),
    /// The ask that is a body of so many bytes.
    Body(usize),
    /// A look.
    Sees(Look),
}

/// What the path of a target leads to.
fn find_target(router: &Router<Route>, target: &[u8]) -> Option<Place>
    requires { router.now ≡ routes }
    ensures { IsUtf8 target.now → result ≡ place_of (path_of target.now) }
{
    let Ok(text) = str::from_utf8(target) else {
        return None;
    };
    match text.split_once('?') {
        Some((path, _)) => find_place(router, path),
        None => find_place(router, text),
    }
}

/// Whether the method is this one.
fn is_verb(method: &[u8], verb: Verb) -> bool
    ensures { result ≡ bytes_eq method.now (word_of verb) }
{
    match verb {
        Verb::Get => method == b"GET".as_slice(),
        Verb::Post => method == b"POST".as_slice(),
    }
}

/// A body of this length.
fn of_length(found: Result<usize, Refusal>) -> Asked
    requires { IfOk found (λ n. n ≤ longest_ask) }
    ensures exact { result ≡ sized found }
    ensures most { HasFewBytes result }
{
    match found {
        Ok(length) => Asked::Body(length),
        Err(fault) => Asked::Refused(fault),
    }
}

/// The length of the body that header lines tell.
fn find_length(buf: &[u8], headers: &[HeaderSpan], spans: &RequestSpans) -> Asked
    requires within { IsRequestWithin buf.now headers.now spans.now }
    ensures exact { result ≡ sized (length_of (map (header_bytes buf.now) (take spans.now.headers headers.now))) }
    ensures most { HasFewBytes result }
{
    of_length(body_length(buf, &headers[..spans.headers]))
}

/// What a head asks for.
pub fn find_asked(
    router: &Router<Route>,
    buf: &[u8],
    headers: &[HeaderSpan],
    spans: &RequestSpans,
) -> Asked
    requires routes { router.now ≡ routes }
    requires within { IsRequestWithin buf.now headers.now spans.now }
    ensures exact { (head : RequestHead) → IsRequestAt buf.now headers.now spans.now head → result ≡ asked_of head }
    ensures most { HasFewBytes result }
{
    let Some(place) = find_target(router, spans.path.of(buf)) else {
        return Asked::Refused(Refusal::Route);
    };
    let method = spans.method.of(buf);
    match place {
        Place::Ask => {
            if !is_verb(method, Verb::Post) {
                return Asked::Refused(Refusal::Method(Verb::Post));
            }
            find_length(buf, headers, spans)
        }
        Place::Receipt(ballot) => {
            if !is_verb(method, Verb::Get) {
                return Asked::Refused(Refusal::Method(Verb::Get));
            }
            Asked::Sees(Look::Receipt(ballot))
        }
        Place::Totals => {
            if !is_verb(method, Verb::Get) {
                return Asked::Refused(Refusal::Method(Verb::Get));
            }
            Asked::Sees(Look::Totals)
        }
    }
}
