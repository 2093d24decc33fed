//! The head of a request is read.

ghost use Rattle.std.specs.Prelude.{◌≡◌, ◌≢◌, Some, ◌+◌, ◌<◌, ◌≤◌, ◌⊎◌, ◌==◌, true, false, IfOk, IfSome, IfNone, OnErr, IsTrue, [], length, take, slice_range, count_by};
ghost use Rattle.sg_plan.specs.Limits.{longest_head, most_fields};
ghost use Rattle.sg_outside.specs.Faults.{HasCause, Rose};
ghost use Rattle.sg_http.specs.Leads.{HasNoHead, feeds};
ghost use Rattle.sg_http.specs.declared.heads.Found.TheVariants as Found;
ghost use Rattle.sg_http.specs.declared.refusal.Refusal.TheVariants as Refusal;
ghost use Rattle.sg_links.specs.Board.{Taken};
ghost use Rattle.sg_http.specs.inside.Reading.{FindsHead, HasRead};

use crate::refusal::Refusal;
use httparse::spans::{HeaderSpan, RequestSpans, parse_request};
use httparse::{Error, Status};
use sg_links::Links;
use sg_outside::Failed;
use sg_plan::limits::LONGEST_HEAD;

/// As many line feeds has a head at most.
const FEED_LIMIT: usize = 66;

/// What was found at the front of a connection.
#[derive(Clone, Copy, Debug)]
pub enum Found {
    Head(RequestSpans),
    Refused(Refusal),
    Gone,
    Failed,
}

/// What was found, in how many bytes, and whether the connection's end was read.
#[derive(Clone, Copy, Debug)]
pub struct Start {
    pub found: Found,
    pub end: usize,
    pub is_ended: bool,
}

/// How many line feeds there are.
fn count_feeds(bytes: &[u8]) -> usize
    ensures { result ≡ feeds bytes.now }
{
    bytes.iter().filter(|b| **b == b'\n').count()
}

/// Whether the first `end` bytes are to be judged behind the read that brought the last of them: it brought a line feed, or
/// they are twice as many as those that were judged before. So a head is judged as often as it has line feeds, and bytes that
/// can begin none are not waited on for one.
fn is_due(brought: &[u8], end: usize, judged: usize) -> bool
    ensures { result ≡ false → feeds brought.now ≡ 0 }
{
    count_feeds(brought) != 0 || judged <= end / 2
}

/// What is found in bytes at whose front no head stands, if that is settled.
fn judge_part(bytes: &[u8], is_full: bool) -> Option<Found>
    requires { is_full ≡ true → length bytes.now ≡ longest_head }
    ensures some { IfSome result (λ found. HasNoHead bytes.now → FindsHead found bytes.now [] false) }
    ensures heard { result ≢ Some Found.Failed }
    ensures none { IfNone result (is_full ≡ false) }
{
    if count_feeds(bytes) > FEED_LIMIT {
        return Some(Found::Refused(Refusal::Headers));
    }
    if is_full {
        return Some(Found::Refused(Refusal::Head));
    }
    None
}

/// What is found in bytes, if that is settled. `is_full` says that no head has more bytes.
fn judge(bytes: &[u8], headers: &mut [HeaderSpan], is_full: bool) -> Option<Found>
    requires room { length headers.old ≡ most_fields }
    requires full { is_full ≡ true → length bytes.now ≡ longest_head }
    ensures some { IfSome result (λ found. FindsHead found bytes.now headers.new false) }
    ensures heard { result ≢ Some Found.Failed }
    ensures none { IfNone result (HasNoHead bytes.now) }
    ensures more { IfNone result (is_full ≡ false) }
{
    match parse_request(bytes, headers) {
        Ok(Status::Complete(spans)) => Some(Found::Head(spans)),
        Ok(Status::Partial) => judge_part(bytes, is_full),
        Err(Error::TooManyHeaders) => judge_part(bytes, is_full),
        Err(_) => Some(Found::Refused(Refusal::Head)),
    }
}

/// Reads into the room from `end` up to `limit`.
pub fn read_more<L: Links>(
    links: &mut L,
    buf: &mut [u8],
    end: usize,
    limit: usize,
) -> Result<usize, Failed>
    requires opened { L.is_open links.old ≡ true }
    requires room { end < limit }
    requires bounds { limit ≤ length buf.old }
    ensures ok { IfOk result (HasRead buf.old buf.new end limit) }
    ensures taken { IfOk result (λ count.
        Taken (L.board links.old) (L.board links.new) (slice_range buf.new end (end + count)) (count == 0)) }
    ensures kept { OnErr result (L.board links.new ≡ L.board links.old) }
    ensures front { OnErr result (take end buf.new ≡ take end buf.old) }
    ensures same { length buf.new ≡ length buf.old }
    ensures opened { L.is_open links.new ≡ true }
    ensures cause { HasCause (L.faults links.old) (L.faults links.new) result }
{
    let count = links.read(&mut buf[end..limit])?;
    Ok(count)
}

/// Reads a connection up to the end of its head.
pub fn read_start<L: Links>(links: &mut L, buf: &mut [u8], headers: &mut [HeaderSpan]) -> Start
    requires opened { L.is_open links.old ≡ true }
    requires room { longest_head ≤ length buf.old }
    requires headers { length headers.old ≡ most_fields }
    ensures taken { Taken (L.board links.old) (L.board links.new) (take result.end buf.new) result.is_ended }
    ensures end { result.end ≤ longest_head }
    ensures found { FindsHead result.found (take result.end buf.new) headers.new result.is_ended }
    ensures failed { result.found ≡ Found.Failed → Rose (L.faults links.old) (L.faults links.new) }
    ensures later { L.faults links.old ≤ L.faults links.new }
    ensures same { length buf.new ≡ length buf.old }
    ensures opened { L.is_open links.new ≡ true }
{
    let mut end = 0;
    let mut judged = 0;
    loop {
        let Ok(count) = read_more(links, buf, end, LONGEST_HEAD) else {
            return Start {
                found: Found::Failed,
                end,
                is_ended: false,
            };
        };
        if count == 0 {
            return Start {
                found: at_end(end),
                end,
                is_ended: true,
            };
        }
        let due = is_due(&buf[end..end + count], end + count, judged);
        end += count;
        let is_full = end == LONGEST_HEAD;
        if due || is_full {
            if let Some(found) = judge(&buf[..end], headers, is_full) {
                return Start {
                    found,
                    end,
                    is_ended: false,
                };
            }
            judged = end;
        }
    }
}

/// What a connection is that ended behind so many bytes without a head.
fn at_end(end: usize) -> Found
    ensures none { end ≡ 0 → result ≡ Found.Gone }
    ensures some { 0 < end → result ≡ Found.Refused Refusal.Head }
{
    if end == 0 {
        return Found::Gone;
    }
    Found::Refused(Refusal::Head)
}
