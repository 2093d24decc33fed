//! The length of a body, from header lines.

ghost use Rattle.std.specs.Prelude.{◌≡◌, ◌<◌, ◌≤◌, [], ◌∷◌, All, IfSome, MatchOption, IfOk, length, map, drop, take, Ok, Err, codes, min};
ghost use Rattle.std.specs.Char.{to_ascii_lowercase};
ghost use Rattle.sg_plan.specs.Limits.{longest_ask};
ghost use Rattle.httparse.specs.Spans.{IsHeaderWithin, header_bytes, span_bytes};
ghost use Rattle.sg_http.specs.Lengths.{is_named, values_of, digit_of, numeral, one_length, length_of};

use crate::refusal::Refusal;
use httparse::spans::{HeaderSpan, Span};
use sg_plan::limits::LONGEST_ASK;

/// Whether the word is this name without regard to case.
fn has_name(name: &[u8], word: &[u8]) -> bool
    requires { map to_ascii_lowercase name.now ≡ name.now }
    ensures { result ≡ is_named name.now word.now }
{
    word.eq_ignore_ascii_case(name)
}

/// A header line of this name: its value, and the place behind it.
#[derive(Clone, Copy)]
struct Line {
    value: Span,
    next: usize,
}

/// The first header line of this name, from a place on.
fn find_line(buf: &[u8], headers: &[HeaderSpan], name: &[u8], from: usize) -> Option<Line>
    requires within { All (IsHeaderWithin (length buf.now)) headers.now }
    requires lower { map to_ascii_lowercase name.now ≡ name.now }
    requires from { from ≤ length headers.now }
    ensures found { MatchOption result
        (values_of name.now (map (header_bytes buf.now) (drop from headers.now)) ≡ [])
        (λ line. values_of name.now (map (header_bytes buf.now) (drop from headers.now))
        ≡ span_bytes buf.now line.value ∷ values_of name.now (map (header_bytes buf.now) (drop line.next headers.now))) }
    ensures bounds { IfSome result (λ line. (line.next ≤ length headers.now) × (line.value.start ≤ line.value.end) × (line.value.end ≤ length buf.now)) }
{
    for at in from..headers.len() {
        let header = headers[at];
        if has_name(name, header.name.of(buf)) {
            return Some(Line {
                value: header.value,
                next: at + 1,
            });
        }
    }
    None
}

/// What a digit stands for.
fn read_digit(byte: u8) -> Option<usize>
    ensures { result ≡ digit_of byte }
{
    if !byte.is_ascii_digit() {
        return None;
    }
    Some(usize::from(byte - b'0'))
}

/// A number of one or more digits, at most the limit of a body.
fn read_numeral(value: &[u8]) -> Result<usize, Refusal>
    ensures exact { result ≡ numeral value.now }
    ensures most { IfOk result (λ n. n ≤ longest_ask) }
{
    if value.is_empty() {
        return Err(Refusal::BadLength);
    }
    let mut number = 0;
    for byte in value {
        let Some(digit) = read_digit(*byte) else {
            return Err(Refusal::BadLength);
        };
        number = (10 * number + digit).min(LONGEST_ASK + 1);
    }
    if number > LONGEST_ASK {
        return Err(Refusal::Size);
    }
    Ok(number)
}

/// The length that the header lines give the body.
pub fn body_length(buf: &[u8], headers: &[HeaderSpan]) -> Result<usize, Refusal>
    requires within { All (IsHeaderWithin (length buf.now)) headers.now }
    ensures exact { result ≡ length_of (map (header_bytes buf.now) headers.now) }
    ensures most { IfOk result (λ n. n ≤ longest_ask) }
{
    if find_line(buf, headers, b"transfer-encoding", 0).is_some() {
        return Err(Refusal::NoLength);
    }
    let Some(line) = find_line(buf, headers, b"content-length", 0) else {
        return Err(Refusal::NoLength);
    };
    if find_line(buf, headers, b"content-length", line.next).is_some() {
        return Err(Refusal::BadLength);
    }
    read_numeral(line.value.of(buf))
}
