//! Lines cut from a source.

ghost use Rattle.std.specs.Prelude.{◌≡◌, ℕ, List, ◌+◌, ◌-◌, ◌<◌, ◌≤◌, ◌∷◌, true, false, [], IfOk, OnErr, MatchOption, Contains, length, take, drop, slice_range};
ghost use Rattle.std.specs.Io.KnownBytes.{Consumes, Keeps, prepend_known};
ghost use Rattle.sg_outside.specs.Faults.{HasCause, Rose};
ghost use Rattle.sg_outside.specs.TextLines.{HasNoFeed, IsLine, lines_of};
ghost use Rattle.sg_outside.specs.Cutting.{Finds, cut_off, has_text, is_last, to_come};
ghost use Rattle.sg_outside.specs.inside.Buffer.{HasRead, IsWithin, found_in};

use crate::faults::{Failed, NoMemory};
use crate::streams::Source;
use memchr::memchr;
use std::alloc::Global;
use std::marker::Model;

/// What a line cutter found.
#[derive(Clone, Copy, Debug, PartialEq, Eq)]
pub enum Got {
    /// A line with its line feed.
    Line,
    /// The last bytes of the input, which have no line feed.
    Part,
    /// The first bytes of a line that has no line feed among them, as many as the limit.
    Long,
    /// The end of the input, with no byte left.
    End,
    /// The source failed.
    ReadFault,
}

/// Cuts lines from a source. It holds at most as many bytes as its limit, those of the last line included; and where it
/// met the end or a fault of the source, also the last line before.
#[derive(Debug, Drop)]
pub struct Lines {
    bytes: Vec<u8>,
    found: Found,
    last: Vec<u8>,
    last_len: usize,
}

impl Model for Lines {
    ghost use Rattle.std.specs.Prelude.{◌≡◌, ◌≤◌, length, take};
    ghost use Rattle.sg_outside.specs.Cutting.{Cutting};
    ghost use Rattle.sg_outside.specs.inside.Buffer.{IsWithin, found_in};

    ghost Value = { Cutting };

    ghost view = { λ l. found_in l.bytes.items (take l.last_len l.last.items) l.found };

    ghost invariant = { λ l.
        IsWithin l.bytes.items l.found × (length l.last.items ≡ length l.bytes.items) × (l.last_len ≤ length l.last.items) };
}

impl Lines {
    /// A cutter of lines of at most `limit` bytes, line feeds included. It takes no memory later.
    pub fn new(alloc: Global, limit: usize) -> Result<Lines, NoMemory>
        requires { 0 < limit }
        ensures { IfOk result (λ lines.
            lines ≡ record { limit = limit; text = []; ahead = []; is_over = false }) }
    {
        Ok(Lines {
            bytes: vec![in alloc; 0; limit]?,
            found: Found {
                got: Got::Line,
                start: 0,
                behind: 0,
                end: 0,
            },
            last: vec![in alloc; 0; limit]?,
            last_len: 0,
        })
    }

    /// Cuts the next line. It reads only while the bytes that it holds behind the last line have no
    /// line feed and are fewer than the limit. After any answer but `Line` each later one is `End`.
    pub fn next<S: Source>(&mut self, source: &mut S) -> Got
        // Once it is over, nothing changes, and the last text stays.
        ensures over { self.old.is_over ≡ true →
            (result ≡ Got.End) × (self.new ≡ self.old) × (source.new ≡ source.old) }
        ensures is_over { self.new.is_over ≡ is_last result }

        // What the answer cuts off is the front of what was to come, and the answer says how it ends.
        ensures cut { self.old.is_over ≡ false →
            Consumes (to_come self.old (S.left source.old)) (to_come self.new (S.left source.new)) (cut_off result self.new) }
        ensures found { self.old.is_over ≡ false → Finds result self.new (S.left source.new) }
        ensures kept { has_text result ≡ false → self.new.text ≡ self.old.text }
        ensures limit { self.new.limit ≡ self.old.limit }
        ensures few { has_text result ≡ true → length self.new.text + length self.new.ahead ≤ self.new.limit }

        // What is held is used before more is read.
        ensures ready { Contains self.old.ahead 10 → source.new ≡ source.old }
        ensures full { length self.old.ahead ≡ self.old.limit → source.new ≡ source.old }

        ensures later { S.faults source.old ≤ S.faults source.new }
        ensures failed { result ≡ Got.ReadFault → Rose (S.faults source.old) (S.faults source.new) }
    {
        if ends(self.found.got) {
            return Got::End;
        }
        self.last_len = self.found.behind - self.found.start;
        self.found = find_line(&mut self.bytes, self.found, &mut self.last, source);
        self.found.got
    }

    /// The bytes of the last `Line`, `Part` or `Long`, also behind an `End` or a `ReadFault`. There are none before the
    /// first.
    pub fn text(&self) -> &[u8]
        ensures { result.now ≡ self.now.text }
    {
        if tells(self.found.got) {
            &self.bytes[self.found.start..self.found.behind]
        } else {
            &self.last[..self.last_len]
        }
    }

    /// The bytes that are held behind the last answer.
    pub fn held(&self) -> &[u8]
        ensures { result.now ≡ self.now.ahead }
    {
        &self.bytes[self.found.behind..self.found.end]
    }
}

/// What was found, and where in the buffer its text stands, `start..behind`, and the bytes held behind it, `behind..end`.
#[derive(Clone, Copy, Debug)]
struct Found {
    got: Got,
    start: usize,
    behind: usize,
    end: usize,
}

/// Whether every answer after this one is `End`.
fn ends(got: Got) -> bool
    ensures { result ≡ is_last got }
{
    !matches!(got, Got::Line)
}

/// Whether the answer has a text.
fn tells(got: Got) -> bool
    ensures { result ≡ has_text got }
{
    !matches!(got, Got::End | Got::ReadFault)
}

/// Finds the line behind the one that was found before. Where it must read, it first copies that line's text to the
/// front of `last`.
fn find_line<S: Source>(buf: &mut [u8], before: Found, last: &mut [u8], source: &mut S) -> Found
    requires within { IsWithin buf.old before }
    requires room { length last.old ≡ length buf.old }
    ensures within { IsWithin buf.new result }
    ensures cut { (text : List ℕ) → let lines = found_in buf.new text result in
        Consumes (prepend_known (slice_range buf.old before.behind before.end) (S.left source.old)) (to_come lines (S.left source.new)) (cut_off result.got lines) }
    ensures found { (text : List ℕ) → Finds result.got (found_in buf.new text result) (S.left source.new) }
    ensures kept { has_text result.got ≡ false → take (before.behind - before.start) last.new ≡ slice_range buf.old before.start before.behind }
    ensures ready { Contains (slice_range buf.old before.behind before.end) 10 → source.new ≡ source.old }
    ensures full { length (slice_range buf.old before.behind before.end) ≡ length buf.old → source.new ≡ source.old }
    ensures later { S.faults source.old ≤ S.faults source.new }
    ensures failed { result.got ≡ Got.ReadFault → Rose (S.faults source.old) (S.faults source.new) }
{
    if let Some(count) = line_len(&buf[before.behind..before.end]) {
        return Found {
            got: Got::Line,
            start: before.behind,
            behind: before.behind + count,
            end: before.end,
        };
    }
    copy_text(&buf[before.start..before.behind], last);
    move_to_front(buf, before.behind, before.end);
    read_line(buf, before.end - before.behind, source)
}

/// Copies the text to the front of `last`.
fn copy_text(text: &[u8], last: &mut [u8])
    requires { length text.now ≤ length last.old }
    ensures { take (length text.now) last.new ≡ text.now }
{
    last[..text.len()].copy_from_slice(text);
}

/// Reads until there is a line, where `buf[..held]` are the bytes held and have no line feed.
fn read_line<S: Source>(buf: &mut [u8], held: usize, source: &mut S) -> Found
    requires bounds { held ≤ length buf.old }
    requires none { HasNoFeed (take held buf.old) }
    ensures within { IsWithin buf.new result }
    ensures cut { (text : List ℕ) → let lines = found_in buf.new text result in
        Consumes (prepend_known (take held buf.old) (S.left source.old)) (to_come lines (S.left source.new)) (cut_off result.got lines) }
    ensures found { (text : List ℕ) → Finds result.got (found_in buf.new text result) (S.left source.new) }
    ensures full { held ≡ length buf.old → source.new ≡ source.old }
    ensures later { S.faults source.old ≤ S.faults source.new }
    ensures failed { result.got ≡ Got.ReadFault → Rose (S.faults source.old) (S.faults source.new) }
{
    let mut end = held;
    while end < buf.len() {
        let Ok(count) = read_more(buf, end, source) else {
            return Found {
                got: Got::ReadFault,
                start: 0,
                behind: 0,
                end,
            };
        };
        if count == 0 {
            return Found {
                got: if end == 0 { Got::End } else { Got::Part },
                start: 0,
                behind: end,
                end,
            };
        }
        if let Some(len) = line_len(&buf[end..end + count]) {
            return Found {
                got: Got::Line,
                start: 0,
                behind: end + len,
                end: end + count,
            };
        }
        end += count;
    }
    Found {
        got: Got::Long,
        start: 0,
        behind: end,
        end,
    }
}

/// Reads into the room behind the first `end` bytes.
fn read_more<S: Source>(buf: &mut [u8], end: usize, source: &mut S) -> Result<usize, Failed>
    requires { end < length buf.old }
    ensures ok { IfOk result (λ count.
        HasRead buf.old buf.new end count (S.left source.old) (S.left source.new)) }
    ensures err { OnErr result (
        (take end buf.new ≡ take end buf.old) × Keeps (S.left source.old) (S.left source.new)) }
    ensures cause { HasCause (S.faults source.old) (S.faults source.new) result }
{
    let count = source.read(&mut buf[end..])?;
    Ok(count)
}

/// Moves `buf[from..end]` to the front.
fn move_to_front(buf: &mut [u8], from: usize, end: usize)
    requires order { from ≤ end }
    requires bounds { end ≤ length buf.old }
    ensures { take (end - from) buf.new ≡ slice_range buf.old from end }
{
    buf.copy_within(from..end, 0);
}

/// How long the first line is, if there is a line feed.
fn line_len(bytes: &[u8]) -> Option<usize>
    ensures { MatchOption result (HasNoFeed bytes.now) (λ count.
        (count ≤ length bytes.now) × IsLine (take count bytes.now)) }
{
    let at = memchr(b'\n', bytes)?;
    Some(at + 1)
}

/// Where the line that begins at `start` ends: behind the next line feed, or where the bytes end. It takes the time of
/// that line.
pub fn line_end(bytes: &[u8], start: usize) -> usize
    requires { start < length bytes.now }
    ensures more { start < result }
    ensures within { result ≤ length bytes.now }
    ensures line { lines_of (drop start bytes.now) ≡ slice_range bytes.now start result ∷ lines_of (drop result bytes.now) }
{
    match line_len(&bytes[start..]) {
        Some(count) => start + count,
        None => bytes.len(),
    }
}
