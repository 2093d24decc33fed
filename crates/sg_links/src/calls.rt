//! Connections in memory, which fail where they are told to.

ghost use Rattle.std.specs.Prelude.{◌≡◌, ◌<◌, ◌≤◌, ◌++◌, true, false, All, IfOk, OnOk, OnErr, is_err, is_ok, length, take, drop, Some, ◌+◌, ◌-◌, ◌||◌, min, is_some, nat_le, option_map, vec_len};
ghost use Rattle.std.specs.Io.{ReadsAtMost};
ghost use Rattle.sg_outside.specs.Faults.{HasCause, Rose};
ghost use Rattle.sg_outside.specs.Memory.{is_listed};
ghost use Rattle.sg_links.specs.Board.{listens, accepts, on_current, takes, gets, finishes, Come, reads_end, SendsFront};
ghost use Rattle.sg_links.specs.Calling.{accept_fails, accepted, after_accept, after_finish, after_listen, after_put, after_read, call_fails, counted, given_count, new_calling, put_count, put_fails, sent_to};
ghost use Rattle.sg_links.specs.inside.Kept.{bytes_at, part_of, piece_at};

use crate::links::Links;
use sg_outside::{Failed, NoMemory};
use std::alloc::Global;
use std::marker::Model;

/// A connection to come.
#[derive(Debug, Drop)]
pub struct Incoming {
    /// Its bytes.
    pub bytes: Vec<u8>,
    /// How many of them a read gives at most, at least 1.
    pub piece: usize,
}

/// A connection that was accepted: the port then, how many of its bytes were taken, whether its end was read, and where
/// what it was sent stands; of the current one the end is not kept.
#[derive(Clone, Copy, Debug)]
struct Talk {
    port: Option<u16>,
    taken: usize,
    is_ended: bool,
    start: usize,
    end: usize,
}

/// No connection.
const NO_TALK: Talk = Talk {
    port: None,
    taken: 0,
    is_ended: false,
    start: 0,
    end: 0,
};

/// Connections in memory. They take their room when they are made, and no memory later.
#[derive(Debug, Drop)]
pub struct Calls {
    incoming: Vec<Incoming>,
    finished: Vec<Talk>,
    most: usize,
    current: Talk,
    is_open: bool,
    page: Vec<u8>,
    used: usize,
    port: Option<u16>,
    fails: Vec<u32>,
    calls: u64,
    faults: u64,
}

impl Model for Calls {
    ghost use Rattle.std.specs.Prelude.{drop, length, map, vec_capacity, vec_len};
    ghost use Rattle.sg_links.specs.Calling.{Calling};
    ghost use Rattle.sg_links.specs.inside.Kept.{IsKept, board_of};

    ghost Value = { Calling };

    ghost view = { λ c. record {
      board = board_of c.incoming.items c.finished.items c.current c.is_open c.page.items c.used c.port;
      pieces = map (λ i. i.piece) (drop (length c.finished.items) c.incoming.items);
      most = c.most;
      used = c.used;
      room = vec_len c.page;
      fails = c.fails.items;
      calls = c.calls;
      faults = c.faults;
    } };

    ghost invariant = { λ c. IsKept c.incoming.items c.finished.items (vec_capacity c.finished) c.most c.current c.is_open c.page.items c.used };
}

impl Calls {
    /// These connections in their order, with room for `most` of them, and for `room` bytes sent to all of them
    /// together. Its calls are counted from 0, without `finish`; those in `fails` fail.
    pub fn new(
        alloc: Global,
        incoming: Vec<Incoming>,
        most: usize,
        room: usize,
        fails: Vec<u32>,
    ) -> Result<Calls, NoMemory>
        requires { All (λ i. 0 < i.piece) incoming.items }
        ensures { IfOk result (λ calls. calls ≡ new_calling incoming.items most room fails.items) }
    {
        Ok(Calls {
            incoming,
            finished: Vec::with_capacity(alloc, most)?,
            most,
            current: NO_TALK,
            is_open: false,
            page: vec![in alloc; 0; room]?,
            used: 0,
            port: None,
            fails,
            calls: 0,
            faults: 0,
        })
    }

    /// How many connections were accepted.
    pub fn accepted(&self) -> usize
        ensures { result ≡ length (accepted self.now.board) }
    {
        if self.is_open {
            return self.finished.len() + 1;
        }
        self.finished.len()
    }

    /// What the accepted connection of this number was sent, counted from 0.
    pub fn sent(&self, at: usize) -> &[u8]
        requires { at < length (accepted self.now.board) }
        ensures { result.now ≡ sent_to self.now.board at }
    {
        match self.finished.get(at) {
            Some(talk) => part(&self.page, talk.start, talk.end),
            None => part(&self.page, self.current.start, self.used),
        }
    }

    /// Whether the next call is listed.
    fn call_fails(&self) -> bool
        ensures { result ≡ call_fails self.now }
    {
        has_call(&self.fails, self.calls)
    }

    /// Whether as many connections were accepted as there is room for.
    fn is_full(&self) -> bool
        ensures { result ≡ nat_le self.now.most (length self.now.board.finished) }
    {
        self.most <= self.finished.len()
    }

    /// Whether the next accept fails.
    fn accept_fails(&self) -> bool
        ensures { result ≡ accept_fails self.now }
    {
        self.call_fails() || self.is_full()
    }

    /// Whether the next put of this piece fails.
    fn put_fails(&self, piece: &[u8]) -> bool
        ensures { result ≡ put_fails self.now piece.now }
    {
        self.call_fails() || self.page.len() - self.used < piece.len()
    }

    /// How many bytes of this piece the next put sends.
    fn put_count(&self, piece: &[u8]) -> usize
        ensures count { result ≡ put_count self.now piece.now }
        ensures piece { result ≤ length piece.now }
        ensures room { self.now.used + result ≤ self.now.room }
        ensures all { put_fails self.now piece.now ≡ false → result ≡ length piece.now }
    {
        let room = self.page.len() - self.used;
        if self.call_fails() {
            return 0;
        }
        piece.len().min(room)
    }

    /// Counts a call, and a fault where it fails.
    fn count(&mut self, fails: bool)
        ensures same { self.new ≡ counted fails self.old }
        ensures board { self.new.board ≡ self.old.board }
        ensures opened { is_some self.new.board.current ≡ is_some self.old.board.current }
        ensures later { self.old.faults ≤ self.new.faults }
        ensures rose { fails ≡ true → Rose self.old.faults self.new.faults }
    {
        self.calls = self.calls.saturating_add(1);
        if fails {
            self.faults = self.faults.saturating_add(1);
        }
    }

    /// Listens on this port.
    fn set_port(&mut self, port: u16)
        ensures { self.new ≡ record self.old { board = listens port self.old.board } }
    {
        self.port = Some(port);
    }

    /// Makes the first connection still to come the current one.
    fn take_next(&mut self)
        requires closed { is_some self.old.board.current ≡ false }
        requires room { length self.old.board.finished < self.old.most }
        ensures { self.new ≡ record self.old { board = accepts self.old.board } }
    {
        self.current = Talk {
            port: self.port,
            taken: 0,
            is_ended: false,
            start: self.used,
            end: self.used,
        };
        self.is_open = true;
    }

    /// Gives the next bytes of the current connection.
    fn give(&mut self, buf: &mut [u8]) -> usize
        requires { is_some self.old.board.current ≡ true }
        ensures count { result ≡ given_count self.old (length buf.old) }
        ensures bound { result ≤ length buf.new }
        ensures given { self.new ≡ record self.old { board = on_current (takes (take result buf.new) (reads_end (length buf.old) result)) self.old.board } }
        ensures come { Come (Some self.old.board) (take result buf.new) (reads_end (length buf.old) result) }
        ensures rest { drop result buf.new ≡ drop result buf.old }
    {
        let room = buf.len();
        let number = self.finished.len();
        let count = copy_next(&self.incoming, number, self.current.taken, buf);
        self.current.taken += count;
        self.current.is_ended = either(self.current.is_ended, is_end(room, count));
        count
    }

    /// Sends this piece on the current connection.
    fn send(&mut self, piece: &[u8])
        requires current { is_some self.old.board.current ≡ true }
        requires room { self.old.used + length piece.now ≤ self.old.room }
        ensures { self.new ≡ record self.old { board = on_current (gets piece.now) self.old.board; used = self.old.used + length piece.now } }
    {
        put_at(&mut self.page, self.used, piece);
        self.used += piece.len();
    }
}

impl Links for Calls {
    ghost board = { λ calls. Some calls.board };

    ghost is_open = { λ calls. is_some calls.board.current };

    ghost faults = { λ calls. calls.faults };

    fn listen(&mut self, port: u16) -> Result<(), Failed>
        ensures ok { OnOk result (Some self.new.board ≡ option_map (listens port) (Some self.old.board)) }
        ensures err { OnErr result (Some self.new.board ≡ Some self.old.board) }
        ensures opened { is_some self.new.board.current ≡ is_some self.old.board.current }
        ensures cause { HasCause self.old.faults self.new.faults result }

        // A listed call fails, and no other.
        ensures fails { is_err result ≡ call_fails self.old }
        ensures failed { OnErr result (self.new ≡ counted true self.old) }
        ensures done { OnOk result (self.new ≡ after_listen port self.old) }
    {
        let fails = self.call_fails();
        self.count(fails);
        if fails {
            return Err(Failed);
        }
        self.set_port(port);
        Ok(())
    }

    fn accept(&mut self) -> Result<(), Failed>
        requires { is_some self.old.board.current ≡ false }
        ensures ok { OnOk result (Some self.new.board ≡ option_map accepts (Some self.old.board)) }
        ensures err { OnErr result (Some self.new.board ≡ Some self.old.board) }
        ensures opened { is_some self.new.board.current ≡ is_ok result }
        ensures cause { HasCause self.old.faults self.new.faults result }

        // A listed call fails, and one past the last connection that there is room for.
        ensures fails { is_err result ≡ accept_fails self.old }
        ensures failed { OnErr result (self.new ≡ counted true self.old) }
        ensures done { OnOk result (self.new ≡ after_accept self.old) }
    {
        let fails = self.accept_fails();
        self.count(fails);
        if fails {
            return Err(Failed);
        }
        self.take_next();
        Ok(())
    }

    fn read(&mut self, buf: &mut [u8]) -> Result<usize, Failed>
        requires { is_some self.old.board.current ≡ true }
        ensures bound { ReadsAtMost result buf.new }
        ensures come { IfOk result (λ count. Come (Some self.old.board) (take count buf.new) (reads_end (length buf.old) count)) }
        ensures ok { IfOk result (λ count. Some self.new.board
            ≡ option_map (on_current (takes (take count buf.new) (reads_end (length buf.old) count))) (Some self.old.board)) }
        ensures err { OnErr result (Some self.new.board ≡ Some self.old.board) }
        ensures opened { is_some self.new.board.current ≡ true }
        ensures cause { HasCause self.old.faults self.new.faults result }

        // A listed call fails, and no other.
        ensures fails { is_err result ≡ call_fails self.old }
        ensures failed { OnErr result (self.new ≡ counted true self.old) }
        ensures given { IfOk result (λ count. count ≡ given_count self.old (length buf.old)) }
        ensures done { IfOk result (λ count. self.new ≡ after_read (take count buf.new) (reads_end (length buf.old) count) self.old) }
        ensures rest { IfOk result (λ count. drop count buf.new ≡ drop count buf.old) }
        ensures kept { OnErr result (buf.new ≡ buf.old) }
    {
        let fails = self.call_fails();
        self.count(fails);
        if fails {
            return Err(Failed);
        }
        Ok(self.give(buf))
    }

    fn put(&mut self, bytes: &[u8]) -> Result<(), Failed>
        requires { is_some self.old.board.current ≡ true }
        ensures ok { OnOk result (Some self.new.board ≡ option_map (on_current (gets bytes.now)) (Some self.old.board)) }
        ensures err { OnErr result (SendsFront (Some self.old.board) (Some self.new.board) bytes.now) }
        ensures opened { is_some self.new.board.current ≡ true }
        ensures cause { HasCause self.old.faults self.new.faults result }

        // A listed call fails and sends nothing; one with a piece longer than the room left fails and sends what fits.
        ensures fails { is_err result ≡ put_fails self.old bytes.now }
        ensures after { self.new ≡ after_put bytes.now self.old }
    {
        let fails = self.put_fails(bytes);
        let count = self.put_count(bytes);
        self.count(fails);
        self.send(&bytes[..count]);
        if fails {
            return Err(Failed);
        }
        Ok(())
    }

    fn finish(&mut self)
        requires { is_some self.old.board.current ≡ true }
        ensures board { Some self.new.board ≡ option_map finishes (Some self.old.board) }
        ensures opened { is_some self.new.board.current ≡ false }
        ensures faults { self.new.faults ≡ self.old.faults }
        ensures after { self.new ≡ after_finish self.old }
    {
        self.is_open = false;
        let mut current = self.current;
        current.end = self.used;
        let Ok(()) = self.finished.push(current) else {
            unreachable!();
        };
    }
}

/// The bytes of the page from one place up to another.
fn part(page: &[u8], start: usize, end: usize) -> &[u8]
    requires order { start ≤ end }
    requires within { end ≤ length page.now }
    ensures { result.now ≡ part_of page.now start end }
{
    let front = &page[..end];
    &front[start..]
}

/// Puts this piece at this place of the page.
fn put_at(page: &mut Vec<u8>, at: usize, piece: &[u8])
    requires { at + length piece.now ≤ vec_len page.old }
    ensures front { take (at + length piece.now) page.new.items ≡ take at page.old.items ++ piece.now }
    ensures same { vec_len page.new ≡ vec_len page.old }
{
    page[at..at + piece.len()].copy_from_slice(piece);
}

/// Whether a read of this many bytes into this much room has read the end.
fn is_end(room: usize, count: usize) -> bool
    ensures { result ≡ reads_end room count }
{
    room != 0 && count == 0
}

/// Whether one of the two holds.
fn either(first: bool, second: bool) -> bool
    ensures { result ≡ (first || second) }
{
    first || second
}

/// Copies the next bytes of the connection of this number, behind those taken, to the front of `buf`.
fn copy_next(incoming: &[Incoming], number: usize, taken: usize, buf: &mut [u8]) -> usize
    requires { taken ≤ length (bytes_at incoming.now number) }
    ensures count { result ≡ min (min (piece_at incoming.now number) (length buf.old)) (length (bytes_at incoming.now number) - taken) }
    ensures given { buf.new ≡ take result (drop taken (bytes_at incoming.now number)) ++ drop result buf.old }
    ensures end { All (λ i. 0 < i.piece) incoming.now → result ≡ 0 → 0 < length buf.old → taken ≡ length (bytes_at incoming.now number) }
{
    if number >= incoming.len() {
        return 0;
    }
    let next = &incoming[number];
    let count = next.piece.min(buf.len()).min(next.bytes.len() - taken);
    copy_front(buf, &next.bytes[taken..], count);
    count
}

/// Whether the list names the call of this number.
fn has_call(fails: &[u32], call: u64) -> bool
    ensures { result ≡ is_listed fails.now call }
{
    fails.iter().any(|listed| u64::from(*listed) == call)
}

/// Copies the first `count` bytes of `from` to the front of `buf`.
fn copy_front(buf: &mut [u8], from: &[u8], count: usize)
    requires room { count ≤ length buf.old }
    requires bytes { count ≤ length from.now }
    ensures { buf.new ≡ take count from.now ++ drop count buf.old }
{
    buf[..count].copy_from_slice(&from[..count]);
}
