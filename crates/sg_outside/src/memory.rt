//! A source and a sink in memory, which fail where they are told to.

ghost use Rattle.std.specs.Prelude.{◌≡◌, ◌<◌, ◌≤◌, [], ◌++◌, Some, IfOk, OnErr, is_err, length, take, drop};
ghost use Rattle.std.specs.Io.{ReadsAtMost};
ghost use Rattle.std.specs.Io.KnownBytes.{ReadConsumes};
ghost use Rattle.sg_outside.specs.Faults.{HasCause};
ghost use Rattle.sg_outside.specs.Streams.{PutAppends};
ghost use Rattle.sg_outside.specs.Memory.{after_failed_read, after_put, after_read, given_count, is_listed, put_fails, read_fails};

use crate::faults::{Failed, NoMemory};
use crate::streams::{Sink, Source};
use std::alloc::Global;
use std::marker::Model;

/// A source over bytes in memory.
#[derive(Debug, Drop)]
pub struct Bytes {
    bytes: Vec<u8>,
    taken: usize,
    piece: usize,
    fails: Vec<u32>,
    calls: u64,
    faults: u64,
}

impl Model for Bytes {
    ghost use Rattle.std.specs.Prelude.{◌<◌, ◌≤◌, vec_len, drop};
    ghost use Rattle.sg_outside.specs.Memory.{Reading};

    ghost Value = { Reading };

    ghost view = { λ b. record {
      left = drop b.taken b.bytes.items;
      piece = b.piece;
      fails = b.fails.items;
      calls = b.calls;
      faults = b.faults;
    } };

    ghost invariant = { λ b. (b.taken ≤ vec_len b.bytes) × (0 < b.piece) };
}

impl Bytes {
    /// A source of the bytes `left` that gives at most `piece` of them a call. Its calls are counted
    /// from 0; those in `fails` fail.
    pub fn new(left: Vec<u8>, piece: usize, fails: Vec<u32>) -> Bytes
        requires { 0 < piece }
        ensures { result ≡
            record { left = left.items; piece = piece; fails = fails.items; calls = 0; faults = 0 } }
    {
        Bytes {
            bytes: left,
            taken: 0,
            piece,
            fails,
            calls: 0,
            faults: 0,
        }
    }
}

impl Source for Bytes {
    ghost left = { λ source. Some source.left };

    ghost faults = { λ source. source.faults };

    fn read(&mut self, buf: &mut [u8]) -> Result<usize, Failed>
        ensures bound { ReadsAtMost result buf.new }
        ensures bytes { ReadConsumes (Some self.old.left) (Some self.new.left) result buf.new }
        ensures cause { HasCause self.old.faults self.new.faults result }

        // A listed call fails, and no other.
        ensures fails { is_err result ≡ read_fails self.old }
        ensures failed { OnErr result (self.new ≡ after_failed_read self.old) }
        ensures given { IfOk result (λ count.
            (count ≡ given_count self.old (length buf.old)) × (self.new ≡ after_read self.old count)) }
        ensures put { IfOk result (λ count. buf.new ≡ take count self.old.left ++ drop count buf.old) }
        ensures kept { OnErr result (buf.new ≡ buf.old) }
    {
        let call = self.calls;
        self.calls = call.saturating_add(1);
        if has_call(&self.fails, call) {
            self.faults = self.faults.saturating_add(1);
            return Err(Failed);
        }
        let count = self.piece.min(buf.len()).min(self.bytes.len() - self.taken);
        copy_front(buf, &self.bytes[self.taken..], count);
        self.taken += count;
        Ok(count)
    }
}

/// A sink in memory. It takes its room when it is made, and no memory later.
#[derive(Debug, Drop)]
pub struct Page {
    bytes: Vec<u8>,
    used: usize,
    fails: Vec<u32>,
    keeps: usize,
    calls: u64,
    faults: u64,
}

impl Model for Page {
    ghost use Rattle.std.specs.Prelude.{◌≤◌, vec_len, take};
    ghost use Rattle.sg_outside.specs.Memory.{Writing};

    ghost Value = { Writing };

    ghost view = { λ p. record {
      written = take p.used p.bytes.items;
      room = vec_len p.bytes;
      fails = p.fails.items;
      keeps = p.keeps;
      calls = p.calls;
      faults = p.faults;
    } };

    ghost invariant = { λ p. p.used ≤ vec_len p.bytes };
}

impl Page {
    /// An empty sink with room for `room` bytes. Its calls are counted from 0. Those in `fails` fail
    /// and append `keeps` bytes, at most the piece and the room left.
    pub fn new(alloc: Global, room: usize, fails: Vec<u32>, keeps: usize) -> Result<Page, NoMemory>
        ensures { IfOk result (λ page. page ≡
            record { written = []; room = room; fails = fails.items; keeps = keeps; calls = 0; faults = 0 }) }
    {
        Ok(Page {
            bytes: vec![in alloc; 0; room]?,
            used: 0,
            fails,
            keeps,
            calls: 0,
            faults: 0,
        })
    }

    /// The bytes appended so far.
    pub fn written(&self) -> &[u8]
        ensures { result.now ≡ self.now.written }
    {
        &self.bytes[..self.used]
    }
}

impl Sink for Page {
    ghost written = { λ sink. Some sink.written };

    ghost faults = { λ sink. sink.faults };

    fn put(&mut self, bytes: &[u8]) -> Result<(), Failed>
        ensures bytes { PutAppends (Some self.old.written) (Some self.new.written) result bytes.now }
        ensures cause { HasCause self.old.faults self.new.faults result }

        // A listed call fails, and one with a piece longer than the room left.
        ensures fails { is_err result ≡ put_fails self.old bytes.now }
        ensures after { self.new ≡ after_put self.old bytes.now }
    {
        let call = self.calls;
        self.calls = call.saturating_add(1);
        let is_listed = has_call(&self.fails, call);
        let room = self.bytes.len() - self.used;
        let fitting = bytes.len().min(room);
        let count = if is_listed {
            self.keeps.min(fitting)
        } else {
            fitting
        };
        copy_front(&mut self.bytes[self.used..], bytes, count);
        self.used += count;
        if is_listed || room < bytes.len() {
            self.faults = self.faults.saturating_add(1);
            return Err(Failed);
        }
        Ok(())
    }
}

/// Whether the list names the call of this number.
fn has_call(fails: &[u32], call: u64) -> bool
    ensures { result ≡ is_listed fails.now call }
{
    fails.iter().any(|listed| u64::from(*listed) == call)
}

/// Copies the first `count` bytes of `from` to the front of `buf`.
fn copy_front(buf: &mut [u8], from: &[u8], count: usize)
    requires room { count ≤ length buf.old }
    requires bytes { count ≤ length from.now }
    ensures { buf.new ≡ take count from.now ++ drop count buf.old }
{
    buf[..count].copy_from_slice(&from[..count]);
}
