//! What no clause says of a sink: that it writes in time, that each way of it writes what it is given, and which cause it keeps.
use sg_outside::Sink;
use sg_system::StdSink;
use std::cell::Cell;
use std::io::{self, ErrorKind, Write};
use std::test::Fail;

/// A writer with room for so many bytes, which counts its writes. A write that finds no room fails.
#[derive(Drop)]
struct Disk<'a> {
    room: &'a Cell<usize>,
    writes: &'a Cell<u32>,
}

impl<'a> Write for Disk<'a> {
    fn write(&mut self, buf: &[u8]) -> io::Result<usize> {
        self.writes.set(self.writes.get().saturating_add(1));
        let room = self.room.get();
        let count = buf.len().min(room);
        if count == 0 {
            return Err(io::Error::from(ErrorKind::StorageFull));
        }
        self.room.set(room - count);
        Ok(count)
    }

    fn flush(&mut self) -> io::Result<()> {
        Ok(())
    }
}

/// The kind of what was told of the last write that failed.
fn kind_of(sink: &StdSink<Disk<'_>>) -> Option<ErrorKind> {
    sink.cause().map(|error| error.kind())
}

/// What is held fails at the flush, which tells the cause, and again at the next.
fn fails_at_flush(sink: &mut StdSink<Disk<'_>>) -> [bool; 6] {
    [
        sink.put(b"yes\n").is_ok(),
        sink.put(b"total 0 0 1\n").is_ok(),
        kind_of(sink).is_none(),
        sink.flush().is_err(),
        kind_of(sink) == Some(ErrorKind::StorageFull),
        sink.flush().is_err(),
    ]
}

#[test]
fn what_is_held_fails_at_the_flush(rt: HostRuntime) -> Result<(), Fail> {
    let (room, writes) = (Cell::new(3), Cell::new(0));
    let disk = Disk {
        room: &room,
        writes: &writes,
    };
    let mut sink = StdSink::held(rt.alloc(), disk)?;
    let found = fails_at_flush(&mut sink);
    drop(sink);
    assert!(rt; found == [true; 6]);
    Ok(())
}

/// Puts the same line so many times, and tells how many of them were put.
fn put_lines(sink: &mut StdSink<Disk<'_>>, count: u32) -> u32 {
    for at in 0..count {
        if sink.put(b"total 0 0 1\n").is_err() {
            return at;
        }
    }
    count
}

#[test]
fn what_is_held_is_written_when_it_is_full(rt: HostRuntime) -> Result<(), Fail> {
    let (room, writes) = (Cell::new(1_000_000), Cell::new(0));
    let disk = Disk {
        room: &room,
        writes: &writes,
    };
    let mut sink = StdSink::held(rt.alloc(), disk)?;
    let lines = put_lines(&mut sink, 10_000);
    let early = writes.get();
    let is_flushed = sink.flush().is_ok() && kind_of(&sink).is_none();
    drop(sink);
    assert!(rt; is_flushed);
    assert!(rt; [lines, early, writes.get()] == [10_000, 1, 2]);
    assert!(rt; room.get() == 880_000);
    Ok(())
}

#[test]
fn a_full_disk_fails_at_the_put_that_fills_it(rt: HostRuntime) -> Result<(), Fail> {
    let (room, writes) = (Cell::new(70_000), Cell::new(0));
    let disk = Disk {
        room: &room,
        writes: &writes,
    };
    let mut sink = StdSink::held(rt.alloc(), disk)?;
    let lines = put_lines(&mut sink, 20_000);
    let kind = kind_of(&sink);
    drop(sink);
    assert!(rt; lines == 10_922);
    assert!(rt; kind == Some(ErrorKind::StorageFull));
    Ok(())
}

#[test]
fn at_once_is_before_the_put_returns(rt: HostRuntime) -> Result<(), Fail> {
    let (room, writes) = (Cell::new(5), Cell::new(0));
    let disk = Disk {
        room: &room,
        writes: &writes,
    };
    let mut sink = StdSink::at_once(rt.alloc(), disk);
    let are_put = [sink.put(b"yes\n").is_ok(), sink.put(b"total\n").is_ok()];
    let left = room.get();
    let kind = kind_of(&sink);
    drop(sink);
    assert!(rt; are_put == [true, false]);
    assert!(rt; left == 0);
    assert!(rt; kind == Some(ErrorKind::StorageFull));
    Ok(())
}
