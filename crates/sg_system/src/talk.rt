//! One connection, and the time that it may last.
ghost use Rattle.std.specs.Prelude.{◌≡◌, ◌+◌, ◌-◌, ◌*◌, ◌<◌, ◌≤◌, IfOk, OnErr, nat_le};
ghost use Rattle.std.specs.Duration.{as_nanos};
ghost use Rattle.std.specs.Time.{instant_nanos};

use crate::streams::write_whole;
use std::io::{self, ErrorKind, Write};
use std::net::TcpStream;
use std::os::fd::{AsRawFd, RawFd};
use std::time::{Duration, Instant};

/// How many seconds the write of an answer may last at least, whatever time the connection has left.
const GRACE: u64 = 1;

/// A connection, and until when it may last.
#[derive(Drop)]
pub(crate) struct Talk {
    pub(crate) stream: TcpStream,
    pub(crate) until: Instant,
}

impl Talk {
    /// The descriptor of its stream.
    pub(crate) fn fd(&self) -> RawFd {
        self.stream.as_raw_fd()
    }

    /// Whether its time is over at this moment.
    pub(crate) fn is_over(&self, now: Instant) -> bool
        ensures { result ≡ nat_le (instant_nanos self.now.until) (instant_nanos now) }
    {
        self.until.duration_since(now).is_zero()
    }
}

/// The moment so many seconds later.
pub(crate) fn later(now: Instant, seconds: u64) -> io::Result<Instant>
    ensures { IfOk result (λ moment. instant_nanos moment ≡ instant_nanos now + seconds * 1000000000) }
{
    now.checked_add(Duration::from_secs(seconds))
        .ok_or(io::Error::from(ErrorKind::InvalidInput))
}

/// The time from a moment to a later one, where there is some.
pub(crate) fn some_left(now: Instant, until: Instant) -> io::Result<Duration>
    ensures ok { IfOk result (λ left. as_nanos left ≡ instant_nanos until - instant_nanos now) }
    ensures some { IfOk result (λ left. 0 < as_nanos left) }
    ensures over { OnErr result (instant_nanos until ≤ instant_nanos now) }
{
    let left = until.duration_since(now);
    if left.is_zero() {
        return Err(io::Error::from(ErrorKind::TimedOut));
    }
    Ok(left)
}

/// A piece that is sent until a moment.
#[derive(Drop)]
struct Sending<'a> {
    rt: &'a HostRuntime,
    stream: &'a TcpStream,
    until: Instant,
}

impl<'a> Write for Sending<'a> {
    fn write(&mut self, buf: &[u8]) -> io::Result<usize> {
        let left = some_left(Instant::now(self.rt)?, self.until)?;
        self.stream.set_write_timeout(Some(left))?;
        self.stream.write(buf)
    }

    fn flush(&mut self) -> io::Result<()> {
        Ok(())
    }
}

/// Sends the whole piece. It has the time that the connection has left, or a second where that is less.
pub(crate) fn send(rt: &HostRuntime, talk: &Talk, bytes: &[u8]) -> io::Result<()> {
    let until = later(Instant::now(rt)?, GRACE)?.max(talk.until);
    let stream = &talk.stream;
    write_whole(&mut Sending { rt, stream, until }, bytes)
}
