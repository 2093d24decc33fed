//! Connections that were answered, until their peers have ended them too.

use crate::talk::later;
use crate::watch::Watch;
use std::alloc::Global;
use std::io::{self, ErrorKind, Read};
use std::net::{Shutdown, TcpStream};
use std::os::fd::AsRawFd;
use std::time::Instant;

/// How many seconds a peer may be silent behind its answer.
pub(crate) const LINGER: u64 = 1;

/// How many seconds a peer may go on sending behind its answer.
const SENDING: u64 = 10;

/// So many connections leave at once at most.
pub(crate) const LEAVING_ROOM: usize = 128;

/// So many bytes of a connection that leaves are read at most in one turn.
const DROPPED: usize = 16_384;

/// A connection that leaves, until when nothing may come of it, and until when anything may.
#[derive(Drop)]
struct Leaver {
    stream: TcpStream,
    until: Instant,
    end: Instant,
}

/// Connections on which the answer is sent and the end is told. What their peers still send is read and dropped, since closing
/// a connection with bytes unread would reset it, and a peer may lose its answer then.
#[derive(Drop)]
pub(crate) struct Leaving {
    leavers: Vec<Leaver>,
    dropped: Vec<u8>,
}

impl Leaving {
    /// None, with room for as many as may leave at once.
    pub(crate) fn new(alloc: Global) -> io::Result<Leaving> {
        Ok(Leaving {
            leavers: Vec::with_capacity(alloc, LEAVING_ROOM)?,
            dropped: vec![in alloc; 0; DROPPED]?,
        })
    }

    /// Whether there is none.
    pub(crate) fn is_empty(&self) -> bool {
        self.leavers.is_empty()
    }

    /// When the first one's time is over. Another's is within a second of it.
    pub(crate) fn until(&self) -> Option<Instant> {
        self.leavers.first().map(|leaver| leaver.until)
    }

    /// Tells the peer that nothing more comes, and waits for its end. Where as many leave as may, the oldest is let go.
    pub(crate) fn add(&mut self, stream: TcpStream, now: Instant) -> io::Result<()> {
        stream.shutdown(Shutdown::Write)?;
        if self.leavers.len() >= LEAVING_ROOM {
            self.let_one_go();
        }
        let until = later(now, LINGER)?;
        let end = later(now, SENDING)?;
        self.leavers.push(Leaver { stream, until, end })?;
        Ok(())
    }

    /// Lets the oldest go, where there is one, and says whether there was.
    pub(crate) fn let_one_go(&mut self) -> bool {
        if self.leavers.is_empty() {
            return false;
        }
        drop(self.leavers.remove(0));
        true
    }

    /// Has them watched, in their order.
    pub(crate) fn watch(&self, watch: &mut Watch) -> io::Result<()> {
        for leaver in self.leavers.iter() {
            watch.add(leaver.stream.as_raw_fd())?;
        }
        Ok(())
    }

    /// Reads what came of those that are watched from this place on, and lets those go that ended or failed, were silent for too
    /// long or sent for too long.
    pub(crate) fn drain(&mut self, watch: &Watch, first: usize, now: Instant) {
        let mut at = 0;
        for place in first..first.saturating_add(self.leavers.len()) {
            if at >= self.leavers.len() {
                return;
            }
            let is_ready = watch.is_ready(place);
            match stays_until(&self.leavers[at], is_ready, now, &mut self.dropped) {
                Some(until) => {
                    self.leavers[at].until = until;
                    at += 1;
                }
                None => drop(self.leavers.remove(at)),
            }
        }
    }
}

/// Until when a connection that leaves stays, behind a read where something came.
fn stays_until(
    leaver: &Leaver,
    is_ready: bool,
    now: Instant,
    dropped: &mut [u8],
) -> Option<Instant> {
    if !is_ready {
        return ahead(leaver.until, now);
    }
    if is_ended(&leaver.stream, dropped) {
        return None;
    }
    let until = later(now, LINGER).ok()?;
    ahead(until.min(leaver.end), now)
}

/// A moment, unless it has come.
fn ahead(until: Instant, now: Instant) -> Option<Instant> {
    if until.duration_since(now).is_zero() {
        return None;
    }
    Some(until)
}

/// Whether a read of the connection finds its end or fails.
fn is_ended(mut stream: &TcpStream, dropped: &mut [u8]) -> bool {
    match stream.read(dropped) {
        Ok(count) => count == 0,
        Err(error) => error.kind() != ErrorKind::Interrupted,
    }
}
