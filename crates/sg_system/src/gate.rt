//! The listener, the connections that wait to be handed over, and those that leave.
ghost use Rattle.std.specs.Prelude.{◌≡◌, ◌<◌, ◌||◌, IfSome, length, nat_le};
ghost use Rattle.std.specs.Time.{instant_nanos};
ghost use Rattle.sg_system.specs.Waits.{first_due, is_told};

use crate::leaving::{LEAVING_ROOM, LINGER, Leaving};
use crate::talk::{Talk, later, some_left};
use crate::watch::Watch;
use std::io::{self, ErrorKind};
use std::net::{Ipv4Addr, SocketAddr, TcpListener, TcpStream};
use std::os::fd::AsRawFd;
use std::time::{Duration, Instant};

/// How many seconds a connection may last. What is not read by then is a failed read.
const LONGEST: u64 = 10;

/// So many connections wait at once at most.
const WAITING_ROOM: usize = 256;

/// Descriptors that are watched at once at most: the listener or the current connection, those that wait and those that leave.
const WATCHED: usize = 1 + WAITING_ROOM + LEAVING_ROOM;

/// The place of the listener, or of the current connection, among what is watched.
const FRONT: usize = 0;

/// What the system says where it has no further descriptor, and where the process may have none.
const NO_DESCRIPTOR: [i32; 2] = [23, libc::EMFILE];

/// A listener on 127.0.0.1 with its connections. It takes its room when it is made.
#[derive(Drop)]
pub(crate) struct Gate<'a> {
    rt: &'a HostRuntime,
    listener: TcpListener,
    waiting: Vec<Talk>,
    leaving: Leaving,
    watch: Watch,
}

impl<'a> Gate<'a> {
    /// Listens on this port.
    pub(crate) fn new(rt: &'a HostRuntime, port: u16) -> io::Result<Gate<'a>> {
        let alloc = rt.alloc();
        let waiting = Vec::with_capacity(alloc, WAITING_ROOM)?;
        let leaving = Leaving::new(alloc)?;
        let watch = Watch::new(alloc, WATCHED)?;
        let listener = TcpListener::bind(rt, (Ipv4Addr::LOCALHOST, port))?;
        listener.set_nonblocking(true)?;
        Ok(Gate {
            rt,
            listener,
            waiting,
            leaving,
            watch,
        })
    }

    /// The address that is listened on.
    pub(crate) fn address(&self) -> io::Result<SocketAddr> {
        self.listener.local_addr()
    }

    /// Takes the first connection, in the order in which they came, at which something is to be read or whose time is over.
    pub(crate) fn take_next(&mut self) -> io::Result<Talk> {
        for _ in 0..u64::MAX {
            if let Some(talk) = self.turn()? {
                return Ok(talk);
            }
        }
        Err(io::Error::from(ErrorKind::Interrupted))
    }

    /// Waits once, and takes a connection where one is due.
    fn turn(&mut self) -> io::Result<Option<Talk>> {
        self.watch.clear();
        self.watch.add(self.listener.as_raw_fd())?;
        watch_all(&self.waiting, &mut self.watch)?;
        let until = first_end(&self.waiting);
        let leaving = FRONT + 1 + self.waiting.len();
        let now = self.wait(until, leaving)?;
        let due = take_due(&mut self.waiting, &self.watch, now);
        if due.is_some() || !self.watch.is_ready(FRONT) {
            return Ok(due);
        }
        self.let_in(now)
    }

    /// Waits until something came or a time is over, and reads what came of those that leave, which are watched from this
    /// place on. Answers the moment.
    fn wait(&mut self, until: Option<Instant>, leaving: usize) -> io::Result<Instant> {
        self.leaving.watch(&mut self.watch)?;
        let left = time_left(Instant::now(self.rt)?, earlier(until, self.leaving.until()));
        self.watch.wait(left)?;
        let now = Instant::now(self.rt)?;
        self.leaving.drain(&self.watch, leaving, now);
        Ok(now)
    }

    /// Lets one connection in, to wait. Where there is no room for it, the time of the oldest one is over.
    fn let_in(&mut self, now: Instant) -> io::Result<Option<Talk>> {
        if self.waiting.len() >= WAITING_ROOM {
            return Ok(take_oldest(&mut self.waiting, now));
        }
        let until = later(now, LONGEST)?;
        match self.listener.accept() {
            Ok((stream, _)) => {
                self.waiting.push(Talk { stream, until })?;
                Ok(None)
            }
            Err(error) if is_passing(&error) => Ok(None),
            Err(error) if is_no_descriptor(&error) => self.make_room(error, now),
            Err(error) => Err(error),
        }
    }

    /// Frees the descriptor of the oldest connection that leaves, or else takes the oldest one that waits, whose time is over.
    fn make_room(&mut self, error: io::Error, now: Instant) -> io::Result<Option<Talk>> {
        if self.leaving.let_one_go() {
            return Ok(None);
        }
        match take_oldest(&mut self.waiting, now) {
            Some(talk) => Ok(Some(talk)),
            None => Err(error),
        }
    }

    /// Waits until something is to be read of this connection. Its time may be over before.
    pub(crate) fn wait_for(&mut self, talk: &Talk) -> io::Result<()> {
        for _ in 0..u64::MAX {
            some_left(Instant::now(self.rt)?, talk.until)?;
            self.watch.clear();
            self.watch.add(talk.fd())?;
            self.wait(Some(talk.until), FRONT + 1)?;
            if self.watch.is_ready(FRONT) {
                return Ok(());
            }
        }
        Err(io::Error::from(ErrorKind::Interrupted))
    }

    /// Lets a connection leave. One that its peer has broken off is gone.
    pub(crate) fn let_leave(&mut self, stream: TcpStream) {
        if let Ok(now) = Instant::now(self.rt) {
            let _gone = self.leaving.add(stream, now);
        }
    }

    /// Ends the listening, and waits for those that leave, at most so long as one of them may.
    pub(crate) fn close(self) -> io::Result<()> {
        let Gate {
            rt,
            listener,
            waiting,
            leaving,
            watch,
        } = self;
        drop(listener);
        drop(waiting);
        see_off(rt, leaving, watch)
    }
}

/// Waits for those that leave, at most so long as one of them may.
fn see_off(rt: &HostRuntime, mut leaving: Leaving, mut watch: Watch) -> io::Result<()> {
    let until = later(Instant::now(rt)?, LINGER)?;
    for _ in 0..u64::MAX {
        if leaving.is_empty() {
            return Ok(());
        }
        let left = some_left(Instant::now(rt)?, until)?;
        watch.clear();
        leaving.watch(&mut watch)?;
        watch.wait(Some(left))?;
        leaving.drain(&watch, FRONT, Instant::now(rt)?);
    }
    Ok(())
}

/// Has connections watched, in their order.
fn watch_all(talks: &[Talk], watch: &mut Watch) -> io::Result<()> {
    for talk in talks {
        watch.add(talk.fd())?;
    }
    Ok(())
}

/// When the first one's time is over.
fn first_end(talks: &[Talk]) -> Option<Instant> {
    talks.first().map(|talk| talk.until)
}

/// The earlier of two moments, where there is one.
fn earlier(one: Option<Instant>, other: Option<Instant>) -> Option<Instant> {
    match (one, other) {
        (Some(one), Some(other)) => Some(one.min(other)),
        (Some(one), None) => Some(one),
        (None, other) => other,
    }
}

/// The time until a moment, where there is one.
fn time_left(now: Instant, until: Option<Instant>) -> Option<Duration> {
    until.map(|until| until.duration_since(now))
}

/// Which connection is the first at which something is to be read or whose time is over. They are watched behind the front.
fn first_due(waiting: &[Talk], watch: &Watch, now: Instant) -> Option<usize>
    ensures first { result ≡ first_due 0 watch.now.asked.items (instant_nanos now) waiting.now }
    ensures bound { IfSome result (λ at. at < length waiting.now) }
{
    for at in 0..waiting.len() {
        if is_due(watch, at + 1, &waiting[at], now) {
            return Some(at);
        }
    }
    None
}

/// Whether something is to be read of a connection, which is watched at this place, or its time is over.
fn is_due(watch: &Watch, place: usize, talk: &Talk, now: Instant) -> bool
    ensures { result ≡ (is_told watch.now.asked.items place || nat_le (instant_nanos talk.now.until) (instant_nanos now)) }
{
    watch.is_ready(place) || talk.is_over(now)
}

/// Takes that connection.
fn take_due(waiting: &mut Vec<Talk>, watch: &Watch, now: Instant) -> Option<Talk> {
    let at = first_due(waiting, watch, now)?;
    Some(waiting.remove(at))
}

/// Takes the oldest connection, whose time is over.
fn take_oldest(waiting: &mut Vec<Talk>, now: Instant) -> Option<Talk> {
    if waiting.is_empty() {
        return None;
    }
    let Talk { stream, until: _ } = waiting.remove(0);
    Some(Talk { stream, until: now })
}

/// Whether an accept is to be tried again: the connection ended before it was taken, or none is there, or a signal came.
fn is_passing(error: &io::Error) -> bool {
    match error.kind() {
        ErrorKind::Interrupted | ErrorKind::ConnectionAborted | ErrorKind::WouldBlock => true,
        _ => false,
    }
}

/// Whether there was no descriptor for a connection.
fn is_no_descriptor(error: &io::Error) -> bool {
    match error.raw_os_error() {
        Some(code) => NO_DESCRIPTOR.contains(&code),
        None => false,
    }
}
