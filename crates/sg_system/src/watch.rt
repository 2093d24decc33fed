//! A wait for descriptors at which something is to be read.
ghost use Rattle.std.specs.Prelude.{◌≡◌};
ghost use Rattle.sg_system.specs.Waits.{is_told, millis};

use libc::net::{POLLIN, poll};
use libc::types::pollfd;
use std::alloc::Global;
use std::io;
use std::os::fd::RawFd;
use std::time::Duration;

/// Descriptors, in an order, and what the last wait told of them.
#[derive(Drop)]
pub(crate) struct Watch {
    asked: Vec<pollfd>,
}

impl Watch {
    /// None, with room for so many.
    pub(crate) fn new(alloc: Global, room: usize) -> io::Result<Watch> {
        Ok(Watch {
            asked: Vec::with_capacity(alloc, room)?,
        })
    }

    /// Forgets them.
    pub(crate) fn clear(&mut self) {
        self.asked.clear();
    }

    /// Adds a descriptor behind the others.
    pub(crate) fn add(&mut self, fd: RawFd) -> io::Result<()> {
        self.asked.push(pollfd {
            fd,
            events: POLLIN,
            revents: 0,
        })?;
        Ok(())
    }

    /// Waits until something is to be read at one of them, or the time is up, or a signal came.
    pub(crate) fn wait(&mut self, left: Option<Duration>) -> io::Result<()> {
        let count = poll(&mut self.asked, millis(left));
        if count < 0 {
            return interrupted(os::errno());
        }
        Ok(())
    }

    /// Whether the last wait told that a read of the descriptor at this place does not wait.
    pub(crate) fn is_ready(&self, at: usize) -> bool
        ensures { result ≡ is_told self.now.asked.items at }
    {
        self.asked.get(at).is_some_and(|fd| fd.revents != 0)
    }
}

/// A wait that a signal ended told of nothing; any other error is one.
fn interrupted(code: i32) -> io::Result<()> {
    if code == libc::EINTR {
        return Ok(());
    }
    Err(io::Error::from_raw_os_error(code))
}

/// The time in milliseconds, rounded up, and cut to the 24 days that fit; without an end -1.
fn millis(left: Option<Duration>) -> i32
    ensures { result ≡ millis left }
{
    match left {
        Some(left) => left.as_nanos().div_ceil(1_000_000).min(i32::MAX as u128) as i32,
        None => -1,
    }
}
