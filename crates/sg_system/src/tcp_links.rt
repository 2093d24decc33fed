//! Connections from this machine. They count their faults, keep the cause of the last one, and tell nothing of their bytes.
ghost use Rattle.std.specs.Prelude.{◌≡◌, ◌≤◌, None, false, is_some, IfOk, length};
ghost use Rattle.std.specs.Option.{option_map};
ghost use Rattle.sg_outside.specs.Faults.{Rose};

use crate::gate::Gate;
use crate::streams::read_on;
use crate::talk::{Talk, send};
use sg_links::Links;
use sg_outside::Failed;
use std::io::{self, ErrorKind};
use std::net::SocketAddr;

/// A listener on 127.0.0.1.
///
/// A connection is handed over when something is to be read of it, or its end, so one that is silent keeps no other waiting.
/// Each may last ten seconds; what is not read by then is a failed read. The write of an answer has a second of its own at least.
/// When a connection is finished, its peer is told, and what it still sends is read and dropped while others are served.
#[derive(Drop)]
pub struct TcpLinks<'a> {
    rt: &'a HostRuntime,
    gate: Option<Gate<'a>>,
    talk: Option<Talk>,
    faults: u64,
    cause: Option<io::Error>,
}

impl<'a> TcpLinks<'a> {
    /// Without a port or a connection, and with no fault counted.
    pub fn new(rt: &'a HostRuntime) -> TcpLinks<'a>
        ensures faults { result.faults ≡ 0 }
        ensures closed { is_some result.talk ≡ false }
    {
        TcpLinks {
            rt,
            gate: None,
            talk: None,
            faults: 0,
            cause: None,
        }
    }

    /// What the system said of the last call that failed.
    pub fn cause(&self) -> Option<&io::Error>
        ensures { option_map (λ error. error.now) result ≡ self.now.cause }
    {
        self.cause.as_ref()
    }

    /// The address that is listened on.
    pub fn address(&self) -> io::Result<SocketAddr> {
        match &self.gate {
            Some(gate) => gate.address(),
            None => Err(not_listening()),
        }
    }

    /// Ends the listening, and waits, at most a second, until the peers of the finished connections have ended them too.
    pub fn close(&mut self)
        ensures faults { self.new.faults ≡ self.old.faults }
        ensures opened { is_some self.new.talk ≡ is_some self.old.talk }
    {
        if let Some(gate) = self.gate.take() {
            let _left = gate.close();
        }
    }

    /// Counts a call that failed.
    fn count(&mut self, error: io::Error) -> Failed
        ensures later { self.old.faults ≤ self.new.faults }
        ensures rose { Rose self.old.faults self.new.faults }
        ensures opened { is_some self.new.talk ≡ is_some self.old.talk }
    {
        self.faults = self.faults.saturating_add(1);
        self.cause = Some(error);
        Failed
    }
}

/// There is no port.
fn not_listening() -> io::Error {
    io::Error::from(ErrorKind::NotConnected)
}

/// Takes the next connection.
fn take_next(gate: &mut Option<Gate<'_>>) -> io::Result<Talk> {
    match gate {
        Some(gate) => gate.take_next(),
        None => Err(not_listening()),
    }
}

/// Reads of a connection, when something came.
fn read_some(gate: &mut Option<Gate<'_>>, talk: &Talk, buf: &mut [u8]) -> io::Result<usize>
    ensures { IfOk result (λ count. count ≤ length buf.new) }
{
    let Some(gate) = gate else {
        return Err(not_listening());
    };
    gate.wait_for(talk)?;
    read_on(&mut &talk.stream, buf)
}

impl<'a> Links for TcpLinks<'a> {
    ghost board = { λ _. None };

    ghost is_open = { λ links. is_some links.talk };

    ghost faults = { λ links. links.faults };

    fn listen(&mut self, port: u16) -> Result<(), Failed> {
        match Gate::new(self.rt, port) {
            Ok(gate) => {
                self.gate = Some(gate);
                Ok(())
            }
            Err(error) => Err(self.count(error)),
        }
    }

    fn accept(&mut self) -> Result<(), Failed> {
        match take_next(&mut self.gate) {
            Ok(talk) => {
                self.talk = Some(talk);
                Ok(())
            }
            Err(error) => Err(self.count(error)),
        }
    }

    fn read(&mut self, buf: &mut [u8]) -> Result<usize, Failed> {
        let Some(talk) = &self.talk else {
            unreachable!();
        };
        match read_some(&mut self.gate, talk, buf) {
            Ok(count) => Ok(count),
            Err(error) => Err(self.count(error)),
        }
    }

    fn put(&mut self, bytes: &[u8]) -> Result<(), Failed> {
        let Some(talk) = &self.talk else {
            unreachable!();
        };
        match send(self.rt, talk, bytes) {
            Ok(()) => Ok(()),
            Err(error) => Err(self.count(error)),
        }
    }

    fn finish(&mut self) {
        let Some(talk) = self.talk.take() else {
            unreachable!();
        };
        if let Some(gate) = &mut self.gate {
            gate.let_leave(talk.stream);
        }
    }
}
