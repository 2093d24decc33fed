//! The descriptors 0, 1 and 2.
ghost use Rattle.std.specs.Prelude.{◌≡◌, ◌≢◌, true};
ghost use Rattle.std.specs.Fs.{new_options, with_read, with_write};
ghost use Rattle.sg_system.specs.declared.descriptors.Standard.TheVariants as Standard;

use libc::net::{POLLNVAL, poll};
use libc::types::pollfd;
use std::fs::{File, OpenOptions};
use std::io;

/// Holds those of the descriptors 0, 1 and 2 that were closed when the program started. Nothing else that the program opens
/// can then take such a number, so no file and no connection is ever written to or read as one of them. A read of standard
/// input that was closed fails, and so does a write of standard output.
#[derive(Drop)]
pub struct Descriptors {
    input: Option<File>,
    output: Option<File>,
    error: Option<File>,
}

/// A descriptor that a program starts with.
#[derive(Clone, Copy, Debug)]
enum Standard {
    Input,
    Output,
    Error,
}

impl Descriptors {
    /// Holds those that are closed. It comes before anything is opened, and is kept to the program's end.
    pub fn hold(rt: &HostRuntime) -> io::Result<Descriptors> {
        Ok(Descriptors {
            input: hold(rt, Standard::Input)?,
            output: hold(rt, Standard::Output)?,
            error: hold(rt, Standard::Error)?,
        })
    }

    /// How many were closed.
    pub fn held(&self) -> usize {
        [&self.input, &self.output, &self.error]
            .iter()
            .filter(|file| file.is_some())
            .count()
    }
}

/// Holds a descriptor, where it is closed: what is opened takes the lowest number that is free.
fn hold(rt: &HostRuntime, standard: Standard) -> io::Result<Option<File>> {
    if !is_closed(number_of(standard)) {
        return Ok(None);
    }
    Ok(Some(wrong_way(standard).open(rt, "/dev/null")?))
}

/// Its number.
fn number_of(standard: Standard) -> i32 {
    match standard {
        Standard::Input => libc::STDIN_FILENO,
        Standard::Output => libc::STDOUT_FILENO,
        Standard::Error => libc::STDERR_FILENO,
    }
}

/// Opened so, a file refuses what the program does with this descriptor.
fn wrong_way(standard: Standard) -> OpenOptions
    ensures input { standard ≡ Standard.Input → result ≡ with_write new_options true }
    ensures output { standard ≢ Standard.Input → result ≡ with_read new_options true }
{
    let mut options = OpenOptions::new();
    match standard {
        Standard::Input => {
            options.write(true);
        }
        Standard::Output => {
            options.read(true);
        }
        Standard::Error => {
            options.read(true);
        }
    }
    options
}

/// Whether no file is open under this number.
fn is_closed(fd: i32) -> bool {
    let mut asked = [pollfd {
        fd,
        events: 0,
        revents: 0,
    }];
    let _count = poll(&mut asked, 0);
    asked[0].revents & POLLNVAL != 0
}
