//! The one line on standard error that says why a program ended without doing what it was asked.
ghost use Rattle.std.specs.Prelude.{◌≡◌, Some};
ghost use Rattle.std.specs.Option.{option_map};
ghost use Rattle.sg_system.specs.Causes.{cause_text, detail_text, error_in, stream_error, told, why_text};

use crate::streams::{StdSink, StdSource};
use sg_plan::NoMemory;
use std::{fmt, io};

/// What is told behind a cause.
#[derive(Drop)]
pub enum Detail<'a> {
    /// The words of all commands, where there was memory for the line.
    Words(Result<String, NoMemory>),
    /// What the system said of the call that failed.
    System(&'a io::Error),
}

impl fmt::Display for Detail<'_> {
    ghost output = { detail_text };

    fn fmt<W: fmt::Write>(&self, f: &mut fmt::Formatter<W>) -> fmt::Result {
        match self {
            Detail::Words(Ok(line)) => f.write_str(line.as_str()),
            Detail::Words(Err(NoMemory)) => f.write_str("a command's"),
            Detail::System(error) => write!(f, "{error}"),
        }
    }
}

/// Why a program ended, and what is told behind that.
#[derive(Drop)]
struct Why<'a> {
    cause: &'static str,
    detail: Option<Detail<'a>>,
}

impl fmt::Display for Why<'_> {
    ghost output = { why_text };

    fn fmt<W: fmt::Write>(&self, f: &mut fmt::Formatter<W>) -> fmt::Result {
        let cause = self.cause;
        match &self.detail {
            Some(detail) => write!(f, "{cause}: {detail}"),
            None => f.write_str(cause),
        }
    }
}

/// Why a program ends with this status: nothing where the work was done, a verdict was reported, or the output says why it was
/// not done.
fn cause_of(status: u8) -> Option<&'static str>
    ensures { option_map (λ text. text.now) result ≡ cause_text status }
{
    match status {
        2 => Some("the words must be"),
        3 => Some("reading standard input failed"),
        4 => Some("writing standard output failed"),
        5 => Some("office.db could not be read or written"),
        6 => Some("the port could not be listened on, or no connection be accepted"),
        9 => Some("there was not enough memory"),
        _ => None,
    }
}

/// Why a program ends with this status, with this detail behind it.
fn why_of(status: u8, detail: Option<Detail<'_>>) -> Option<Why<'_>>
    ensures { option_map why_text result ≡ option_map (λ cause. told cause detail.entry) (cause_text status) }
{
    match cause_of(status) {
        Some(cause) => Some(Why { cause, detail }),
        None => None,
    }
}

/// What the system said of the input or the output, where the status is that of a failed read or write.
pub fn stream_detail<'a>(status: u8, input: &'a StdSource, out: &'a StdSink) -> Option<Detail<'a>>
    ensures { option_map error_in result ≡ option_map Some (stream_error status input.now.cause out.now.cause) }
{
    match status {
        3 => input.cause().map(Detail::System),
        4 => out.cause().map(Detail::System),
        _ => None,
    }
}

/// Writes one line behind the program's name. Nothing depends on whether standard error takes it.
pub fn say<D: fmt::Display + Drop>(rt: &HostRuntime, why: D) {
    let _written = eprintln!(rt; "voldkaumi: {why}");
}

/// Writes the line of this status with its detail, where the status has a cause.
pub fn say_why(rt: &HostRuntime, status: u8, detail: Option<Detail<'_>>) {
    if let Some(why) = why_of(status, detail) {
        say(rt, why);
    }
}
