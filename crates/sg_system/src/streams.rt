//! Standard input and output. They count their faults and keep the cause of the last one. Standard input tells nothing of its
//! bytes, and standard output what its writer tells.
ghost use Rattle.std.specs.Prelude.{◌≡◌, ◌≤◌, [], None, IfOk, OnOk, OnErr, length};
ghost use Rattle.std.specs.Option.{option_map};
ghost use Rattle.std.specs.Io.Buffered.{writer_buffer, writer_capacity, writer_contents, writer_inner};
ghost use Rattle.std.specs.Io.KnownBytes.{Keeps, WriteAppends};
ghost use Rattle.sg_outside.specs.Faults.{HasCause, counted_up};
ghost use Rattle.sg_outside.specs.Streams.{PutAppends};

use sg_outside::{Failed, NoMemory, Sink, Source};
use std::alloc::Global;
use std::io::{self, BufWriter, ErrorKind, Read, Stdin, Stdout, Write};

/// How many bytes a sink holds that does not write them at once.
const HELD: usize = 65_536;

/// Standard input.
#[derive(Drop)]
pub struct StdSource {
    stdin: Stdin,
    faults: u64,
    cause: Option<io::Error>,
}

impl StdSource {
    /// With no fault counted.
    pub fn new(stdin: Stdin) -> StdSource
        ensures { result.faults ≡ 0 }
    {
        StdSource {
            stdin,
            faults: 0,
            cause: None,
        }
    }

    /// What the system said of the last read that failed.
    pub fn cause(&self) -> Option<&io::Error>
        ensures { option_map (λ error. error.now) result ≡ self.now.cause }
    {
        self.cause.as_ref()
    }
}

impl Source for StdSource {
    ghost left = { λ _. None };

    ghost faults = { λ source. source.faults };

    fn read(&mut self, buf: &mut [u8]) -> Result<usize, Failed> {
        match read_on(&mut self.stdin, buf) {
            Ok(count) => Ok(count),
            Err(error) => {
                self.faults = self.faults.saturating_add(1);
                self.cause = Some(error);
                Err(Failed)
            }
        }
    }
}

/// Reads, and reads again where the call was interrupted before a byte came.
pub(crate) fn read_on<R: Read>(reader: &mut R, buf: &mut [u8]) -> io::Result<usize>
    ensures { IfOk result (λ count. count ≤ length buf.new) }
{
    for _ in 0..u64::MAX {
        match reader.read(buf) {
            Ok(count) => return Ok(count),
            Err(error) if error.kind() == ErrorKind::Interrupted => {}
            Err(error) => return Err(error),
        }
    }
    Err(io::Error::from(ErrorKind::Interrupted))
}

/// Standard output, or another writer: each piece is written at once, or held until there are many bytes.
///
/// The bytes that were put are those that the writer has, and behind them those that are held. None is lost or written
/// twice, whichever write fails; those that are held still may be lost with the sink.
#[derive(Drop)]
pub struct StdSink<W: Write + Drop = Stdout> {
    writer: BufWriter<W>,
    faults: u64,
    cause: Option<io::Error>,
}

impl<W: Write + Drop> StdSink<W> {
    /// Each piece is written at once. No fault is counted.
    pub fn at_once(alloc: Global, writer: W) -> StdSink<W>
        ensures faults { result.faults ≡ 0 }
        ensures writer { writer_inner result.writer ≡ writer }
        ensures empty { writer_buffer result.writer ≡ [] }
        ensures room { writer_capacity result.writer ≡ 0 }
    {
        let Ok(writer) = BufWriter::with_capacity(alloc, 0, writer) else {
            unreachable!();
        };
        StdSink {
            writer,
            faults: 0,
            cause: None,
        }
    }

    /// Up to 65,536 bytes are held before they are written. Their room is taken here. No fault is counted.
    pub fn held(alloc: Global, writer: W) -> Result<StdSink<W>, NoMemory>
        ensures faults { IfOk result (λ sink. sink.faults ≡ 0) }
        ensures writer { IfOk result (λ sink. writer_inner sink.writer ≡ writer) }
        ensures empty { IfOk result (λ sink. writer_buffer sink.writer ≡ []) }
        ensures room { IfOk result (λ sink. writer_capacity sink.writer ≡ 65536) }
    {
        let Ok(writer) = BufWriter::with_capacity(alloc, HELD, writer) else {
            return Err(NoMemory);
        };
        Ok(StdSink {
            writer,
            faults: 0,
            cause: None,
        })
    }

    /// Writes what is held. A write that takes nothing is a fault.
    pub fn flush(&mut self) -> Result<(), Failed>
        // The bytes that were put stay the same: behind Ok the writer has them all.
        ensures bytes { Keeps (writer_contents W.contents self.old.writer) (writer_contents W.contents self.new.writer) }
        ensures empty { OnOk result (writer_buffer self.new.writer ≡ []) }
        // The count rises by one exactly where the flush failed.
        ensures same { OnOk result (self.new.faults ≡ self.old.faults) }
        ensures failed { OnErr result (self.new.faults ≡ counted_up self.old.faults) }
    {
        if let Err(error) = self.writer.flush() {
            return Err(self.fail(error));
        }
        Ok(())
    }

    /// What the system said of the last write that failed.
    pub fn cause(&self) -> Option<&io::Error>
        ensures { option_map (λ error. error.now) result ≡ self.now.cause }
    {
        self.cause.as_ref()
    }

    /// Counts a write that failed.
    fn fail(&mut self, error: io::Error) -> Failed
        ensures faults { self.new.faults ≡ counted_up self.old.faults }
        ensures later { self.old.faults ≤ self.new.faults }
        ensures writer { self.new.writer ≡ self.old.writer }
    {
        self.faults = self.faults.saturating_add(1);
        self.cause = Some(error);
        Failed
    }
}

impl<W: Write + Drop> Sink for StdSink<W> {
    ghost written = { λ sink. writer_contents W.contents sink.writer };

    ghost faults = { λ sink. sink.faults };

    /// A write that takes nothing of a piece is a fault.
    fn put(&mut self, bytes: &[u8]) -> Result<(), Failed>
        ensures bytes { PutAppends (writer_contents W.contents self.old.writer) (writer_contents W.contents self.new.writer) result bytes.now }
        ensures cause { HasCause self.old.faults self.new.faults result }
        // The count rises by one exactly where the put failed.
        ensures same { OnOk result (self.new.faults ≡ self.old.faults) }
        ensures failed { OnErr result (self.new.faults ≡ counted_up self.old.faults) }
    {
        match write_whole(&mut self.writer, bytes) {
            Ok(()) => Ok(()),
            Err(error) => Err(self.fail(error)),
        }
    }
}

/// Writes all of the bytes, or a front of them.
pub(crate) fn write_whole<W: Write>(writer: &mut W, bytes: &[u8]) -> io::Result<()>
    ensures { PutAppends (W.contents writer.old) (W.contents writer.new) result bytes.now }
{
    let mut rest = bytes;
    while !rest.is_empty() {
        let count = write_on(writer, rest)?;
        if count == 0 {
            return Err(io::Error::from(ErrorKind::WriteZero));
        }
        rest = &rest[count..];
    }
    Ok(())
}

/// Writes some of the bytes, and writes again where the call was interrupted before a byte went.
fn write_on<W: Write>(writer: &mut W, bytes: &[u8]) -> io::Result<usize>
    ensures bound { IfOk result (λ count. count ≤ length bytes.now) }
    ensures bytes { WriteAppends (W.contents writer.old) (W.contents writer.new) result bytes.now }
{
    for _ in 0..u64::MAX {
        match writer.write(bytes) {
            Ok(count) => return Ok(count),
            Err(error) if error.kind() == ErrorKind::Interrupted => {}
            Err(error) => return Err(error),
        }
    }
    Err(io::Error::from(ErrorKind::Interrupted))
}
