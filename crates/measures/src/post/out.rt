//! Standard output, behind a buffer.
ghost use Rattle.std.specs.Prelude.{None};

use sg_outside::{Failed, Sink};
use std::alloc::Global;
use std::io::{self, BufWriter, Stdout, Write};

/// Standard output behind a buffer. It counts its faults.
#[derive(Drop)]
pub(super) struct Out {
    writer: BufWriter<Stdout>,
    faults: u64,
}

impl Out {
    /// With no fault counted. It fails for want of memory.
    pub(super) fn new(alloc: Global, stdout: Stdout) -> io::Result<Out> {
        let writer = BufWriter::new(alloc, stdout)?;
        Ok(Out { writer, faults: 0 })
    }

    /// Writes what the buffer still holds.
    pub(super) fn flush(&mut self) -> io::Result<()> {
        self.writer.flush()
    }
}

impl Sink for Out {
    ghost written = { λ _. None };

    ghost faults = { λ sink. sink.faults };

    fn put(&mut self, bytes: &[u8]) -> Result<(), Failed> {
        match self.writer.write_all(bytes) {
            Ok(()) => Ok(()),
            Err(_) => {
                self.faults = self.faults.saturating_add(1);
                Err(Failed)
            }
        }
    }
}
