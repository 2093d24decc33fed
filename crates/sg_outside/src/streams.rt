//! Sources and sinks of bytes.

ghost use Rattle.std.specs.Prelude.{ℕ, List, Option};
ghost use Rattle.std.specs.Io.{ReadsAtMost};
ghost use Rattle.std.specs.Io.KnownBytes.{ReadConsumes};
ghost use Rattle.sg_outside.specs.Faults.{HasCause};
ghost use Rattle.sg_outside.specs.Streams.{PutAppends};

use crate::faults::Failed;

/// Gives bytes until its end.
///
/// Its meaning is `left`, the bytes still to come, where it tells them, and `faults`, how often it
/// has failed.
pub trait Source {
    ghost left: { Self → Option (List ℕ) };

    ghost faults: { Self → ℕ };

    /// Puts the next bytes into the front of `buf` and answers how many these are.
    /// 0 for a `buf` that is not empty is the end of the input. A call that fails takes no byte.
    fn read(&mut self, buf: &mut [u8]) -> Result<usize, Failed>
        ensures bound { ReadsAtMost result buf.new }
        ensures bytes { ReadConsumes (left self.old) (left self.new) result buf.new }
        ensures cause { HasCause (faults self.old) (faults self.new) result };
}

/// Takes bytes.
///
/// Its meaning is `written`, the bytes appended so far, where it tells them, and `faults`, how often
/// it has failed.
pub trait Sink {
    ghost written: { Self → Option (List ℕ) };

    ghost faults: { Self → ℕ };

    /// Appends the whole piece, or fails and has appended a front of it.
    fn put(&mut self, bytes: &[u8]) -> Result<(), Failed>
        ensures bytes { PutAppends (written self.old) (written self.new) result bytes.now }
        ensures cause { HasCause (faults self.old) (faults self.new) result };
}
