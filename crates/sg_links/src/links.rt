//! Connections.

ghost use Rattle.std.specs.Prelude.{ℕ, Option, Bool, ◌≡◌, true, false, IfOk, OnOk, OnErr, is_ok, option_map, length, take};
ghost use Rattle.std.specs.Io.{ReadsAtMost};
ghost use Rattle.sg_outside.specs.Faults.{HasCause};
ghost use Rattle.sg_links.specs.Board.{Board, listens, accepts, on_current, takes, gets, finishes, Come, reads_end, SendsFront};

use sg_outside::Failed;

/// Listens on a port, and takes one connection after the other.
pub trait Links {
    /// The connections to come, the one that is current, those that are finished, and the port that was listened on
    /// last, where it tells them.
    ghost board: { Self → Option Board };

    /// A connection is current.
    ghost is_open: { Self → Bool };

    /// How often it has failed.
    ghost faults: { Self → ℕ };

    /// Listens on this port.
    fn listen(&mut self, port: u16) -> Result<(), Failed>
        ensures ok { OnOk result (board self.new ≡ option_map (listens port) (board self.old)) }
        ensures err { OnErr result (board self.new ≡ board self.old) }
        ensures opened { is_open self.new ≡ is_open self.old }
        ensures cause { HasCause (faults self.old) (faults self.new) result };

    /// Makes the first connection still to come the current one. A call that fails takes none.
    fn accept(&mut self) -> Result<(), Failed>
        requires { is_open self.old ≡ false }
        ensures ok { OnOk result (board self.new ≡ option_map accepts (board self.old)) }
        ensures err { OnErr result (board self.new ≡ board self.old) }
        ensures opened { is_open self.new ≡ is_ok result }
        ensures cause { HasCause (faults self.old) (faults self.new) result };

    /// Puts the next bytes of the current connection into the front of `buf` and answers how many these are.
    /// 0 for a `buf` that is not empty is the end of the connection. A call that fails takes no byte.
    fn read(&mut self, buf: &mut [u8]) -> Result<usize, Failed>
        requires { is_open self.old ≡ true }
        ensures bound { ReadsAtMost result buf.new }
        ensures come { IfOk result (λ count. Come (board self.old) (take count buf.new) (reads_end (length buf.old) count)) }
        ensures ok { IfOk result (λ count. board self.new
            ≡ option_map (on_current (takes (take count buf.new) (reads_end (length buf.old) count))) (board self.old)) }
        ensures err { OnErr result (board self.new ≡ board self.old) }
        ensures opened { is_open self.new ≡ true }
        ensures cause { HasCause (faults self.old) (faults self.new) result };

    /// Sends the whole piece on the current connection, or fails and has sent a front of it.
    fn put(&mut self, bytes: &[u8]) -> Result<(), Failed>
        requires { is_open self.old ≡ true }
        ensures ok { OnOk result (board self.new ≡ option_map (on_current (gets bytes.now)) (board self.old)) }
        ensures err { OnErr result (SendsFront (board self.old) (board self.new) bytes.now) }
        ensures opened { is_open self.new ≡ true }
        ensures cause { HasCause (faults self.old) (faults self.new) result };

    /// Ends the current connection.
    fn finish(&mut self)
        requires { is_open self.old ≡ true }
        ensures board { board self.new ≡ option_map finishes (board self.old) }
        ensures opened { is_open self.new ≡ false }
        ensures faults { faults self.new ≡ faults self.old };
}
