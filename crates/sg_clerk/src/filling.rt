//! The bytes of a source, read into a buffer until its end or until the buffer is full.
ghost use Rattle.std.specs.Prelude.{◌≡◌, ◌<◌, ◌≤◌, IfOk, OnErr, length, take};
ghost use Rattle.std.specs.Io.KnownBytes.{Consumes, IsAtEnd, Keeps};
ghost use Rattle.sg_outside.specs.Faults.{HasCause};
ghost use Rattle.sg_clerk.specs.Taken.{TookAtMost};
ghost use Rattle.sg_clerk.specs.inside.Hearing.{HasRead};

use sg_outside::{Failed, Source};

/// Reads into the room behind the first `end` bytes.
fn read_behind<S: Source>(buf: &mut [u8], end: usize, source: &mut S) -> Result<usize, Failed>
    requires { end < length buf.old }
    ensures ok { IfOk result (λ count. HasRead buf.old buf.new end count (S.left source.old) (S.left source.new)) }
    ensures err { OnErr result (Keeps (S.left source.old) (S.left source.new)) }
    ensures same { length buf.new ≡ length buf.old }
    ensures cause { HasCause (S.faults source.old) (S.faults source.new) result }
{
    let count = source.read(&mut buf[end..])?;
    Ok(count)
}

/// Reads bytes into the front of the buffer until the source's end or until the buffer is full, and answers how many
/// these are. It refuses only where the source failed. In each case at most as many bytes are taken as the buffer has room for.
pub fn fill<S: Source>(buf: &mut [u8], source: &mut S) -> Result<usize, Failed>
    ensures bound { IfOk result (λ count. count ≤ length buf.new) }
    ensures taken { IfOk result (λ count. Consumes (S.left source.old) (S.left source.new) (take count buf.new)) }
    ensures ended { IfOk result (λ count. count < length buf.new → IsAtEnd (S.left source.new)) }
    ensures bounded { TookAtMost (length buf.new) (S.left source.old) (S.left source.new) }
    ensures same { length buf.new ≡ length buf.old }
    ensures cause { HasCause (S.faults source.old) (S.faults source.new) result }
{
    let mut end = 0;
    while end < buf.len() {
        let Ok(count) = read_behind(buf, end, source) else {
            return Err(Failed);
        };
        if count == 0 {
            return Ok(end);
        }
        end += count;
    }
    Ok(end)
}
