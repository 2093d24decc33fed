//! A text, put line by line.
ghost use Rattle.std.specs.Prelude.{◌≤◌};
ghost use Rattle.sg_outside.specs.Faults.{HasCause};
ghost use Rattle.sg_outside.specs.Streams.{PutAppends};

use sg_outside::{Failed, Sink, line_end};

/// Puts each line of the text.
pub(crate) fn put_lines<O: Sink>(text: &[u8], out: &mut O) -> Result<(), Failed>
    ensures bytes { PutAppends (O.written out.old) (O.written out.new) result text.now }
    ensures cause { HasCause (O.faults out.old) (O.faults out.new) result }
{
    let mut at = 0;
    while at < text.len() {
        let end = line_end(text, at);
        match out.put(&text[at..end]) {
            Ok(()) => {}
            Err(Failed) => return Err(Failed),
        }
        at = end;
    }
    Ok(())
}
