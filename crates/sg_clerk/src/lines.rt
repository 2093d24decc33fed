//! The lines that are written where rows are none of an office, each in one put.
ghost use Rattle.std.specs.Prelude.{◌≡◌, ◌+◌, ◌≤◌, ◌∷◌, ◌++◌, [], codes, decimal, IfOk, OnOk};
ghost use Rattle.sg_outside.specs.Faults.{HasCause};
ghost use Rattle.sg_outside.specs.Streams.{PutAppends};
ghost use Rattle.sg_clerk.specs.Shown.{damaged_line, empty_line};

use itoa::Buffer;
use sg_outside::{Failed, Sink};
use sg_plan::{NoMemory, Word};
use std::alloc::Global;

/// Writes `refused empty`.
pub(crate) fn put_empty<O: Sink>(out: &mut O) -> Result<(), Failed>
    ensures bytes { PutAppends (O.written out.old) (O.written out.new) result empty_line }
    ensures cause { HasCause (O.faults out.old) (O.faults out.new) result }
{
    out.put(b"refused empty\n")
}

/// Puts a number's digits.
pub(crate) fn put_decimal(out: &mut Word, value: u64) -> Result<(), NoMemory>
    ensures { OnOk result (out.new ≡ out.old ++ decimal value) }
{
    let mut digits = Buffer::new();
    out.extend(digits.format(value).as_bytes())
}

/// The line `damaged TABLE ROW`.
pub(crate) fn damaged_line(alloc: Global, table: u32, row: u64) -> Result<Word, NoMemory>
    ensures { IfOk result (λ line. line ≡ damaged_line table row) }
{
    let mut line = Word::new(alloc);
    line.extend(b"damaged ")?;
    put_decimal(&mut line, u64::from(table))?;
    line.push(b' ')?;
    put_decimal(&mut line, row)?;
    line.push(b'\n')?;
    Ok(line)
}
