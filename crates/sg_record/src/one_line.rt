//! Lists of which each item is one line of a record.
ghost use Rattle.std.specs.Prelude.{◌≡◌, ◌∷◌, [], map, All};
ghost use Rattle.sg_forms.specs.Said.{Said};
ghost use Rattle.sg_forms.specs.Spelling.{FitsForm};
ghost use Rattle.sg_record.specs.Pens.{Writes};

use crate::pen::Pen;
use sg_outside::{Failed, Sink};
use sg_plan::Items;

/// What is one line of a record. Its meaning is `told`, what the line says.
pub(crate) trait OneLine {
    ghost told: { Self → Said };

    /// Writes the line.
    fn put<O: Sink>(&self, pen: &mut Pen, out: &mut O) -> Result<(), Failed>
        requires fits { FitsForm pen.old.version (told self.now) }
        ensures { Writes O.written O.faults pen.old out.old pen.new out.new result (told self.now ∷ []) };
}

/// Writes the lines, one after another.
pub(crate) fn put_lines<T: OneLine, O: Sink>(
    pen: &mut Pen,
    items: &Items<T>,
    out: &mut O,
) -> Result<(), Failed>
    requires fits { All (λ item. FitsForm pen.old.version (T.told item)) items.now }
    ensures { Writes O.written O.faults pen.old out.old pen.new out.new result (map T.told items.now) }
{
    for at in 0..items.len() {
        items.get(at).put(pen, out)?;
    }
    Ok(())
}
