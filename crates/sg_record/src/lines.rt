//! The seal of a section, written as a record has it.
ghost use Rattle.std.specs.Prelude.{◌≡◌, ◌≤◌, ◌<◌};
ghost use Rattle.sg_record.specs.Tree.{as_line, seal_tree};
ghost use Rattle.sg_record.specs.Pens.{Writes};

use crate::pen::Pen;
use sg_commit::Digest;
use sg_forms::Line;
use sg_outside::{Failed, Sink};

/// Writes the seal that ends the section of this number.
#[tactic(auto, using(crate::proofs::Putting::seal_is))]
pub(crate) fn put_section_seal<O: Sink>(
    pen: &mut Pen,
    section: u32,
    seals: &[Digest; 3],
    out: &mut O,
) -> Result<(), Failed>
    requires first { 1 ≤ section }
    requires last { section ≤ 3 }
    ensures { Writes O.written O.faults pen.old out.old pen.new out.new result (seal_tree as_line section seals.now) }
{
    let digest = seals[section as usize - 1];
    let seal = Line::Seal {
        number: section,
        digest,
    };
    pen.put_line(&seal, out)
}
