//! Section 3 of a record, written: the draw and the openings.
ghost use Rattle.std.specs.Prelude.{◌≡◌, ◌≤◌, ◌<◌, ◌*◌, ◌∷◌, ◌++◌, [], length, slice_index_or, true};
ghost use Rattle.sg_plan.specs.Limits.{most_public_bytes};
ghost use Rattle.sg_forms.specs.Said.Said.{DrawPublic, Row};
ghost use Rattle.sg_lines.specs.Words.{encode_lower};
ghost use Rattle.sg_record.specs.Formed.{is_draw, is_formed};
ghost use Rattle.sg_record.specs.Lines.{second_lines};
ghost use Rattle.sg_record.specs.Tree.{as_line, draw_leaf, indexed, opening_tree, race_row_tree};
ghost use Rattle.sg_record.specs.Pens.{SealsWhere, Writes};
ghost use Rattle.sg_record.specs.Writing.{text_in};

use crate::one_line::OneLine;
use crate::pen::Pen;
use crate::posts::{Posts, count_instances, count_races};
use sg_forms::{Line, RowOpening, know_bytes};
use sg_lines::write_hex;
use sg_outside::{Failed, Sink};
use sg_plan::Draw;
use sg_plan::limits::MOST_PUBLIC_BYTES;

/// The most digits of public bytes.
const MOST_DIGITS: usize = 2 * MOST_PUBLIC_BYTES;

/// Writes the draw: with public bytes there are 1 to 4,096 of them.
fn put_draw<O: Sink>(pen: &mut Pen, draw: &Draw, out: &mut O) -> Result<(), Failed>
    requires draw { is_draw draw.now ≡ true }
    ensures { Writes O.written O.faults pen.old out.old pen.new out.new result (draw_leaf as_line draw.now ∷ []) }
{
    match draw {
        Draw::Full => pen.put_line(&Line::DrawFull, out),
        Draw::Public(bytes) => put_public(pen, bytes.bytes(), out),
    }
}

/// Writes the draw of these public bytes.
fn put_public<O: Sink>(pen: &mut Pen, bytes: &[u8], out: &mut O) -> Result<(), Failed>
    requires some { 1 ≤ length bytes.now }
    requires most { length bytes.now ≤ most_public_bytes }
    ensures { Writes O.written O.faults pen.old out.old pen.new out.new result (DrawPublic (encode_lower bytes.now) ∷ []) }
{
    know_bytes(bytes);
    let mut digits = [0; MOST_DIGITS];
    write_hex(bytes, &mut digits);
    let line = Line::DrawPublic {
        digits: &digits[..2 * bytes.len()],
    };
    pen.put_line(&line, out)
}

/// Writes what is opened of a row.
pub fn put_row<O: Sink>(pen: &mut Pen, opening: &RowOpening, out: &mut O) -> Result<(), Failed>
    ensures { Writes O.written O.faults pen.old out.old pen.new out.new result (Row opening.now ∷ []) }
{
    pen.put_line(&Line::Row(*opening), out)
}

impl OneLine for RowOpening {
    ghost told = { Row };

    fn put<O: Sink>(&self, pen: &mut Pen, out: &mut O) -> Result<(), Failed> {
        put_row(pen, self, out)
    }
}

/// Writes what is opened of the rows of a race.
fn put_race_rows<P: Posts, O: Sink>(
    pen: &mut Pen,
    posted: &P,
    race: u32,
    out: &mut O,
) -> Result<(), Failed>
    requires ready { P.is_ready posted.now }
    requires formed { is_formed (P.posted posted.now) ≡ true }
    requires race { race < length (P.posted posted.now).plan.races }
    ensures { Writes O.written O.faults pen.old out.old pen.new out.new result (race_row_tree as_line race (slice_index_or (P.posted posted.now).rows race [])) }
{
    for instance in 0..count_instances(posted) {
        posted.put_instance_rows(pen, race, instance, out)?;
    }
    Ok(())
}

/// Writes what is opened of the rows of all races.
fn put_rows<P: Posts, O: Sink>(pen: &mut Pen, posted: &P, out: &mut O) -> Result<(), Failed>
    requires ready { P.is_ready posted.now }
    requires formed { is_formed (P.posted posted.now) ≡ true }
    ensures { Writes O.written O.faults pen.old out.old pen.new out.new result (indexed (race_row_tree as_line) 0 (P.posted posted.now).rows) }
{
    for race in 0..count_races(posted) {
        put_race_rows(pen, posted, race, out)?;
    }
    Ok(())
}

/// Writes the draw, what is opened of all rows, and the seal, behind the lines of the first two sections.
pub(crate) fn put_openings<P: Posts, O: Sink>(
    pen: &mut Pen,
    posted: &P,
    out: &mut O,
) -> Result<(), Failed>
    requires version { pen.old.version ≡ (P.posted posted.now).plan.version }
    requires ready { P.is_ready posted.now }
    requires formed { is_formed (P.posted posted.now) ≡ true }
    requires seal { SealsWhere P.wants_seal pen.old.seal (text_in (P.posted posted.now).plan.version (second_lines (P.posted posted.now))) }
    ensures { Writes O.written O.faults pen.old out.old pen.new out.new result (opening_tree as_line (P.posted posted.now)) }
{
    put_draw(pen, posted.draw(), out)?;
    put_rows(pen, posted, out)?;
    posted.put_seal(pen, 3, out)
}
