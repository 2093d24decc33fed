//! The openings of all rows, written line by line.
ghost use Rattle.std.specs.Prelude.{◌≡◌, ◌<◌, ◌+◌, ◌≤◌, length};
ghost use Rattle.sg_outside.specs.Faults.{HasCause};
ghost use Rattle.sg_outside.specs.Streams.{PutAppends, seen};
ghost use Rattle.sg_plan.specs.Ballots.{entries_of};
ghost use Rattle.sg_record.specs.Pens.{Writes};
ghost use Rattle.sg_record.specs.Writing.{WriteEnds};
ghost use Rattle.sg_openings.specs.Openings.{completion_line, openings_text};
ghost use Rattle.sg_post.specs.inside.Walks.{row_walk};
ghost use Rattle.sg_openings.specs.inside.Lines.{all_lines, instance_lines, race_lines, row_line};

use crate::counts::{count_instances, count_races, count_rows, version_of};
use sg_outside::{Failed, Sink};
use sg_record::{Pen, RowOpening, Wrote, put_row};
use sg_tables::{RowOpenings, Tables};
use std::alloc::Global;

/// Writes what opens both halves of the row that the walk has come to. The walk then goes on by one.
fn put_opened<O: Sink>(
    pen: &mut Pen,
    tables: &Tables,
    walk: &mut RowOpenings<'_>,
    race: u32,
    instance: u32,
    row: u32,
    out: &mut O,
) -> Result<(), Failed>
    requires row { row < entries_of tables.now.plan race }
    requires walk { walk.old ≡ row_walk tables.now race instance row }
    ensures writes { Writes O.written O.faults pen.old out.old pen.new out.new result (row_line tables.now.plan tables.now.seed race instance row) }
    ensures walk { walk.new ≡ row_walk tables.now race instance (row + 1) }
{
    let (left, right) = walk.next();
    put_row(pen, &RowOpening::Both(left, right), out)
}

/// Writes the openings of an instance's rows.
fn put_instance<O: Sink>(
    pen: &mut Pen,
    tables: &Tables,
    race: u32,
    instance: u32,
    out: &mut O,
) -> Result<(), Failed>
    requires race { race < length tables.now.plan.races }
    requires instance { instance < tables.now.plan.instances }
    ensures { Writes O.written O.faults pen.old out.old pen.new out.new result (instance_lines tables.now.plan tables.now.seed race instance) }
{
    let mut walk = tables.row_openings(race, instance, 0);
    for row in 0..count_rows(tables, race) {
        put_opened(pen, tables, &mut walk, race, instance, row, out)?;
    }
    Ok(())
}

/// Writes the openings of a race's rows.
fn put_race<O: Sink>(pen: &mut Pen, tables: &Tables, race: u32, out: &mut O) -> Result<(), Failed>
    requires { race < length tables.now.plan.races }
    ensures { Writes O.written O.faults pen.old out.old pen.new out.new result (race_lines tables.now.plan tables.now.seed race) }
{
    for instance in 0..count_instances(tables) {
        put_instance(pen, tables, race, instance, out)?;
    }
    Ok(())
}

/// Writes the openings of all rows.
fn put_rows<O: Sink>(pen: &mut Pen, tables: &Tables, out: &mut O) -> Result<(), Failed>
    ensures { Writes O.written O.faults pen.old out.old pen.new out.new result (all_lines tables.now.plan tables.now.seed) }
{
    for race in 0..count_races(tables) {
        put_race(pen, tables, race, out)?;
    }
    Ok(())
}

/// Writes the line before the openings.
fn put_head<O: Sink>(out: &mut O) -> Result<(), Failed>
    ensures bytes { PutAppends (O.written out.old) (O.written out.new) result completion_line }
    ensures cause { HasCause (O.faults out.old) (O.faults out.new) result }
{
    out.put(b"completion\n")
}

/// Writes all lines.
fn put_lines<O: Sink>(pen: &mut Pen, tables: &Tables, out: &mut O) -> Result<(), Failed>
    requires { pen.old.version ≡ tables.now.plan.version }
    ensures bytes { PutAppends (O.written out.old) (O.written out.new) result (openings_text tables.now.plan tables.now.seed) }
    ensures cause { HasCause (O.faults out.old) (O.faults out.new) result }
{
    match put_head(out) {
        Ok(()) => put_rows(pen, tables, out),
        Err(Failed) => Err(Failed),
    }
}

/// Writes the line `completion`, and for each race, instance and row what opens both halves of the row: each line as one
/// piece, in the time of the rows.
///
/// `Written`: the whole text was appended. `SinkFailed`: a front of it was appended, and the sink has counted a fault.
/// `NoMemory`: nothing was. Memory is wanted for one line alone, before the first is written.
pub fn put_openings<O: Sink>(alloc: Global, tables: &Tables, out: &mut O) -> Wrote
    ensures ends { WriteEnds result (seen (O.written out.old) (O.faults out.old)) (seen (O.written out.new) (O.faults out.new)) (openings_text tables.now.plan tables.now.seed) }
    ensures quiet { result ≡ Wrote.NoMemory → out.new ≡ out.old }
    ensures later { O.faults out.old ≤ O.faults out.new }
{
    let Ok(mut pen) = Pen::new(alloc, version_of(tables)) else {
        return Wrote::NoMemory;
    };
    match put_lines(&mut pen, tables, out) {
        Ok(()) => Wrote::Written,
        Err(Failed) => Wrote::SinkFailed,
    }
}
