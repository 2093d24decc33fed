//! `openings`: what opens both halves of each row, once the draw is made.
ghost use Rattle.std.specs.Prelude.{◌≡◌, ◌≤◌, IfOk, false, true};
ghost use Rattle.sg_outside.specs.Faults.{HasCause};
ghost use Rattle.sg_outside.specs.Streams.{PutAppends, seen};
ghost use Rattle.sg_handed.specs.Handed.{OpeningsSays, is_drawn as is_drawn_at, undrawn_line};
ghost use Rattle.sg_handed.specs.inside.Endings.{HandsOver};

use sg_clerk::open_office;
use sg_keeper::Keeper;
use sg_office::Office;
use sg_openings::put_openings;
use sg_outside::{Failed, Outcome, Sink};
use sg_plan::{NoMemory, Stage};
use sg_record::Wrote;
use std::alloc::Global;

/// Whether the draw is made at this stage.
fn is_drawn_stage(stage: &Stage) -> bool
    ensures { result ≡ is_drawn_at stage.now }
{
    match stage {
        Stage::Voting | Stage::Closed => false,
        Stage::Drawn(_) => true,
    }
}

/// Whether the office's draw is made. It refuses for want of memory alone.
fn is_drawn(alloc: Global, office: &Office) -> Result<bool, NoMemory>
    ensures { IfOk result (λ drawn. is_drawn_at office.now.stage ≡ drawn) }
{
    office.office_law();
    let story = office.story(alloc)?;
    let drawn = is_drawn_stage(&story.stage);
    drop(story);
    Ok(drawn)
}

/// Writes what opens the rows of an office whose draw is made.
fn write_rows<O: Sink>(alloc: Global, office: &Office, out: &mut O) -> Outcome
    requires { is_drawn_at office.now.stage ≡ true }
    ensures { HandsOver result office.now (seen (O.written out.old) (O.faults out.old)) (seen (O.written out.new) (O.faults out.new)) }
{
    match put_openings(alloc, office.tables(), out) {
        Wrote::Written => Outcome::Done,
        Wrote::SinkFailed => Outcome::WriteFailed,
        Wrote::NoMemory => Outcome::NoMemory,
    }
}

/// Writes `refused undrawn`.
fn put_undrawn<O: Sink>(out: &mut O) -> Result<(), Failed>
    ensures bytes { PutAppends (O.written out.old) (O.written out.new) result undrawn_line }
    ensures cause { HasCause (O.faults out.old) (O.faults out.new) result }
{
    out.put(b"refused undrawn\n")
}

/// Refuses an office whose draw isn't made.
fn refuse<O: Sink>(office: &Office, out: &mut O) -> Outcome
    requires { is_drawn_at office.now.stage ≡ false }
    ensures { HandsOver result office.now (seen (O.written out.old) (O.faults out.old)) (seen (O.written out.new) (O.faults out.new)) }
{
    let _ = office;
    match put_undrawn(out) {
        Ok(()) => Outcome::Refused,
        Err(Failed) => Outcome::WriteFailed,
    }
}

/// Writes what is due of an office.
fn hand_over<O: Sink>(alloc: Global, office: &Office, out: &mut O) -> Outcome
    ensures { HandsOver result office.now (seen (O.written out.old) (O.faults out.old)) (seen (O.written out.new) (O.faults out.new)) }
{
    match is_drawn(alloc, office) {
        Ok(true) => write_rows(alloc, office, out),
        Ok(false) => refuse(office, out),
        Err(NoMemory) => Outcome::NoMemory,
    }
}

/// Writes the line `completion`, and for each race, instance and row what opens both halves of the row: each line in one
/// put, once the draw is made. Before it the line `refused undrawn` is written. The keeper's rows stay as they are.
pub fn answer_openings<K: Keeper, O: Sink>(alloc: Global, keeper: &mut K, out: &mut O) -> Outcome
    ensures says { OpeningsSays result (K.tells keeper.old) (K.rows keeper.old) (K.faults keeper.old) (K.faults keeper.new)
        (seen (O.written out.old) (O.faults out.old)) (seen (O.written out.new) (O.faults out.new)) }
    ensures told { K.tells keeper.old → K.tells keeper.new }
    ensures same { K.tells keeper.old → K.rows keeper.new ≡ K.rows keeper.old }
    ensures later { K.faults keeper.old ≤ K.faults keeper.new }
{
    match open_office(alloc, keeper, out) {
        Ok(office) => {
            let handed = hand_over(alloc, &office, out);
            drop(office);
            handed
        }
        Err(how) => how,
    }
}
