//! The plan of a record, written.
ghost use Rattle.std.specs.Prelude.{◌≡◌, ◌≤◌, ◌<◌, ◌^◌, ◌∷◌, ◌++◌, [], length, map, All, None};
ghost use Rattle.std.specs.List.{flat_map};
ghost use Rattle.sg_plan.specs.Limits.{KeepsRace, fault_of};
ghost use Rattle.sg_plan.specs.Names.{IsName};
ghost use Rattle.sg_forms.specs.Said.Said.{Cand, Election, Instances, Race as RaceLine, Version};
ghost use Rattle.sg_record.specs.Lines.{plan_lines, race_lines, run_line, style_line};
ghost use Rattle.sg_record.specs.Pens.{Writes};
ghost use Rattle.sg_record.specs.inside.Parts.{StyleFits};

use crate::one_line::{OneLine, put_lines};
use crate::pen::Pen;
use sg_forms::Line;
use sg_outside::{Failed, Sink};
use sg_plan::limits::MOST_RACES;
use sg_plan::{Items, Plan, Race, Run, Style, Word};

/// The name of a candidate.
impl OneLine for Word {
    ghost told = { Cand };

    fn put<O: Sink>(&self, pen: &mut Pen, out: &mut O) -> Result<(), Failed> {
        pen.put_line(&Line::Cand(self.bytes()), out)
    }
}

/// Writes a race.
fn put_race_line<O: Sink>(pen: &mut Pen, race: &Race, out: &mut O) -> Result<(), Failed>
    requires race { KeepsRace race.now }
    ensures { Writes O.written O.faults pen.old out.old pen.new out.new result (RaceLine race.now.name (length race.now.candidates) race.now.votes ∷ []) }
{
    let line = Line::Race {
        name: race.name.bytes(),
        candidates: race.candidates.len() as u32,
        votes: race.votes,
    };
    pen.put_line(&line, out)
}

/// Writes a race and its candidates.
fn put_race<O: Sink>(pen: &mut Pen, race: &Race, out: &mut O) -> Result<(), Failed>
    requires race { KeepsRace race.now }
    ensures { Writes O.written O.faults pen.old out.old pen.new out.new result (race_lines race.now) }
{
    put_race_line(pen, race, out)?;
    put_lines(pen, &race.candidates, out)
}

/// Writes all races.
fn put_races<O: Sink>(pen: &mut Pen, races: &Items<Race>, out: &mut O) -> Result<(), Failed>
    requires races { All KeepsRace races.now }
    ensures { Writes O.written O.faults pen.old out.old pen.new out.new result (flat_map race_lines races.now) }
{
    for at in 0..races.len() {
        put_race(pen, races.get(at), out)?;
    }
    Ok(())
}

impl OneLine for Style {
    ghost told = { style_line };

    fn put<O: Sink>(&self, pen: &mut Pen, out: &mut O) -> Result<(), Failed> {
        let mut races = [0; MOST_RACES];
        races[..self.races.len()].copy_from_slice(self.races.as_slice());
        let line = Line::Style {
            name: self.name.bytes(),
            races,
            count: self.races.len() as u32,
        };
        pen.put_line(&line, out)
    }
}

/// Writes all styles.
fn put_styles<O: Sink>(pen: &mut Pen, styles: &Items<Style>, out: &mut O) -> Result<(), Failed>
    requires styles { All StyleFits styles.now }
    ensures { Writes O.written O.faults pen.old out.old pen.new out.new result (map style_line styles.now) }
{
    put_lines(pen, styles, out)
}

impl OneLine for Run {
    ghost told = { run_line };

    fn put<O: Sink>(&self, pen: &mut Pen, out: &mut O) -> Result<(), Failed> {
        let line = Line::Ballots {
            style: self.style,
            count: self.count,
        };
        pen.put_line(&line, out)
    }
}

/// Writes the election's name.
fn put_election<O: Sink>(pen: &mut Pen, name: &Word, out: &mut O) -> Result<(), Failed>
    requires name { IsName name.now }
    ensures { Writes O.written O.faults pen.old out.old pen.new out.new result (Election name.now ∷ []) }
{
    pen.put_line(&Line::Election(name.bytes()), out)
}

/// Writes the version, the election's name and the number of instances.
#[tactic(auto, using(crate::proofs::Limits::limit_facts))]
fn put_front<O: Sink>(pen: &mut Pen, plan: &Plan, out: &mut O) -> Result<(), Failed>
    requires limits { fault_of plan.now ≡ None }
    ensures { Writes O.written O.faults pen.old out.old pen.new out.new result (Version plan.now.version ∷ Election plan.now.name ∷ Instances plan.now.instances ∷ []) }
{
    pen.put_line(&Line::Version(plan.version), out)?;
    put_election(pen, &plan.name, out)?;
    pen.put_line(&Line::Instances(plan.instances), out)
}

/// Writes the lines of a plan that keeps its limits.
#[tactic(auto, using(crate::proofs::Limits::limit_facts))]
pub(crate) fn put_plan<O: Sink>(pen: &mut Pen, plan: &Plan, out: &mut O) -> Result<(), Failed>
    requires limits { fault_of plan.now ≡ None }
    ensures { Writes O.written O.faults pen.old out.old pen.new out.new result (plan_lines plan.now) }
{
    put_front(pen, plan, out)?;
    put_races(pen, &plan.races, out)?;
    put_styles(pen, &plan.styles, out)?;
    put_lines(pen, &plan.runs, out)
}
