//! A tally as a judge of the lines that it is fed.

use crate::county::report::write_report;
use crate::standing::standing;
use sg_county::{CountyVerdict, Tally};
use sg_driver::{Judge, Standing};
use sg_outside::{Failed, Outcome, Sink};
use sg_plan::NoMemory;
use std::alloc::Global;

/// Judges the lines of a county.
#[derive(Drop)]
pub(crate) struct Counter {
    alloc: Global,
    tally: Tally,
}

impl Judge for Counter {
    ghost use Rattle.std.specs.Prelude.{◌≡◌, true, false};
    ghost use Rattle.sg_county.specs.Tally.{IsUnsettled, StandsFor, is_open, left_in as lines_left};
    ghost use Rattle.sg_reports.specs.inside.Judging.{county};

    type Answer = CountyVerdict;

    ghost judging = { county };

    ghost stands = { λ counter lines. StandsFor counter.tally lines × (is_open counter.tally ≡ true) × IsUnsettled lines };

    ghost settled = { λ counter lines. StandsFor counter.tally lines × (is_open counter.tally ≡ false) };

    ghost left_in = { λ counter. lines_left counter.tally };

    fn new(alloc: Global) -> Result<Counter, NoMemory> {
        let tally = Tally::new(alloc)?;
        Ok(Counter { alloc, tally })
    }

    fn line(&mut self, line: &[u8]) -> Result<Standing, NoMemory> {
        let step = self.tally.line(self.alloc, line)?;
        Ok(standing(step))
    }

    fn end(self, _alloc: Global) -> Result<CountyVerdict, NoMemory> {
        let Counter { tally, .. } = self;
        Ok(tally.end())
    }

    fn end_settled(self) -> CountyVerdict {
        let Counter { tally, .. } = self;
        tally.end()
    }

    fn end_at_no_line(self, _alloc: Global) -> Result<CountyVerdict, NoMemory> {
        let Counter { tally, .. } = self;
        Ok(tally.end_at_no_line())
    }

    fn outcome(answer: &CountyVerdict) -> Outcome {
        match answer {
            CountyVerdict::Yes(_) => Outcome::Done,
            CountyVerdict::No { .. } => Outcome::No,
            CountyVerdict::Differs(_) => Outcome::No,
            CountyVerdict::Repeats { .. } => Outcome::No,
            CountyVerdict::Parts => Outcome::Refused,
        }
    }

    fn write_report<O: Sink>(answer: &CountyVerdict, out: &mut O) -> Result<(), Failed> {
        write_report(out, answer)
    }
}
