//! A pass as a judge of the lines that it is fed.

use crate::standing::judge_line;
use sg_check::Judged;
use sg_driver::{Judge, Standing};
use sg_judge::Pass;
use sg_outside::{Failed, Outcome, Sink};
use sg_plan::NoMemory;
use sg_report::write_report;
use std::alloc::Global;

/// Judges the lines of a record.
#[derive(Drop)]
pub(crate) struct Auditor {
    pass: Pass,
}

impl Judge for Auditor {
    ghost use Rattle.std.specs.Prelude.{◌≡◌, true, false};
    ghost use Rattle.sg_check.specs.Verdict.{AreFine};
    ghost use Rattle.sg_judge.specs.Pass.{StandsFor, is_open, left_in as lines_left};
    ghost use Rattle.sg_reports.specs.inside.Judging.{audit};

    type Answer = Judged;

    ghost judging = { audit };

    ghost stands = { λ auditor lines. StandsFor auditor.pass lines × (is_open auditor.pass ≡ true) × AreFine lines };

    ghost settled = { λ auditor lines. StandsFor auditor.pass lines × (is_open auditor.pass ≡ false) };

    ghost left_in = { λ auditor. lines_left auditor.pass };

    fn new(alloc: Global) -> Result<Auditor, NoMemory> {
        let pass = Pass::new(alloc)?;
        Ok(Auditor { pass })
    }

    fn line(&mut self, line: &[u8]) -> Result<Standing, NoMemory> {
        judge_line(&mut self.pass, line)
    }

    fn end(self, _alloc: Global) -> Result<Judged, NoMemory> {
        let Auditor { pass } = self;
        Ok(pass.end())
    }

    fn end_settled(self) -> Judged {
        let Auditor { pass } = self;
        pass.end()
    }

    fn end_at_no_line(self, _alloc: Global) -> Result<Judged, NoMemory> {
        let Auditor { pass } = self;
        Ok(pass.end_at_no_line())
    }

    fn outcome(answer: &Judged) -> Outcome {
        match answer {
            Judged::Yes(_) => Outcome::Done,
            Judged::No { .. } => Outcome::No,
        }
    }

    fn write_report<O: Sink>(answer: &Judged, out: &mut O) -> Result<(), Failed> {
        write_report(out, answer)
    }
}
