//! A hearing as a judge of the lines that it is fed, by what is asked.
ghost use Rattle.std.specs.Prelude.{◌≡◌};

use crate::court::answer::{CourtAnswer, answer_outcome, write_answer};
use crate::court::found::Question;
use crate::court::hearing::Hearing;
use sg_driver::{Judge, Standing};
use sg_outside::{Failed, Outcome, Sink};
use sg_plan::NoMemory;
use std::alloc::Global;
use std::marker::PhantomData;

/// Who asks a question of all parts: a command.
pub(crate) trait Asks: Drop {
    ghost use Rattle.sg_reports.specs.declared.court.found.Question.{Question};

    ghost question: { Question };

    /// The question.
    fn question() -> Question
        ensures { result ≡ question };
}

/// The command `recount`.
#[derive(Drop)]
pub(crate) struct Recounts;

impl Asks for Recounts {
    ghost use Rattle.sg_reports.specs.declared.court.found.Question.TheVariants.{Recount};

    ghost question = { Recount };

    fn question() -> Question {
        Question::Recount
    }
}

/// The command `odds`.
#[derive(Drop)]
pub(crate) struct TellsOdds;

impl Asks for TellsOdds {
    ghost use Rattle.sg_reports.specs.declared.court.found.Question.TheVariants.{Odds};

    ghost question = { Odds };

    fn question() -> Question {
        Question::Odds
    }
}

/// Judges the input of a court's command.
#[derive(Drop)]
pub(crate) struct CourtJudge<A: Asks> {
    hearing: Hearing,
    asks: PhantomData<A>,
}

impl<A: Asks> Judge for CourtJudge<A> {
    ghost use Rattle.sg_reports.specs.court.inside.Answering.{court};
    ghost use Rattle.sg_reports.specs.court.inside.Hearing.{IsSettled, Stands, hearing_left};

    type Answer = CourtAnswer;

    ghost judging = { court A.question };

    ghost stands = { λ judge lines. Stands judge.hearing.taken lines };

    ghost settled = { λ judge lines. IsSettled judge.hearing.taken lines };

    ghost left_in = { λ judge. hearing_left judge.hearing };

    fn new(alloc: Global) -> Result<CourtJudge<A>, NoMemory> {
        let hearing = Hearing::new(alloc)?;
        Ok(CourtJudge {
            hearing,
            asks: PhantomData,
        })
    }

    fn line(&mut self, line: &[u8]) -> Result<Standing, NoMemory> {
        self.hearing.line(line)
    }

    fn end(self, alloc: Global) -> Result<CourtAnswer, NoMemory> {
        self.hearing.end(A::question(), alloc)
    }

    fn end_settled(self) -> CourtAnswer {
        CourtAnswer::Fault(self.hearing.end_settled())
    }

    fn end_at_no_line(self, alloc: Global) -> Result<CourtAnswer, NoMemory> {
        let fault = self.hearing.end_at_no_line(alloc)?;
        Ok(CourtAnswer::Fault(fault))
    }

    fn outcome(answer: &CourtAnswer) -> Outcome {
        answer_outcome(answer)
    }

    fn write_report<O: Sink>(answer: &CourtAnswer, out: &mut O) -> Result<(), Failed> {
        write_answer(out, answer)
    }
}
