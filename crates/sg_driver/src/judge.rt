//! Who judges the lines of an input.

ghost use Rattle.std.specs.Prelude.{◌≡◌, ◌<◌, ◌++◌, ◌∷◌, ℕ, List, [], IfOk, OnErr};
ghost use Rattle.sg_outside.specs.Faults.{HasCause};
ghost use Rattle.sg_outside.specs.Streams.{PutAppends};
ghost use Rattle.sg_driver.specs.Judging.{IsNoLine, IsOfAnswer, Judging};
ghost use Rattle.sg_driver.specs.Standing.{Goes};

use sg_outside::{Failed, Outcome, Sink};
use sg_plan::NoMemory;
use std::alloc::Global;

/// What is said of the lines so far.
#[derive(Clone, Copy, Debug, PartialEq, Eq)]
pub enum Standing {
    /// They settle nothing, and the next is wanted.
    Open,
    /// They settle an answer, whatever follows.
    Settled,
}

/// Judges the lines of an input one after another, and keeps none of them.
///
/// Its meaning is `judging`, what its answers say; `stands`, that it has taken these lines, which settle nothing; `settled`, that
/// it has taken these lines, and they settle an answer; and `left_in`, more lines than may still come.
pub trait Judge {
    /// What is answered.
    type Answer: Drop;

    ghost judging: { Judging Self.Answer };

    ghost stands: { Self → List (List ℕ) → Type 0 };

    ghost settled: { Self → List (List ℕ) → Type 0 };

    ghost left_in: { Self → ℕ };

    /// One that has taken no lines yet.
    fn new(alloc: Global) -> Result<Self, NoMemory>
        ensures unsettled { judging.Unsettled [] }
        ensures wants { judging.Wants [] }
        ensures stands { IfOk result (λ judge. stands judge []) };

    /// Takes the next line, with its line feed, where nothing is settled yet.
    fn line(&mut self, line: &[u8]) -> Result<Standing, NoMemory>
        requires { (lines : List (List ℕ)) × stands self.old lines }
        ensures goes { IfOk result (λ standing. (lines : List (List ℕ)) → stands self.old lines → Goes judging (stands self.new) (settled self.new) standing (lines ++ line.now ∷ [])) }
        ensures falls { IfOk result (λ standing. standing ≡ Standing.Open → left_in self.new < left_in self.old) }
        ensures wants { OnErr result ((lines : List (List ℕ)) → stands self.old lines → judging.Wants lines) };

    /// The answer where there are no more lines.
    fn end(self, alloc: Global) -> Result<Self::Answer, NoMemory>
        requires { (lines : List (List ℕ)) × stands self lines }
        ensures all { IfOk result (λ answer. (lines : List (List ℕ)) → stands self lines → judging.IsAnswer lines answer) }
        ensures wants { OnErr result ((lines : List (List ℕ)) → stands self lines → judging.Wants lines) };

    /// The answer that the lines settle.
    fn end_settled(self) -> Self::Answer
        requires { (lines : List (List ℕ)) × settled self lines }
        ensures over { (lines more : List (List ℕ)) → settled self lines → judging.IsAnswer (lines ++ more) result }
        ensures refuses { (lines : List (List ℕ)) → settled self lines → judging.Refuses result };

    /// The answer where the next bytes are no line: they have no line feed, or are too many.
    fn end_at_no_line(self, alloc: Global) -> Result<Self::Answer, NoMemory>
        requires { (lines : List (List ℕ)) × stands self lines }
        ensures all { IfOk result (λ answer. (lines more : List (List ℕ)) (text : List ℕ) → stands self lines → IsNoLine text → judging.IsAnswer (lines ++ text ∷ more) answer) }
        ensures refuses { IfOk result (λ answer. judging.Refuses answer) }
        ensures wants { OnErr result ((lines : List (List ℕ)) → stands self lines → judging.Wants lines) };

    /// How the command ends with an answer whose report was written.
    fn outcome(answer: &Self::Answer) -> Outcome
        ensures is { result ≡ judging.outcome answer.now }
        ensures done { IsOfAnswer result };

    /// Writes the report of an answer.
    fn write_report<O: Sink>(answer: &Self::Answer, out: &mut O) -> Result<(), Failed>
        ensures bytes { PutAppends (O.written out.old) (O.written out.new) result (judging.report answer.now) }
        ensures cause { HasCause (O.faults out.old) (O.faults out.new) result };
}
