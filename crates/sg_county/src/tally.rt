//! The answer on a county in one pass: what is kept of the lines so far, and what is said of them.
ghost use Rattle.std.specs.Prelude.{◌≡◌, ◌<◌, ◌==◌, if◌then◌else◌, ℕ, List, [], ◌∷◌, ◌++◌, not, true, false, IfOk, None, Ok, OnErr, OnOk};
ghost use Rattle.sg_record.specs.declared.record.Record.{Record};
ghost use Rattle.sg_check.specs.Verdict.{IsVerdict};
ghost use Rattle.sg_county.specs.County.{IsCounty, IsFirstSettled, is_next, most_parts};
ghost use Rattle.sg_county.specs.Tally.{IsRefusal, Says, StandsFor, StandsForSome, is_more, is_open, left_in};
ghost use Rattle.sg_county.specs.inside.Ending.{IsLast, IsSomeLast};
ghost use Rattle.sg_county.specs.inside.Going.{closed, settled_by, step_behind};
ghost use Rattle.sg_county.specs.inside.Keeping.{Fits};
ghost use Rattle.sg_judge.specs.Pass.{StandsFor as HasTaken, StandsForSome as HasTakenSome, SaysBehind, is_fine, is_open as is_fine_so_far, left_in as lines_left_in};
ghost use Rattle.sg_forms.specs.Reading.{line_of};

use crate::ending::{Close, end_of};
use crate::kept::Kept;
use crate::last::{end_last, end_last_at_no_line};
use crate::verdict::CountyVerdict;
use sg_check::Judged;
use sg_judge::{Pass, Step};
use sg_plan::NoMemory;
use std::alloc::Global;
use std::mem;

/// So many parts may stand.
const MOST_PARTS: u32 = 100;

/// A pass over the records of a county, one after another, which keeps none of their lines.
#[derive(Drop)]
pub struct Tally {
    /// The pass over the last part's lines.
    pass: Pass,
    /// What is kept of the parts before it.
    kept: Kept,
    /// The lines settled an answer other than yes.
    over: bool,
    /// The answer, where it was a part's end that settled it, or the line that began one too many.
    settled: Option<CountyVerdict>,
}

impl Tally {
    /// A tally over no lines yet, with room for the seals of all parts.
    pub fn new(alloc: Global) -> Result<Tally, NoMemory>
        ensures stands { IfOk result (λ tally. StandsFor tally []) }
        ensures open { IfOk result (λ tally. is_open tally ≡ true) }
    {
        let kept = Kept::new(alloc, MOST_PARTS as usize)?;
        Ok(Tally {
            pass: fresh_pass(alloc),
            kept,
            over: false,
            settled: None,
        })
    }

    /// Takes the next line, with its line feed, and answers `More` or `Over`. Behind `Over` it does nothing.
    ///
    /// `Over` comes exactly where the lines so far settle an answer other than yes. After `NoMemory` all is as before.
    pub fn line(&mut self, alloc: Global, line: &[u8]) -> Result<Step, NoMemory>
        requires stands { StandsForSome self.old }
        ensures adds { is_open self.old ≡ true → OnOk result ((lines : List (List ℕ)) → StandsFor self.old lines → StandsFor self.new (lines ++ line.now ∷ [])) }
        ensures says { is_open self.old ≡ true → IfOk result (λ step. (lines : List (List ℕ)) → StandsFor self.old lines → Says step (lines ++ line.now ∷ [])) }
        ensures open { is_open self.old ≡ true → IfOk result (λ step. is_open self.new ≡ is_more step) }
        ensures falls { IfOk result (λ step. is_more step ≡ true → left_in self.new < left_in self.old) }
        ensures stays { is_open self.old ≡ false → (result ≡ Ok Step.Over) × (self.new ≡ self.old) }
        ensures err { OnErr result (self.new ≡ self.old) }
    {
        if self.over {
            return Ok(Step::Over);
        }
        if is_next_line(line) {
            return self.next_part(alloc);
        }
        self.inner_line(line)
    }

    /// Takes a line `next`, where nothing is settled: the last part ends, and one more begins.
    fn next_part(&mut self, alloc: Global) -> Result<Step, NoMemory>
        requires stands { StandsForSome self.old }
        requires open { is_open self.old ≡ true }
        ensures adds { OnOk result ((lines : List (List ℕ)) (line : List ℕ) → is_next line ≡ true → StandsFor self.old lines → StandsFor self.new (lines ++ line ∷ [])) }
        ensures says { IfOk result (λ step. (lines : List (List ℕ)) (line : List ℕ) → is_next line ≡ true → StandsFor self.old lines → Says step (lines ++ line ∷ [])) }
        ensures open { IfOk result (λ step. is_open self.new ≡ is_more step) }
        ensures falls { IfOk result (λ step. is_more step ≡ true → left_in self.new < left_in self.old) }
        ensures err { OnErr result (self.new ≡ self.old) }
    {
        let found = self.kept.note_part(alloc, &self.pass)?;
        let judged = end_and_replace(&mut self.pass, fresh_pass(alloc));
        Ok(self.close_part(alloc, found.number, end_of(&found, judged)))
    }

    /// Goes on behind a part that has ended, of this number.
    fn close_part(&mut self, alloc: Global, number: u32, end: Close) -> Step
        requires fits { Fits number self.old.kept.sums end }
        ensures closed { self.new ≡ closed self.old number end }
        ensures step { result ≡ step_behind number end }
    {
        match end {
            Close::Settles(verdict) => self.settle(verdict),
            Close::Counts(totals) => {
                self.kept.add(alloc, number, totals);
                self.begin_part(number)
            }
        }
    }

    /// Begins a part behind that of this number, which may be the last.
    fn begin_part(&mut self, number: u32) -> Step
        ensures state { self.new ≡ (if number == most_parts then settled_by self.old CountyVerdict.Parts else self.old) }
        ensures step { result ≡ (if number == most_parts then Step.Over else Step.More) }
    {
        if number == MOST_PARTS {
            return self.settle(CountyVerdict::Parts);
        }
        Step::More
    }

    /// Settles an answer other than yes.
    fn settle(&mut self, verdict: CountyVerdict) -> Step
        ensures state { self.new ≡ settled_by self.old verdict }
        ensures step { result ≡ Step.Over }
    {
        self.over = true;
        self.settled = Some(verdict);
        Step::Over
    }

    /// Takes a line inside the last part, where nothing is settled.
    fn inner_line(&mut self, line: &[u8]) -> Result<Step, NoMemory>
        requires stands { StandsForSome self.old }
        requires open { is_open self.old ≡ true }
        requires inner { is_next line.now ≡ false }
        ensures adds { OnOk result ((lines : List (List ℕ)) → StandsFor self.old lines → StandsFor self.new (lines ++ line.now ∷ [])) }
        ensures says { IfOk result (λ step. (lines : List (List ℕ)) → StandsFor self.old lines → Says step (lines ++ line.now ∷ [])) }
        ensures open { IfOk result (λ step. is_open self.new ≡ is_more step) }
        ensures falls { IfOk result (λ step. is_more step ≡ true → left_in self.new < left_in self.old) }
        ensures err { OnErr result (self.new ≡ self.old) }
    {
        let step = take_line(&mut self.pass, line)?;
        self.over = is_over(step);
        Ok(step)
    }

    /// The answer on the lines so far. Lines behind `Over` don't change it. It takes no memory.
    pub fn end(self) -> CountyVerdict
        requires stands { StandsForSome self }
        ensures all { (lines : List (List ℕ)) → StandsFor self lines → IsCounty lines result }
        ensures over { is_open self ≡ false → (lines more : List (List ℕ)) → StandsFor self lines → IsCounty (lines ++ more) result }
        ensures refuses { is_open self ≡ false → IsRefusal result }
    {
        let mut tally = self;
        match tally.settled.take() {
            Some(verdict) => {
                drop(tally);
                verdict
            }
            None => end_open(tally),
        }
    }

    /// The answer where the next bytes are no line in any version, nor a line `next`: they have no line feed, or are too
    /// long. It takes no memory.
    pub fn end_at_no_line(self) -> CountyVerdict
        requires stands { StandsForSome self }
        requires open { is_open self ≡ true }
        ensures all { (lines more : List (List ℕ)) (text : List ℕ) → StandsFor self lines → ((version : ℕ) → line_of version text ≡ None) → is_next text ≡ false → IsCounty (lines ++ text ∷ more) result }
        ensures refuses { IsRefusal result }
    {
        let Tally { pass, kept, .. } = self;
        end_last_at_no_line(pass, kept)
    }
}

/// The answer where the last part ends, and none before it settled one.
fn end_open(tally: Tally) -> CountyVerdict
    requires { IsSomeLast tally.pass tally.kept }
    ensures all { (before : List Record) (last : List (List ℕ)) → IsLast tally.pass tally.kept before last → IsFirstSettled before (last ∷ []) result }
    ensures over { is_fine_so_far tally.pass ≡ false → (before : List Record) (rest : List (List (List ℕ))) (last more : List (List ℕ)) → IsLast tally.pass tally.kept before last → IsFirstSettled before ((last ++ more) ∷ rest) result }
    ensures refuses { is_fine_so_far tally.pass ≡ false → IsRefusal result }
{
    let Tally { pass, kept, .. } = tally;
    end_last(pass, kept)
}

/// A pass over no lines yet, which takes no memory.
fn fresh_pass(alloc: Global) -> Pass
    ensures stands { HasTaken result [] }
    ensures open { is_fine_so_far result ≡ true }
{
    let Ok(pass) = Pass::new(alloc) else {
        unreachable!()
    };
    pass
}

/// Ends a pass, and begins a fresh one in its place.
fn end_and_replace(pass: &mut Pass, fresh: Pass) -> Judged
    ensures fresh { pass.new ≡ fresh }
    ensures judges { (part : List (List ℕ)) → HasTaken pass.old part → IsVerdict part result }
{
    let ended = mem::replace(pass, fresh);
    ended.end()
}

/// The line between two parts.
fn is_next_line(line: &[u8]) -> bool
    ensures { result ≡ is_next line.now }
{
    match line {
        b"next\n" => true,
        _ => false,
    }
}

/// Takes a line into a pass, and answers `More` or `Over`.
fn take_line(pass: &mut Pass, line: &[u8]) -> Result<Step, NoMemory>
    requires stands { HasTakenSome pass.old }
    requires open { is_fine_so_far pass.old ≡ true }
    ensures adds { OnOk result ((part : List (List ℕ)) → HasTaken pass.old part → HasTaken pass.new (part ++ line.now ∷ [])) }
    ensures says { IfOk result (λ step. (part : List (List ℕ)) → HasTaken pass.old part → SaysBehind step (part ++ line.now ∷ [])) }
    ensures open { IfOk result (λ step. is_fine_so_far pass.new ≡ is_fine step) }
    ensures falls { IfOk result (λ step. is_fine step ≡ true → lines_left_in pass.new < lines_left_in pass.old) }
    ensures err { OnErr result (pass.new ≡ pass.old) }
{
    if pass.is_ready() {
        return Ok(pass.line(line));
    }
    match pass.header_line(line)? {
        Step::More => Ok(Step::More),
        Step::Ready => Ok(Step::More),
        Step::Over => Ok(Step::Over),
    }
}

/// A line was bad.
fn is_over(step: Step) -> bool
    ensures { result ≡ not (is_fine step) }
{
    match step {
        Step::Over => true,
        Step::More => false,
        Step::Ready => false,
    }
}
