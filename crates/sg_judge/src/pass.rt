//! The verdict in one pass: what is kept of the lines so far, and what is said of them.
ghost use Rattle.std.specs.Prelude.{◌≡◌, ◌<◌, ℕ, List, [], ◌∷◌, ◌++◌, true, false, IfOk, IsOk, None, Ok, OnErr, OnOk, Option};
ghost use Rattle.sg_check.specs.Verdict.{IsNo, IsVerdict};
ghost use Rattle.sg_forms.specs.Reading.{line_of};
ghost use Rattle.sg_ledger.specs.Tells.{totals_placed};
ghost use Rattle.sg_judge.specs.FirstSeal.{first_seal};
ghost use Rattle.sg_judge.specs.Pass.{Says, SaysBehind, StandsFor, StandsForSome, is_behind_plan, is_fine, is_open, is_ready, left_in, plan_of, says_ready, step_of};
ghost use Rattle.sg_judge.specs.inside.Taking.{Keeps};
ghost use Rattle.sg_plan.specs.declared.plan.Plan.{Plan as PlanSeen};
ghost use Rattle.sg_grammar.specs.Placed.{Placed};

use crate::header::advance_header;
use crate::taking::advance;
use sg_check::{Judged, Kind, Total};
use sg_commit::{Digest, Sealer};
use sg_grammar::Expect;
use sg_ledger::Ledger;
use sg_plan::{Items, NoMemory, Plan};
use std::alloc::Global;

/// What a pass says of the lines so far.
#[derive(Clone, Copy, Debug, PartialEq, Eq)]
pub enum Step {
    /// No line was bad so far, and the next is wanted.
    More,
    /// The same, and this line was the first behind the plan: from here on no memory is taken.
    Ready,
    /// A line was bad, and what follows it changes nothing.
    Over,
}

/// A pass over the lines of a record, which keeps none of them.
///
/// The lines of the plan and the first line behind them are taken by `header_line`, up to the answer `Ready`, and all
/// later ones by `line`.
#[derive(Drop)]
pub struct Pass {
    alloc: Global,
    expect: Expect,
    sealer: Sealer,
    /// The tables: there from the first fine line behind the plan on.
    ledger: Option<Ledger>,
    /// How many lines were taken: up to the first bad one.
    number: u32,
    /// The digest of the line `seal 1`.
    seal: Option<Digest>,
    broken: Option<Kind>,
}

impl Pass {
    /// A pass over no lines yet. It takes no memory, and so never answers `NoMemory`.
    #[tactic(auto, using(crate::proofs::Ending::ends, crate::proofs::FirstSeal::first_seal_empty))]
    pub fn new(alloc: Global) -> Result<Pass, NoMemory>
        ensures ok { IsOk result }
        ensures stands { IfOk result (λ pass. StandsFor pass []) }
        ensures open { IfOk result (λ pass. is_open pass ≡ true) }
        ensures ready { IfOk result (λ pass. is_ready pass ≡ false) }
    {
        Ok(Pass {
            alloc,
            expect: Expect::start(alloc),
            sealer: Sealer::new(),
            ledger: None,
            number: 0,
            seal: None,
            broken: None,
        })
    }

    /// Takes the next line, with its line feed, where `is_ready` is false. Behind a bad line it does nothing.
    ///
    /// It answers `Ready` where the lines are fine and one behind the plan is among them. After `NoMemory` all is as
    /// before.
    pub fn header_line(&mut self, line: &[u8]) -> Result<Step, NoMemory>
        requires stands { StandsForSome self.old }
        requires before { is_ready self.old ≡ false }
        ensures adds { is_open self.old ≡ true → OnOk result ((lines : List (List ℕ)) → StandsFor self.old lines → StandsFor self.new (lines ++ line.now ∷ [])) }
        ensures says { is_open self.old ≡ true → IfOk result (λ step. (lines : List (List ℕ)) → StandsFor self.old lines → Says step (lines ++ line.now ∷ [])) }
        ensures open { is_open self.old ≡ true → IfOk result (λ step. is_open self.new ≡ is_fine step) }
        ensures ready { IfOk result (λ step. is_ready self.new ≡ says_ready step) }
        ensures falls { IfOk result (λ step. is_fine step ≡ true → left_in self.new < left_in self.old) }
        ensures stays { is_open self.old ≡ false → (result ≡ Ok Step.Over) × (self.new ≡ self.old) }
        ensures err { OnErr result (self.new ≡ self.old) }
    {
        if self.broken.is_some() {
            return Ok(Step::Over);
        }
        let broken = advance_header(
            self.alloc,
            &mut self.expect,
            &mut self.sealer,
            &mut self.ledger,
            &mut self.seal,
            line,
        )?;
        self.broken = broken;
        self.number += 1;
        Ok(answer(broken, self.is_ready()))
    }

    /// The first line behind the plan was taken, and was fine: all memory is taken.
    pub fn is_ready(&self) -> bool
        ensures is { result ≡ is_ready self.now }
        ensures says { is_open self.now ≡ true → (lines : List (List ℕ)) → StandsFor self.now lines → result ≡ is_behind_plan lines }
    {
        self.ledger.is_some()
    }

    /// The plan, where all of its lines were taken.
    pub fn plan(&self) -> &Plan
        requires ready { is_ready self.now ≡ true }
        ensures is { is_open self.now ≡ true → (lines : List (List ℕ)) → StandsFor self.now lines → plan_of lines ≡ Some result.now }
    {
        self.expect.plan()
    }

    /// The digest of the line `seal 1`, where it was taken.
    pub fn first_seal(&self) -> Option<Digest>
        ensures is { is_open self.now ≡ true → (lines : List (List ℕ)) → StandsFor self.now lines → result ≡ first_seal lines }
    {
        self.seal
    }

    /// Takes the next line, with its line feed, where `is_ready` is true. It takes no memory, and answers `More` or
    /// `Over`. Behind a bad line it does nothing.
    pub fn line(&mut self, line: &[u8]) -> Step
        requires stands { StandsForSome self.old }
        requires behind { is_ready self.old ≡ true }
        ensures adds { is_open self.old ≡ true → (lines : List (List ℕ)) → StandsFor self.old lines → StandsFor self.new (lines ++ line.now ∷ []) }
        ensures says { is_open self.old ≡ true → (lines : List (List ℕ)) → StandsFor self.old lines → SaysBehind result (lines ++ line.now ∷ []) }
        ensures open { is_open self.old ≡ true → is_open self.new ≡ is_fine result }
        ensures ready { is_ready self.new ≡ true }
        ensures falls { is_fine result ≡ true → left_in self.new < left_in self.old }
        ensures stays { is_open self.old ≡ false → (result ≡ Step.Over) × (self.new ≡ self.old) }
    {
        if self.broken.is_some() {
            return Step::Over;
        }
        let Some(ledger) = &mut self.ledger else {
            unreachable!()
        };
        let broken = advance(
            &mut self.expect,
            &mut self.sealer,
            ledger,
            &mut self.seal,
            line,
        );
        self.broken = broken;
        self.number += 1;
        answer(broken, false)
    }

    /// The verdict on the lines so far, the last of them included. Lines behind a bad one don't change it. It takes no
    /// memory.
    pub fn end(self) -> Judged
        ensures all { (lines : List (List ℕ)) → StandsFor self lines → IsVerdict lines result }
        ensures no { is_open self ≡ false → IsNo result }
        ensures over { is_open self ≡ false → (lines more : List (List ℕ)) → StandsFor self lines → IsVerdict (lines ++ more) result }
    {
        let mut pass = self;
        let judged = pass.take_verdict();
        drop(pass);
        judged
    }

    /// The verdict on the lines so far. The ledger gives its totals away.
    fn take_verdict(&mut self) -> Judged
        ensures all { (lines : List (List ℕ)) → StandsFor self.old lines → IsVerdict lines result }
        ensures no { is_open self.old ≡ false → IsNo result }
        ensures over { is_open self.old ≡ false → (lines more : List (List ℕ)) → StandsFor self.old lines → IsVerdict (lines ++ more) result }
    {
        if let Some(kind) = self.broken {
            return Judged::No {
                line: self.number,
                kind,
            };
        }
        if self.expect.whole() {
            let ledger = self.ledger.take();
            return Judged::Yes(totals_told(self.alloc, ledger));
        }
        Judged::No {
            line: self.number.saturating_add(1),
            kind: Kind::Form,
        }
    }

    /// The verdict where the next bytes are no line in any version: they have no line feed, or are too long.
    pub fn end_at_no_line(self) -> Judged
        requires open { is_open self ≡ true }
        ensures all { (lines more : List (List ℕ)) (text : List ℕ) → StandsFor self lines → ((version : ℕ) → line_of version text ≡ None) → IsVerdict (lines ++ text ∷ more) result }
        ensures no { IsNo result }
    {
        let line = self.number.saturating_add(1);
        drop(self);
        Judged::No {
            line,
            kind: Kind::Form,
        }
    }
}

/// What is said of lines of which the last is bad in this kind, or in none.
fn answer(broken: Option<Kind>, ready: bool) -> Step
    ensures { result ≡ step_of broken ready }
{
    match broken {
        Some(_) => Step::Over,
        None => fine_step(ready),
    }
}

/// What is said of fine lines.
fn fine_step(ready: bool) -> Step
    ensures { result ≡ step_of None ready }
{
    if ready { Step::Ready } else { Step::More }
}

/// The totals that a ledger was told.
#[tactic(auto, using(crate::proofs::Ending::ends))]
fn totals_told(alloc: Global, ledger: Option<Ledger>) -> Items<Total>
    ensures { (plan : PlanSeen) (lines : List Placed) → Keeps plan ledger lines → result ≡ totals_placed lines }
{
    match ledger {
        Some(ledger) => ledger.totals(),
        None => Items::new(alloc),
    }
}
