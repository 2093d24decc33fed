//! What may stand next in a record, and how one line after another is taken.
ghost use Rattle.std.specs.Prelude.{◌≡◌, ◌<◌, is_none, is_some, length, IfSome, IsSome, None, OnErr, OnOk, Some, true};
ghost use Rattle.std.specs.Option.{option_map};
ghost use Rattle.sg_plan.specs.Ballots.{entries_of};
ghost use Rattle.sg_plan.specs.Limits.{fault_of};
ghost use Rattle.sg_forms.specs.Said.{said};
ghost use Rattle.sg_grammar.specs.Head.{has_runs, head_line};
ghost use Rattle.sg_grammar.specs.Made.{HasSizes, IsMade};
ghost use Rattle.sg_grammar.specs.Slots.{due_of, IsInSome, IsPartIn};
ghost use Rattle.sg_grammar.specs.Standing.{taken_at, IsStandingIn};
ghost use Rattle.sg_grammar.specs.Walk.{behind, is_whole, start, take_line};
ghost use Rattle.sg_grammar.specs.declared.state.Head.TheVariants as HeadIs;

use crate::body::{Standing, stand_behind};
use crate::counted::CountedPlan;
use crate::head::may_stand_in_head;
use crate::state::{Head, Part, Slot};
use sg_forms::Line;
use sg_plan::{NoMemory, Plan};
use std::alloc::Global;
use std::marker::Model;

/// What may stand next in a record.
///
/// A caller asks by `may` whether a line may stand, and then takes it by `plan_step` where `is_of_plan`
/// says so, and else by `step`. Behind the plan `stand` gives the line in its place, and `go_on` takes it,
/// so that it is looked at once. Only `plan_step` takes memory.
#[derive(Debug, Drop)]
pub struct Expect {
    alloc: Global,
    plan: CountedPlan,
    head: Head,
    slot: Option<Slot>,
    part: Part,
}

impl Model for Expect {
    ghost use Rattle.sg_grammar.specs.Walk.{Next};

    ghost Value = { Next };

    ghost use Rattle.sg_grammar.specs.inside.Expecting.{IsExpecting, next_at};

    ghost view = { λ expect. next_at expect.plan expect.head expect.slot expect.part };

    ghost invariant = { λ expect. IsExpecting expect.plan expect.head expect.slot expect.part };
}

impl Expect {
    /// Before the first line. It takes no memory.
    pub fn start(alloc: Global) -> Expect
        ensures { result ≡ start }
    {
        Expect {
            alloc,
            plan: CountedPlan::new(alloc),
            head: Head::Version,
            slot: None,
            part: Part::Ballots { last: 0 },
        }
    }

    /// The line is one of the plan's, and may stand next.
    pub fn is_of_plan(&self, line: &Line) -> bool
        ensures { result ≡ is_some (head_line self.now.plan self.now.head (said line.now)) }
    {
        may_stand_in_head(&self.plan, self.head, line)
    }

    /// The line may stand next.
    pub fn may(&self, line: &Line) -> bool
        ensures { result ≡ is_some (take_line self.now (said line.now)) }
    {
        if may_stand_in_head(&self.plan, self.head, line) {
            return true;
        }
        match stand_behind(&self.plan, self.head, &self.slot, self.part, line) {
            Some(_) => true,
            None => false,
        }
    }

    /// Takes a line of the plan that may stand next. After `NoMemory` all is as before.
    pub fn plan_step(&mut self, line: &Line) -> Result<(), NoMemory>
        requires { IsSome (head_line self.old.plan self.old.head (said line.now)) }
        ensures ok { OnOk result (option_map (λ taken. taken.next) (take_line self.old (said line.now)) ≡ Some self.new) }
        ensures err { OnErr result (self.new ≡ self.old) }
    {
        let next = self.plan.add(self.alloc, self.head, line)?;
        self.head = next;
        self.slot = None;
        self.part = Part::Ballots { last: 0 };
        Ok(())
    }

    /// Takes a line that may stand next and is none of the plan's. It takes no memory.
    pub fn step(&mut self, line: &Line)
        requires may { IsSome (take_line self.old (said line.now)) }
        requires behind { head_line self.old.plan self.old.head (said line.now) ≡ None }
        ensures { option_map (λ taken. taken.next) (take_line self.old (said line.now)) ≡ Some self.new }
    {
        match self.stand(line) {
            Some(standing) => self.go_on(standing),
            None => unreachable!(),
        }
    }

    /// A line that is none of the plan in its place, and what may stand behind it: `None` exactly where it may not stand
    /// next.
    #[inline(always)]
    pub fn stand<'a>(&self, line: &Line<'a>) -> Option<Standing<'a>>
        requires behind { head_line self.now.plan self.now.head (said line.now) ≡ None }
        ensures taken { option_map (taken_at self.now.plan) result ≡ take_line self.now (said line.now) }
        ensures within { IfSome result (IsStandingIn self.now.plan) }
        ensures made { IsSome result → IsMade self.now.plan HeadIs.Whole }
    {
        stand_behind(&self.plan, self.head, &self.slot, self.part, line)
    }

    /// Takes a line that stands there. It takes no memory.
    pub fn go_on(&mut self, standing: Standing)
        requires made { IsMade self.old.plan HeadIs.Whole }
        requires slot { IsInSome self.old.plan standing.slot }
        requires part { IsPartIn self.old.plan standing.part }
        ensures { self.new ≡ behind self.old.plan (due_of self.old.plan standing.entry.slot) standing.entry.part }
    {
        self.head = Head::Whole;
        self.slot = standing.slot;
        self.part = standing.part;
    }

    /// All sections stand, and no line is due.
    pub fn whole(&self) -> bool
        ensures { result ≡ is_whole self.now }
    {
        matches!(
            (self.head, self.slot, self.part),
            (Head::Whole, None, Part::Disputes { .. })
        )
    }

    /// A line of ballots stands, so that the plan keeps its limits.
    pub fn has_plan(&self) -> bool
        ensures { result ≡ has_runs self.now.head }
    {
        match self.head {
            Head::Runs => true,
            Head::Whole => true,
            _ => false,
        }
    }

    /// The plan, as far as its lines stand.
    pub fn plan(&self) -> &Plan
        ensures is { result.now ≡ self.now.plan }
        ensures made { IsMade self.now.plan self.now.head }
        ensures keeps { has_runs self.now.head ≡ true → fault_of self.now.plan ≡ None }
        ensures exactly { is_none (fault_of self.now.plan) ≡ has_runs self.now.head }
    {
        self.plan.plan()
    }

    /// The plan, as far as its lines stand, for a caller who takes no more lines.
    pub fn into_plan(self) -> Plan
        ensures { result ≡ self.plan }
    {
        self.plan.into_plan()
    }

    /// How many entries the race has. It takes the same time for each plan.
    pub fn entries(&self, race: u32) -> u32
        requires { race < length self.now.plan.races }
        ensures { result ≡ entries_of self.now.plan race }
    {
        self.plan.entries(race)
    }
}
