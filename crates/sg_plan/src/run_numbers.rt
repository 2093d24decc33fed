//! The run of each ballot: the part of an index that grows with a plan's runs.
ghost use Rattle.std.specs.Prelude.{◌≡◌, ◌-◌, ◌<◌, ◌≤◌, ◌^◌, ◌==◌, ◌++◌, [], if◌then◌else◌, None, Some, IfOk, OnErr, OnOk, length, replicate, slice_get};
ghost use Rattle.sg_plan.specs.Ballots.{ballot_styles};
ghost use Rattle.sg_plan.specs.Runs.{IsInRun, run_numbers};

use crate::items::Items;
use crate::memory::NoMemory;
use crate::plan::Run;
use std::alloc::Global;
use std::marker::Model;

/// Of each ballot, the number of its run, in two bytes. Contracts see the list of these numbers, the first ballot's
/// first.
///
/// It can grow with the runs of a plan whose lines are still to come. Only `with_room` and `push_run` take memory.
#[derive(Debug, Drop)]
pub struct RunNumbers {
    numbers: Items<u16>,
}

impl Model for RunNumbers {
    ghost use Rattle.std.specs.Prelude.{List, ℕ};

    ghost Value = { List ℕ };

    ghost view = { λ it. it.numbers };
}

impl RunNumbers {
    /// The numbers of no runs. It takes no memory.
    pub fn new(alloc: Global) -> RunNumbers
        ensures { result ≡ [] }
    {
        RunNumbers {
            numbers: Items::new(alloc),
        }
    }

    /// The numbers of no runs, with room for those of so many ballots: pushing these takes no more memory.
    pub fn with_room(alloc: Global, ballots: usize) -> Result<RunNumbers, NoMemory>
        ensures { IfOk result (λ numbers. numbers ≡ []) }
    {
        let numbers = Items::with_room(alloc, ballots)?;
        Ok(RunNumbers { numbers })
    }

    /// Puts the number of a run behind the others, for each of its ballots.
    pub fn push_run(&mut self, number: usize, ballots: u32) -> Result<(), NoMemory>
        requires { number < 2 ^ 16 }
        ensures ok { OnOk result (self.new ≡ self.old ++ replicate ballots number) }
        ensures err { OnErr result (self.new ≡ self.old) }
    {
        self.numbers.push_times(number as u16, ballots as usize)
    }

    /// How many ballots the runs have.
    pub fn ballots(&self, runs: &Items<Run>) -> u32
        requires numbers { self.now ≡ run_numbers 0 runs.now }
        requires few { length (ballot_styles runs.now) < 2 ^ 32 }
        ensures { result ≡ length (ballot_styles runs.now) }
    {
        self.numbers.len() as u32
    }

    /// The number of the run of a ballot. Ballots are numbered from 1.
    pub fn number_of(&self, runs: &Items<Run>, ballot: u32) -> usize
        requires numbers { self.now ≡ run_numbers 0 runs.now }
        requires first { 1 ≤ ballot }
        requires last { ballot ≤ length (ballot_styles runs.now) }
        ensures { IsInRun runs.now (ballot - 1) result }
    {
        usize::from(*self.numbers.get(ballot as usize - 1))
    }

    /// The number of the style of a ballot. Ballots are numbered from 1.
    pub fn style_of(&self, runs: &Items<Run>, ballot: u32) -> u32
        requires numbers { self.now ≡ run_numbers 0 runs.now }
        requires first { 1 ≤ ballot }
        requires last { ballot ≤ length (ballot_styles runs.now) }
        ensures { slice_get (ballot_styles runs.now) (ballot - 1) ≡ Some result }
    {
        let number = self.number_of(runs, ballot);
        runs.get(number).style
    }

    /// The same of any number: `None` where the runs have no such ballot.
    pub fn style_at(&self, runs: &Items<Run>, ballot: u32) -> Option<u32>
        requires numbers { self.now ≡ run_numbers 0 runs.now }
        ensures { result ≡ (if ballot == 0 then None else slice_get (ballot_styles runs.now) (ballot - 1)) }
    {
        if ballot == 0 {
            return None;
        }
        if ballot as usize > self.numbers.len() {
            return None;
        }
        Some(self.style_of(runs, ballot))
    }
}
