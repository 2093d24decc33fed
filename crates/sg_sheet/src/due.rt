//! The lines of a sheet before anything is printed on them.
ghost use Rattle.std.specs.Prelude.{◌≡◌, ℕ, ◌<◌, ◌≤◌, ◌++◌, IfOk, OnOk, length, map, slice_get, Some, true};
ghost use Rattle.sg_plan.specs.Ballots.{ballot_has, ballot_row, ballots_of, races_of_ballot, style_of_ballot};
ghost use Rattle.sg_sheet.specs.Sheet.{Printed, sheet_lines};
ghost use Rattle.sg_sheet.specs.inside.Listed.{ballot_due, codes_due, line_due, sheet_due};

use sg_plan::{BallotIndex, Items, NoMemory};
use std::alloc::Global;

/// A line of a sheet.
#[derive(Clone, Copy, Debug, PartialEq, Eq)]
pub enum Due {
    /// The line of a ballot.
    Ballot {
        /// The ballot's number, from 1.
        ballot: u32,
        /// The number of its style.
        style: u32,
    },
    /// The codes in a ballot row of a race.
    Codes {
        /// The race's number.
        race: u32,
        /// The ballot row's number.
        row: u32,
    },
}

/// The line of the codes of a ballot in a race that it has.
fn codes_due(index: &BallotIndex, ballot: u32, race: u32) -> Due
    requires has { ballot_has index.now ballot race ≡ true }
    ensures { result ≡ codes_due index.now ballot race }
{
    let _ = index.plan();
    Due::Codes {
        race,
        row: index.row(race, ballot),
    }
}

/// The race in a place of the list.
fn race_at(races: &[u32], at: usize) -> u32
    requires { at < length races.now }
    ensures { slice_get races.now at ≡ Some result }
{
    races[at]
}

/// Puts the lines of a ballot in each of these races of it.
fn push_races(
    due: &mut Items<Due>,
    index: &BallotIndex,
    ballot: u32,
    races: &[u32],
) -> Result<(), NoMemory>
    requires races { races.now ≡ races_of_ballot index.now ballot }
    ensures { OnOk result (due.new ≡ due.old ++ map (codes_due index.now ballot) races.now) }
{
    for at in 0..races.len() {
        due.push(codes_due(index, ballot, race_at(races, at)))?;
    }
    Ok(())
}

/// Puts the lines of a ballot.
fn push_ballot(due: &mut Items<Due>, index: &BallotIndex, ballot: u32) -> Result<(), NoMemory>
    requires first { 1 ≤ ballot }
    requires last { ballot ≤ ballots_of index.now }
    ensures { OnOk result ((style : ℕ) → style_of_ballot index.now ballot ≡ Some style → due.new ≡ due.old ++ ballot_due index.now ballot style) }
{
    let style = index.style(ballot);
    due.push(Due::Ballot { ballot, style })?;
    push_races(due, index, ballot, index.races(ballot))
}

/// The lines of a sheet, in their order.
pub fn list_due(alloc: Global, index: &BallotIndex) -> Result<Items<Due>, NoMemory>
    ensures due { IfOk result (λ due. due ≡ sheet_due index.now) }
    ensures lines { IfOk result (λ due. (printed : Printed) → map (line_due printed) due ≡ sheet_lines index.now printed) }
{
    let mut due = Items::new(alloc);
    for at in 0..index.ballots() {
        push_ballot(&mut due, index, at + 1)?;
    }
    Ok(due)
}
