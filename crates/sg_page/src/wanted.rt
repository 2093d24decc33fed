//! Which lines are wanted, told by their places.
ghost use Rattle.std.specs.Prelude.{◌≡◌};
ghost use Rattle.sg_forms.specs.Said.{Said};
ghost use Rattle.sg_grammar.specs.Coordinates.{placed};
ghost use Rattle.sg_grammar.specs.Placed.Placed.{OfPlan};
ghost use Rattle.sg_page.specs.Shown.{is_about, is_seal};
ghost use Rattle.sg_page.specs.inside.Wanting.{is_wanted};

use sg_grammar::PlacedLine;

/// Lines of a record that are wanted.
#[derive(Clone, Copy, PartialEq, Eq)]
pub(crate) enum Wanted {
    /// Those of the plan.
    Plan,
    /// The seals.
    Seals,
    /// Those of a ballot's block, and of the blocks of disputes about it.
    Ballot(u32),
}

/// A line of the plan is wanted.
pub(crate) fn wants_plan(wanted: Wanted) -> bool
    ensures { (said : Said) → result ≡ is_wanted wanted (OfPlan said) }
{
    match wanted {
        Wanted::Plan => true,
        Wanted::Seals => false,
        Wanted::Ballot(_) => false,
    }
}

/// This line behind the plan is wanted.
pub(crate) fn wants(wanted: Wanted, line: &PlacedLine) -> bool
    ensures { result ≡ is_wanted wanted (placed line.now) }
{
    match wanted {
        Wanted::Plan => false,
        Wanted::Seals => is_seal(line),
        Wanted::Ballot(ballot) => is_about(ballot, line),
    }
}

/// The line is a seal.
fn is_seal(line: &PlacedLine) -> bool
    ensures { result ≡ is_seal (placed line.now) }
{
    match *line {
        PlacedLine::Seal { .. } => true,
        _ => false,
    }
}

/// The line is about the ballot.
fn is_about(ballot: u32, line: &PlacedLine) -> bool
    ensures { result ≡ is_about ballot (placed line.now) }
{
    match line.ballot() {
        Some(of) => of == ballot,
        None => false,
    }
}
