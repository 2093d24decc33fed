//! Laws of plans: what follows from the definitions alone. Each function does nothing, and its contract is proved.
ghost use Rattle.sg_plan.specs.Laws.{BoundsAreKept, EntryLaws, EntryPlaceLaws, KeepingIsTold, LimitsAreTold, RowLaws, RowPlaceLaws};

/// A plan has no fault exactly where it keeps its limits, said in plain form.
pub fn limits_law()
    ensures { LimitsAreTold }
{}

/// A plan keeps its limits, by the tests of its parts, exactly where it has no fault.
pub fn plan_keeps_law()
    ensures { KeepingIsTold }
{}

/// How large the numbers of a plan without a fault may be.
pub fn bounds_law()
    ensures { BoundsAreKept }
{}

/// Ballot rows and the ballots that have a race determine each other.
pub fn rows_law()
    ensures { RowLaws }
{}

/// An entry, and a ballot with a column, determine each other.
pub fn entries_law()
    ensures { EntryLaws }
{}

/// The entries of all races, one after another, have different places.
pub fn entry_places_law()
    ensures { EntryPlaceLaws }
{}

/// The rows of all races and instances, one after another, have different places.
pub fn row_places_law()
    ensures { RowPlaceLaws }
{}
