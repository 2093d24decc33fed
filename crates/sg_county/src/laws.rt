//! Laws of the answer: what follows from the definitions alone. Each function does nothing, and its contract is proved.
ghost use Rattle.sg_county.specs.Bound.{SumsBound};
ghost use Rattle.sg_county.specs.Laws.{OneCounty};

/// Lines have at most one answer.
pub fn one_county_law()
    ensures { OneCounty }
{}

/// Behind a yes, for every printing, completion and instance of each part, each sum differs from the sum of the parts'
/// counts of posted codes by at most the sum of their altered rows of its race.
pub fn sums_law()
    ensures { SumsBound }
{}
