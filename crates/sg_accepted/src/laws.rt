//! Laws of what is posted of an unaltered run. These functions do nothing: what they ensure is the law.
ghost use Rattle.sg_accepted.specs.Accepted.{UnalteredIsAccepted};
ghost use Rattle.sg_accepted.specs.Totals.{TotalsAreVotes, TotalsCountMarks, UnalteredHasTotals, UnalteredIsNeverNo};

/// The verdict on what is posted of an unaltered run is yes.
pub fn accepted_law()
    ensures { UnalteredIsAccepted }
{}

/// It is yes with the totals of the story.
pub fn story_totals_law()
    ensures { UnalteredHasTotals }
{}

/// No other verdict is one on it, above all none that is no.
pub fn never_no_law()
    ensures { UnalteredIsNeverNo }
{}

/// A total is the number of the marked entries that lead to a place in the candidate's column.
pub fn marks_law()
    ensures { TotalsCountMarks }
{}

/// And so it is the number of the cast ballots whose marks count for the candidate.
pub fn votes_law()
    ensures { TotalsAreVotes }
{}
