//! Laws of verdicts: what follows from the definitions alone. Each function does nothing, and its contract is proved.
ghost use Rattle.sg_check.specs.Examples.{AreKindsShown};
ghost use Rattle.sg_check.specs.Laws.{AreAllKinds, CodesAreKnown, CompletionExists, EndsAreJudged, FirstBadStays, FlagsAgree, FormIsJudged, FrontsAreFine, FullDrawEquals, LineIsJudged, NoneBadAreFine, OneVerdict, OpeningsOpen, PathsAgree, PointersStandOnce, PrintingExists, PrintsAgree, SidesAreDrawn, SomeVerdict, TotalsBound, TotalsCount, TotalsStand};

/// Each kind is among the kinds, and the later ones are all of them but the first.
pub fn all_kinds_law()
    ensures { AreAllKinds }
{}

/// Lines have at most one verdict.
pub fn one_verdict_law()
    ensures { OneVerdict }
{}

/// All lines have a verdict.
pub fn some_verdict_law()
    ensures { SomeVerdict }
{}

/// What follows the first bad line doesn't change the verdict.
pub fn first_bad_law()
    ensures { FirstBadStays }
{}

/// The first of fine lines are fine.
pub fn fronts_law()
    ensures { FrontsAreFine }
{}

/// Fine lines are good where they are a whole record; else the next line is the first bad one, in form.
pub fn ends_law()
    ensures { EndsAreJudged }
{}

/// Behind fine lines, one that may not stand is the first bad line, in form.
pub fn form_law()
    ensures { FormIsJudged }
{}

/// Behind fine lines, one that may stand is judged alone, against the lines before it.
pub fn line_law()
    ensures { LineIsJudged }
{}

/// Among fine lines an entry has one code, and two entries of a ballot in a race have different ones.
pub fn codes_law()
    ensures { CodesAreKnown }
{}

/// Among fine lines the pointers on a side of an instance are below n and different.
pub fn pointers_law()
    ensures { PointersStandOnce }
{}

/// Among fine lines a row is flagged exactly where its entry is marked, and exactly where its place is set.
pub fn flags_law()
    ensures { FlagsAgree }
{}

/// Among fine lines a total is the number of set places.
pub fn counts_law()
    ensures { TotalsCount }
{}

/// Among fine lines an entry leads to one place, and two entries of a ballot lead to different candidates.
pub fn paths_law()
    ensures { PathsAgree }
{}

/// Among fine lines what is opened opens its commitment.
pub fn openings_law()
    ensures { OpeningsOpen }
{}

/// Among fine lines each row is opened on the side that was drawn.
pub fn sides_law()
    ensures { SidesAreDrawn }
{}

/// Among fine lines rows agree with the audits of prints.
pub fn prints_law()
    ensures { PrintsAgree }
{}

/// Lines that break no kind are fine.
pub fn fine_law()
    ensures { NoneBadAreFine }
{}

/// Behind a yes, for every printing and every completion that opens no commitment twice, each total differs from the count
/// of posted codes by at most the altered rows of each instance.
pub fn totals_law()
    ensures { TotalsBound }
{}

/// Behind a yes each candidate of each race has a total.
pub fn standing_law()
    ensures { TotalsStand }
{}

/// Behind a yes there is a printing that stands with the record.
pub fn printing_law()
    ensures { PrintingExists }
{}

/// Behind a yes there is a completion that opens no commitment twice.
pub fn completion_law()
    ensures { CompletionExists }
{}

/// Behind a yes with a full draw each total is the count of posted codes.
pub fn full_law()
    ensures { FullDrawEquals }
{}

/// On a small record each kind tells good lines from bad ones.
pub fn examples_law()
    ensures { AreKindsShown }
{}
