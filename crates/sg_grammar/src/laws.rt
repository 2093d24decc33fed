//! Laws of records: what follows from the grammar alone. Each function does nothing, and its contract is proved.
ghost use Rattle.sg_grammar.specs.Laws.{FewTotals, FrontsOfFronts, LinesAreInPlan, LinesStandApart, MostLines, WholeHasEach};

/// Lines that may stand one after another are at most 1,200,000.
pub fn lines_law()
    ensures { MostLines }
{}

/// Where lines may stand one after another, so may the first of them.
pub fn fronts_law()
    ensures { FrontsOfFronts }
{}

/// At most 512 of lines that may stand one after another are the total of a candidate.
pub fn few_totals_law()
    ensures { FewTotals }
{}

/// Among lines that may stand one after another none stands behind one that bars it: no mark, flag, place or draw behind
/// a row, no row twice, no place of a race behind its totals, and no place twice.
pub fn apart_law()
    ensures { LinesStandApart }
{}

/// In a whole record each row, each place and each candidate of the plan has its line.
pub fn whole_law()
    ensures { WholeHasEach }
{}

/// The numbers of lines that may stand one after another are in their plan.
pub fn numbers_law()
    ensures { LinesAreInPlan }
{}
