//! The law that an honest office is cleared. These functions do nothing: what they ensure is the law.
ghost use Rattle.sg_cleared.specs.Laws.{HonestIsClear, HonestIsCleared};

/// Of what an unaltered history hands over, a recount finds no altered row, and each total equal to its count; and each
/// exponent of the odds is 0.
pub fn clear_law()
    ensures { HonestIsClear }
{}

/// So `recount` and `odds` say so of it, in whatever way they end.
pub fn cleared_law()
    ensures { HonestIsCleared }
{}
