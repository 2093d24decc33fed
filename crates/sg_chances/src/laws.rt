//! The law of unaltered runs and the odds. Its function does nothing: what it ensures is the law.
ghost use Rattle.sg_chances.specs.Chances.{UnalteredGetsYes};

/// The tables of an unaltered run are a full completion of what is posted, and with them all lists of coins get yes behind its
/// first two sections.
pub fn chances_law()
    ensures { UnalteredGetsYes }
{}
