//! The laws of the odds. Their functions do nothing: what they ensure is the law.
ghost use Rattle.sg_odds.specs.Examples.{OddsAreShown};
ghost use Rattle.sg_odds.specs.Odds.{OddsLaw};

/// How many lists of coins get yes with wrong totals, and when the marked entries that a completion leads to a candidate are
/// the posted codes. Where the verdict is yes, the coins of the draw get yes, and what is opened is what each full completion
/// of the first two sections has, or a commitment is opened twice.
pub fn odds_law()
    ensures { OddsLaw }
{}

/// The definitions at work on a small record.
pub fn examples_law()
    ensures { OddsAreShown }
{}
