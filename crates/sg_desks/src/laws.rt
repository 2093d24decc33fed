//! Laws of the texts of acts: what follows from the definitions alone. Each function does nothing, and its contract is
//! proved.
ghost use Rattle.sg_desks.specs.Laws.{ActsAreRead, ActsAreSpelled, TextsAreAscii, TextsDiffer};

/// What is read is an act of the version, and the text is its text.
pub fn spelling_law()
    ensures { ActsAreSpelled }
{}

/// Each act of the version is read from its text.
pub fn read_law()
    ensures { ActsAreRead }
{}

/// Different acts of the version have different texts.
pub fn texts_law()
    ensures { TextsDiffer }
{}

/// The text of each act of the version is ASCII.
pub fn ascii_law()
    ensures { TextsAreAscii }
{}
