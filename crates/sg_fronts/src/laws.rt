//! Laws of fronts. Each function does nothing, and its contract is proved.
ghost use Rattle.sg_fronts.specs.ByRecords.{VerdictsSay};
ghost use Rattle.sg_fronts.specs.Fronts.{FrontsGoOn};
ghost use Rattle.sg_fronts.specs.Promised.{SoundIsPromised};

/// Lines that may stand one after another are the front of a whole record, or all of it: so a line that is told as the first bad
/// one in form is the first behind which no record can go on.
pub fn fronts_law()
    ensures { FrontsGoOn }
{}

/// A verdict is yes exactly where the lines are the text of a whole record none of whose lines is bad; and it names a line exactly
/// where some record begins with the lines before it, none of them bad, and none that is good so far begins with that line too.
pub fn verdict_law()
    ensures { VerdictsSay }
{}

/// What is promised of lines whose verdict is yes, by their walk, is promised of the record whose lines they are.
pub fn promise_law()
    ensures { SoundIsPromised }
{}
