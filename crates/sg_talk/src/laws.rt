//! The laws of answers, of the exchanges of a talk, and of what a talk keeps. Each function does nothing, and its contract is
//! proved.
ghost use Rattle.sg_talk.specs.Laws.{StatusesAreTold, StoresAreCounted, TalksKeep};

/// The text of an answer tells its status number.
pub fn statuses_are_told_law()
    ensures { StatusesAreTold }
{}

/// The answers that say that the keeper failed are counted one exchange after another.
pub fn stores_are_counted_law()
    ensures { StoresAreCounted }
{}

/// What a talk keeps: a station's number stands at most once, and acts that were answered `Done` are in the kept rows.
pub fn talks_law()
    ensures { TalksKeep }
{}
