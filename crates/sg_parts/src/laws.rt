//! A law of readings: what follows from what was read. The function does nothing, and its contract is proved.
ghost use Rattle.sg_parts.specs.Laws.{ReadingsHold};

/// Lines that were read begin with a record whose verdict is yes, then have `printing`, and are few.
pub fn readings_law()
    ensures { ReadingsHold }
{}
