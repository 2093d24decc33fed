//! Laws of sample runs. These functions do nothing: what they ensure is the law.
ghost use Rattle.sg_sample.specs.Laws.{AsksAreDone, RecordsAreAccepted, RecordsAreSealed};

/// None of a sample's asks is refused, and each is in its history.
pub fn asks_law()
    ensures { AsksAreDone }
{}

/// What is posted of a sample is accepted, with its totals.
pub fn records_law()
    ensures { RecordsAreAccepted }
{}

/// The record of a sample ends with its third seal.
pub fn seals_law()
    ensures { RecordsAreSealed }
{}
