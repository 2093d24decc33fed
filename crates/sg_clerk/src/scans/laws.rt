//! The law of a talk over a scanner's file. The function does nothing, and its contract is proved.
ghost use Rattle.sg_clerk.specs.scans.Laws.{ScansKeepRecord};

/// A talk over the records of a scanner's file keeps what was accepted and posted.
pub fn scans_record_law()
    ensures { ScansKeepRecord }
{}
