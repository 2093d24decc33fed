//! The law of a talk over connections. The function does nothing, and its contract is proved.
ghost use Rattle.sg_clerk.specs.calls.Laws.{CallsKeepRecord};

/// A talk over connections keeps what was accepted and posted.
pub fn calls_record_law()
    ensures { CallsKeepRecord }
{}
