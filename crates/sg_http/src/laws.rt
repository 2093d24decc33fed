//! The laws of what a connection's bytes lead to. Each function does nothing, and its contract is proved.
ghost use Rattle.sg_http.specs.LeadLaws.{HeadsAreRead, OneAnswer};

/// A head within the limits is never refused as a head, however few of the bytes were taken.
pub fn head_law()
    ensures { HeadsAreRead }
{}

/// Bytes with a head lead to one answer, however many of them were taken.
pub fn answer_law()
    ensures { OneAnswer }
{}
