//! The laws of scans that come twice: what follows from the definitions alone. The function does nothing, and its
//! contract is proved.
ghost use Rattle.sg_scans.specs.ScanLaws.{OnceLeadsThere, TwiceIsAnswered};

/// Scans lead to the same history as each of them once. A scan that comes again is answered as at first where it was
/// done, and refused where it was refused.
pub fn once_law()
    ensures once { OnceLeadsThere }
    ensures twice { TwiceIsAnswered }
{}
