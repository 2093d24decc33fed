//! The laws of what a clerk shows. Each function does nothing, and its contract is proved.
ghost use Rattle.sg_clerk.specs.Laws.{RecordStays, SheetHasPapers, TalksKeepRecord};

/// What is posted of a history stays: it is a front of what is posted of each lawful history that goes on from it.
pub fn record_law()
    ensures { RecordStays }
{}

/// A talk of the office keeps what was accepted and posted: its history only grows, and so does what `record` writes of it.
pub fn talk_record_law()
    ensures { TalksKeepRecord }
{}

/// The codes on a sheet's lines of a ballot are those on the ballot's paper.
pub fn sheet_law()
    ensures { SheetHasPapers }
{}
