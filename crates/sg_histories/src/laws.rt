//! The laws of histories and of their rows. Each function does nothing, and its contract is proved.
ghost use Rattle.sg_histories.specs.HistoryLaws.{ActsStay, AsksMakeLawful, DoneActsAreKept, DoneActsStand, LawfulComesFromAsks, RepeatsAreAnswered, StampsStandOnce, StoriesFit, TurnsStayLawful};
ghost use Rattle.sg_histories.specs.RowLaws.{ActInReadsActs, HistoriesAreValid, LawfulRowsOpen, OpenRowsAreLawful, RowsOpenOnce, ValidRowsAreHistories};

/// The rows of each lawful history are valid, for each reader that reads just the acts that fit.
pub fn histories_law()
    ensures { HistoriesAreValid }
{}

/// Valid rows are those of a lawful history, for each such reader.
pub fn valid_rows_law()
    ensures { ValidRowsAreHistories }
{}

/// The story of each lawful history may be posted.
pub fn stories_law()
    ensures { StoriesFit }
{}

/// The text of each act that fits is read as just that act, and nothing else is read as one that fits.
pub fn reads_law()
    ensures { ActInReadsActs }
{}

/// The rows of each lawful history of a setup, with the setup's own text, open whole.
pub fn opening_law()
    ensures { LawfulRowsOpen }
{}

/// Rows that open whole are those of a lawful history.
pub fn opened_law()
    ensures { OpenRowsAreLawful }
{}

/// Rows open to one thing at most.
pub fn open_once_law()
    ensures { RowsOpenOnce }
{}

/// Asks that can come make a lawful history.
pub fn asks_law()
    ensures { AsksMakeLawful }
{}

/// Each lawful history is made by asks that can come.
pub fn lawful_law()
    ensures { LawfulComesFromAsks }
{}

/// A station's number stands at most once in a lawful history.
pub fn stamps_law()
    ensures { StampsStandOnce }
{}

/// An act that is answered `Done` stands at its number in the next history.
pub fn done_law()
    ensures { DoneActsStand }
{}

/// The text of an act that is answered `Done` stands at its number in the next history's rows.
pub fn kept_law()
    ensures { DoneActsAreKept }
{}

/// A turn of an ask that can come leads from a lawful history to a lawful one.
pub fn turns_law()
    ensures { TurnsStayLawful }
{}

/// Each act stands behind a turn where it stood before.
pub fn stays_law()
    ensures { ActsStay }
{}

/// An act that comes again from its station with its number is answered as at first, and changes nothing.
pub fn repeats_law()
    ensures { RepeatsAreAnswered }
{}
