//! What the program can be asked to do, and the table of the commands: the words of each. The command that words ask for and the
//! line that names all commands are read off it.
ghost use Rattle.std.specs.Prelude.{◌≡◌, map};
ghost use Rattle.sg_words.specs.Command.{commands as all_words, may_hold_output, reports as report_words};
ghost use Rattle.sg_words.specs.inside.Table.{words_of};

use crate::sample::Sample;
use crate::service::Service;
use crate::table::{BALLOTS, COUNT, Form, PORT, Pair, SEED, Takes};

/// What the program can be asked to do.
#[derive(Clone, Copy, Debug, PartialEq, Eq)]
pub enum Command {
    /// Judges a record and writes the report.
    Audit,
    /// Sets an office up from its election file.
    Init,
    /// Writes the sheet that the printer prints.
    Sheet,
    /// Answers each line of the input with a line.
    Do,
    /// Answers requests over connections.
    Serve(Service),
    /// Writes what the office posts so far.
    Record,
    /// Makes a sample run and writes its summary.
    Sample(Sample),
    /// Turns files of scanners into asks.
    Scans,
    /// Writes what opens both halves of each row.
    Openings,
    /// Lists the altered rows of a record's completion.
    Recount,
    /// Tells how unlikely the totals of a record's completion are.
    Odds,
    /// Judges several records as one.
    County,
}

impl Command {
    /// Whether nobody waits for a line of its output before the command ends, so that the lines may be held and written
    /// together.
    pub fn may_hold_output(self) -> bool
        ensures { result ≡ may_hold_output self }
    {
        match self {
            Command::Audit
            | Command::Sheet
            | Command::Record
            | Command::Sample(_)
            | Command::Openings
            | Command::Recount
            | Command::Odds
            | Command::County => true,
            Command::Init | Command::Do | Command::Serve(_) | Command::Scans => false,
        }
    }
}

/// Judges a record.
const AUDIT: Form = Form {
    name: "audit",
    takes: Takes::Nothing(Command::Audit),
};

/// Lists the altered rows of a record's completion.
const RECOUNT: Form = Form {
    name: "recount",
    takes: Takes::Nothing(Command::Recount),
};

/// Tells how unlikely its totals are.
const ODDS: Form = Form {
    name: "odds",
    takes: Takes::Nothing(Command::Odds),
};

/// Judges several records as one.
const COUNTY: Form = Form {
    name: "county",
    takes: Takes::Nothing(Command::County),
};

/// The words of each command, in the order in which a user meets them.
const COMMANDS: [Form; 12] = [
    AUDIT,
    Form {
        name: "init",
        takes: Takes::Nothing(Command::Init),
    },
    Form {
        name: "sheet",
        takes: Takes::Nothing(Command::Sheet),
    },
    Form {
        name: "do",
        takes: Takes::Nothing(Command::Do),
    },
    Form {
        name: "record",
        takes: Takes::Nothing(Command::Record),
    },
    Form {
        name: "scans",
        takes: Takes::Nothing(Command::Scans),
    },
    Form {
        name: "openings",
        takes: Takes::Nothing(Command::Openings),
    },
    RECOUNT,
    ODDS,
    COUNTY,
    Form {
        name: "serve",
        takes: Takes::Two(PORT, COUNT, Pair::Service),
    },
    Form {
        name: "sample",
        takes: Takes::Two(SEED, BALLOTS, Pair::Sample),
    },
];

/// The table.
#[tactic(auto, unfolding(crate::specs::Command::commands))]
pub(crate) fn commands() -> [Form; 12]
    ensures { map words_of result ≡ all_words }
{
    COMMANDS
}

/// The rows of the commands that report on what they read, and open no office.
pub(crate) fn reports() -> [Form; 4]
    ensures { map words_of result ≡ report_words }
{
    [AUDIT, RECOUNT, ODDS, COUNTY]
}
