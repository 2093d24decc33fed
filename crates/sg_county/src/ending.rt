//! A part that ends: what is found of it, and what the table of answers says of that.
ghost use Rattle.std.specs.Prelude.{◌≡◌, ◌+◌, ◌<◌, ℕ, List, length, Option};
ghost use Rattle.sg_record.specs.declared.record.Record.{Record};
ghost use Rattle.sg_check.specs.Verdict.{IsNo};
ghost use Rattle.sg_fronts.specs.ByRecords.{Says};
ghost use Rattle.sg_county.specs.County.{Settles, most_parts};
ghost use Rattle.sg_county.specs.Tally.{IsRefusal};
ghost use Rattle.sg_county.specs.inside.Keeping.{close_good, close_of};

use crate::verdict::CountyVerdict;
use sg_check::{Judged, Total};
use sg_plan::Items;

/// What is found of a part that ends, but for its verdict.
#[derive(Clone, Copy, Debug)]
pub(crate) struct Found {
    /// Its number, counted from 1.
    pub(crate) number: u32,
    /// It has the races of the first part.
    pub(crate) same: bool,
    /// The first part before it that has its seal.
    pub(crate) other: Option<u32>,
}

/// What the table says of a part that ends.
#[derive(Debug, Drop)]
pub(crate) enum Close {
    /// It settles nothing, and these are its totals.
    Counts(Items<Total>),
    /// It settles this answer.
    Settles(CountyVerdict),
}

/// What the table says of a part with this verdict.
pub(crate) fn end_of(found: &Found, judged: Judged) -> Close
    ensures { result ≡ close_of found.now judged }
{
    match judged {
        Judged::No { line, kind } => Close::Settles(CountyVerdict::No {
            part: found.number,
            line,
            kind,
        }),
        Judged::Yes(totals) => good_end(found.number, totals, found.same, found.other),
    }
}

/// What it says of a good part.
fn good_end(number: u32, totals: Items<Total>, same: bool, other: Option<u32>) -> Close
    ensures { result ≡ close_good number totals same other }
{
    if !same {
        return Close::Settles(CountyVerdict::Differs(number));
    }
    match other {
        Some(other) => Close::Settles(CountyVerdict::Repeats {
            part: number,
            other,
        }),
        None => Close::Counts(totals),
    }
}

/// What a bad part of this number settles.
pub(crate) fn bad_part(number: u32, judged: Judged) -> CountyVerdict
    requires { IsNo judged }
    ensures settles { (before : List Record) (part : List (List ℕ)) → length before < most_parts → number ≡ length before + 1 → Says judged part → Settles before part result }
    ensures refuses { IsRefusal result }
{
    match judged {
        Judged::No { line, kind } => CountyVerdict::No {
            part: number,
            line,
            kind,
        },
        Judged::Yes(_) => unreachable!(),
    }
}
