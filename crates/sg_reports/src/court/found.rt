//! What is found of all parts.
ghost use Rattle.std.specs.Prelude.{IfOk};
ghost use Rattle.sg_reports.specs.court.inside.Finding.{IsFound};

use crate::court::exponents::{Exponents, find_exponents};
use sg_plan::NoMemory;
use sg_recount::{Findings, Parts, recount};
use std::alloc::Global;

/// What a court asks.
#[derive(Clone, Copy, Debug, PartialEq, Eq)]
pub(crate) enum Question {
    /// Which rows are altered, and each candidate's total and count.
    Recount,
    /// How unlikely the totals are.
    Odds,
}

/// What is found of all parts.
#[derive(Debug, Drop)]
pub(crate) enum Found {
    /// The altered rows, and the sums.
    Findings(Findings),
    /// The exponents, or the first row that is lacking.
    Exponents(Exponents),
}

/// What is found of all parts.
pub(crate) fn find(alloc: Global, question: Question, parts: &Parts) -> Result<Found, NoMemory>
    ensures { IfOk result (λ what. IsFound parts.now question what) }
{
    let _ = parts.posted();
    match question {
        Question::Recount => {
            let findings = recount(alloc, parts)?;
            Ok(Found::Findings(findings))
        }
        Question::Odds => {
            let exponents = find_exponents(alloc, parts)?;
            Ok(Found::Exponents(exponents))
        }
    }
}
