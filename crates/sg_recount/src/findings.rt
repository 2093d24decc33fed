//! What a recount finds.
ghost use Rattle.std.specs.Prelude.{IfOk};
ghost use Rattle.sg_recount.specs.Findings.{AreFindings, AreSumsBound};
ghost use Rattle.sg_recount.specs.inside.Basis.{IsBasis, given_in};

use crate::altered::all_altered;
use crate::basis::Basis;
use crate::sums::all_sums;
use sg_facts::marked_codes;
use sg_parts::Parts;
use sg_plan::{Items, NoMemory};
use std::alloc::Global;

/// A candidate's total, and the posted codes that are printed beside the candidate.
#[derive(Clone, Copy, Debug, PartialEq, Eq)]
pub struct Sum {
    /// The posted total.
    pub total: u32,
    /// The count.
    pub count: u32,
}

/// What a recount finds.
#[derive(Debug, Drop)]
pub struct Findings {
    /// The altered rows, rising, by race and instance.
    pub altered: Items<Items<Items<u32>>>,
    /// The sums, by race and candidate.
    pub sums: Items<Items<Sum>>,
}

/// The altered rows and the sums of what is looked into.
fn find_in(alloc: Global, basis: &Basis<'_>) -> Result<Findings, NoMemory>
    requires { IsBasis basis.now }
    ensures { IfOk result (λ findings. AreFindings (given_in basis.now) findings) }
{
    let altered = all_altered(alloc, basis)?;
    let sums = all_sums(alloc, basis)?;
    Ok(Findings { altered, sums })
}

/// The altered rows and the sums.
fn find(alloc: Global, parts: &Parts) -> Result<Findings, NoMemory>
    ensures { IfOk result (λ findings. AreFindings parts.now findings) }
{
    let posted = parts.posted();
    let marked = marked_codes(alloc, posted, parts.index())?;
    let basis = Basis {
        posted,
        lists: &parts.printing().codes,
        rows: &parts.completion().rows,
        marked: &marked,
    };
    find_in(alloc, &basis)
}

/// The altered rows of each instance, and the sums of each candidate. Only want of memory is refused.
pub fn recount(alloc: Global, parts: &Parts) -> Result<Findings, NoMemory>
    ensures findings { IfOk result (λ findings. AreFindings parts.now findings) }
    ensures bound { IfOk result (λ findings. AreSumsBound parts.now findings) }
{
    let _ = parts.posted();
    let findings = find(alloc, parts)?;
    Ok(findings)
}
