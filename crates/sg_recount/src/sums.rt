//! Each candidate's total, and the count of posted codes that are printed beside the candidate.
ghost use Rattle.std.specs.Prelude.{◌≡◌, ◌<◌, IfOk, length};
ghost use Rattle.sg_check.specs.Printings.{is_posted_for, posted_count};
ghost use Rattle.sg_plan.specs.Ballots.{entries_of};
ghost use Rattle.sg_recount.specs.Findings.{all_sums, race_sums};
ghost use Rattle.sg_recount.specs.inside.Basis.{IsBasis, lines_in, plan_in, printing_in};

use crate::basis::Basis;
use crate::findings::Sum;
use crate::looks::total_at;
use sg_parts::{entry_code, printed_code};
use sg_plan::{Items, NoMemory};
use std::alloc::Global;

/// The entry is marked, and its code is printed beside the candidate.
fn is_posted_for(basis: &Basis<'_>, race: u32, candidate: u32, entry: u32) -> bool
    requires basis { IsBasis basis.now }
    requires race { race < length (plan_in basis.now).races }
    requires entry { entry < entries_of (plan_in basis.now) race }
    ensures { result ≡ is_posted_for (plan_in basis.now) (lines_in basis.now) (printing_in basis.now) race candidate entry }
{
    sg_plan::laws::bounds_law();
    match entry_code(basis.marked, race, entry) {
        None => false,
        Some(code) => {
            let candidates = basis.posted.plan.candidates(race) as u32;
            printed_code(basis.lists, race, entry / candidates, candidate) == code
        }
    }
}

/// How many posted codes are printed beside the candidate.
fn posted_codes(basis: &Basis<'_>, race: u32, candidate: u32) -> u32
    requires basis { IsBasis basis.now }
    requires race { race < length (plan_in basis.now).races }
    ensures { result ≡ posted_count (plan_in basis.now) (lines_in basis.now) (printing_in basis.now) race candidate }
{
    let mut count = 0;
    for entry in 0..basis.posted.plan.entries(race) {
        if is_posted_for(basis, race, candidate, entry) {
            count += 1;
        }
    }
    count
}

/// The sums of a race.
fn race_sums(alloc: Global, basis: &Basis<'_>, race: u32) -> Result<Items<Sum>, NoMemory>
    requires basis { IsBasis basis.now }
    requires race { race < length (plan_in basis.now).races }
    ensures { IfOk result (λ sums. sums ≡ race_sums (plan_in basis.now) (lines_in basis.now) (printing_in basis.now) race) }
{
    let mut sums = Items::new(alloc);
    for candidate in 0..basis.posted.plan.candidates(race) as u32 {
        sums.push(Sum {
            total: total_at(basis.posted, race, candidate),
            count: posted_codes(basis, race, candidate),
        })?;
    }
    Ok(sums)
}

/// The sums of all races.
pub(crate) fn all_sums(alloc: Global, basis: &Basis<'_>) -> Result<Items<Items<Sum>>, NoMemory>
    requires { IsBasis basis.now }
    ensures { IfOk result (λ sums. sums ≡ all_sums (plan_in basis.now) (lines_in basis.now) (printing_in basis.now)) }
{
    sg_plan::laws::bounds_law();
    let mut sums = Items::new(alloc);
    for race in 0..basis.posted.plan.races.len() {
        let found = race_sums(alloc, basis, race as u32)?;
        sums.push(found)?;
    }
    Ok(sums)
}
