//! Sums of the parts' totals.
ghost use Rattle.std.specs.Prelude.{◌≡◌, map};
ghost use Rattle.sg_county.specs.County.{votes_in as votes_found};
ghost use Rattle.sg_county.specs.inside.Keeping.{Fit, FitsBehind, more_sums, with_votes};

use sg_check::Total;
use sg_plan::Items;

/// The sums behind the part of this number, which has these totals. It takes no memory.
pub(crate) fn added(number: u32, sums: Items<Total>, totals: Items<Total>) -> Items<Total>
    requires { FitsBehind number sums totals }
    ensures { result ≡ more_sums number sums totals }
{
    if number == 1 {
        return totals;
    }
    let mut sums = sums;
    add_votes(&mut sums, &totals);
    sums
}

/// Adds to each of the sums the votes of its candidate among these totals.
fn add_votes(sums: &mut Items<Total>, totals: &Items<Total>)
    requires { Fit totals.now sums.old }
    ensures { sums.new ≡ map (with_votes totals.now) sums.old }
{
    for at in 0..sums.len() {
        let sum = *sums.get(at);
        let count = sum.count + votes_in(totals, sum.race, sum.candidate);
        sums.replace(at, Total { count, ..sum });
    }
}

/// The votes that the totals give a candidate.
fn votes_in(totals: &Items<Total>, race: u32, candidate: u32) -> u32
    ensures { result ≡ votes_found race candidate totals.now }
{
    for at in 0..totals.len() {
        let total = *totals.get(at);
        if total.race == race && total.candidate == candidate {
            return total.count;
        }
    }
    0
}
