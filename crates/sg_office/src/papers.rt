//! Whether a paper that was read has the form of a ballot's.
ghost use Rattle.std.specs.Prelude.{◌≡◌, ◌≤◌, length};
ghost use Rattle.sg_plan.specs.Ballots.{ballots_of, candidates_of, races_of_ballot};
ghost use Rattle.sg_histories.specs.Answers.{fits_races};

use sg_plan::{BallotIndex, Paper, Plan};

/// The paper has a list of codes for each of these races, as long as the race has candidates.
#[tactic(auto, using(crate::proofs::Unequal::unequal))]
fn fits_races(plan: &Plan, races: &[u32], paper: &Paper) -> bool
    ensures { result ≡ fits_races plan.now races.now paper.now }
{
    if paper.len() != races.len() {
        return false;
    }
    for at in 0..races.len() {
        if paper.get(at).len() != plan.candidates(races[at]) {
            return false;
        }
    }
    true
}

/// The paper has such a list for each race of a ballot of the plan.
pub fn fits_paper(index: &BallotIndex, ballot: u32, paper: &Paper) -> bool
    requires first { 1 ≤ ballot }
    requires last { ballot ≤ ballots_of index.now }
    ensures { result ≡ fits_races index.now (races_of_ballot index.now ballot) paper.now }
{
    fits_races(index.plan(), index.races(ballot), paper)
}
