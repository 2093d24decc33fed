//! Whether a story may be posted.
ghost use Rattle.std.specs.Prelude.{◌≡◌};
ghost use Rattle.std.specs.List.{list_all};
ghost use Rattle.sg_post.specs.Fits.{claim_fits, fates_fit, stage_fits, story_fits};

use crate::story::{Claimed, Story, Told};
use sg_plan::limits::MOST_CLAIMS;
use sg_plan::{BallotIndex, Items, Plan, Stage};
use sg_record::is_draw;

/// The fates are of strictly rising ballots of the plan, and fit them.
fn fates_fit(index: &BallotIndex, fates: &Items<Told>) -> bool
    ensures { result ≡ fates_fit index.now 0 fates.now }
{
    let mut last = 0;
    for at in 0..fates.len() {
        let told = fates.get(at);
        if told.ballot <= last {
            return false;
        }
        if !index.fits(told.ballot, &told.fate) {
            return false;
        }
        last = told.ballot;
    }
    true
}

/// Claims stand only once sides are drawn, and are few.
fn stage_fits(stage: &Stage, claims: &Items<Claimed>) -> bool
    ensures { result ≡ stage_fits stage.now claims.now }
{
    match stage {
        Stage::Voting => claims.len() == 0,
        Stage::Closed => claims.len() == 0,
        Stage::Drawn(draw) => is_draw(draw) && claims.len() <= MOST_CLAIMS,
    }
}

/// The claim is of a ballot of the plan, in a race that it has, and of a code of the version.
fn claim_fits(plan: &Plan, index: &BallotIndex, claimed: &Claimed) -> bool
    requires { index.now ≡ plan.now }
    ensures { result ≡ claim_fits plan.now claimed.now }
{
    index.has(claimed.ballot, claimed.race) && plan.is_code(claimed.code)
}

/// All claims fit.
fn claims_fit(plan: &Plan, index: &BallotIndex, claims: &[Claimed]) -> bool
    requires { index.now ≡ plan.now }
    ensures { result ≡ list_all (claim_fits plan.now) claims.now }
{
    claims
        .iter()
        .all(|claimed| claim_fits(plan, index, claimed))
}

impl Story {
    /// Whether the story may be posted: its fates are of rising ballots and fit them, and where sides are drawn its
    /// draw and its claims are such as a record may have. Before that there are no claims.
    ///
    /// Takes no memory.
    pub fn fits(&self, plan: &Plan, index: &BallotIndex) -> bool
        requires { index.now ≡ plan.now }
        ensures { result ≡ story_fits plan.now self.now }
    {
        fates_fit(index, &self.fates)
            && (stage_fits(&self.stage, &self.claims)
                && claims_fit(plan, index, self.claims.as_slice()))
    }
}
