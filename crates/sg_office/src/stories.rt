//! What an office tells of its ballots and claims.
ghost use Rattle.std.specs.Prelude.{◌≡◌, ◌+◌, ◌≤◌, All, IfOk, length, map, true};
ghost use Rattle.sg_plan.specs.Ballots.{ballot_has, ballots_of};
ghost use Rattle.sg_histories.specs.Stories.{answered, is_unused_fate, told_fates};
ghost use Rattle.sg_office.specs.inside.Now.{fate_at};

use crate::slots::fate_at;
use sg_desks::claim_word;
use sg_histories::{Claim, Slot};
use sg_plan::{BallotIndex, Fate, Items, NoMemory, Stage};
use sg_post::{Claimed, Told};
use sg_tables::Tables;
use std::alloc::Global;

/// The ballot was not used.
fn is_unused(fate: &Fate) -> bool
    ensures { result ≡ is_unused_fate fate.now }
{
    match fate {
        Fate::Unused => true,
        Fate::Cast(_) => false,
        Fate::Spoiled => false,
        Fate::Audited(_) => false,
        Fate::Voided => false,
    }
}

/// The fates of the ballots that were used, rising.
pub fn tell_fates(
    alloc: Global,
    index: &BallotIndex,
    slots: &Items<Slot>,
) -> Result<Items<Told>, NoMemory>
    requires { length slots.now ≡ ballots_of index.now }
    ensures { IfOk result (λ fates. fates ≡ told_fates index.now (fate_at slots.now)) }
{
    let mut fates = Items::new(alloc);
    for place in 0..index.ballots() {
        let ballot = place + 1;
        let fate = fate_at(slots, ballot);
        if is_unused(fate) {
            continue;
        }
        fates.push(Told {
            ballot,
            fate: fate.copy(alloc)?,
        })?;
    }
    Ok(fates)
}

/// The same stage.
pub fn copy_stage(alloc: Global, stage: &Stage) -> Result<Stage, NoMemory>
    ensures { IfOk result (λ copy. copy ≡ stage.now) }
{
    match stage {
        Stage::Voting => Ok(Stage::Voting),
        Stage::Closed => Ok(Stage::Closed),
        Stage::Drawn(draw) => Ok(Stage::Drawn(draw.copy(alloc)?)),
    }
}

/// A claim with its right answer.
fn answer_claim(tables: &Tables, index: &BallotIndex, slots: &Items<Slot>, claim: &Claim) -> Claimed
    requires index { index.now ≡ tables.now.plan }
    requires slots { length slots.now ≡ ballots_of tables.now.plan }
    requires has { ballot_has tables.now.plan claim.now.ballot claim.now.race ≡ true }
    ensures { result ≡ answered tables.now.plan tables.now.seed (fate_at slots.now) claim.now }
{
    let fate = fate_at(slots, claim.ballot);
    Claimed {
        ballot: claim.ballot,
        race: claim.race,
        code: claim.code,
        word: claim_word(tables, index, claim.ballot, fate, claim.race, claim.code),
    }
}

/// The claims with their right answers, in their order.
pub fn answer_claims(
    alloc: Global,
    tables: &Tables,
    index: &BallotIndex,
    slots: &Items<Slot>,
    claims: &Items<Claim>,
) -> Result<Items<Claimed>, NoMemory>
    requires index { index.now ≡ tables.now.plan }
    requires slots { length slots.now ≡ ballots_of tables.now.plan }
    requires have { All (λ claim. ballot_has tables.now.plan claim.ballot claim.race ≡ true) claims.now }
    ensures { IfOk result (λ answers. answers ≡ map (answered tables.now.plan tables.now.seed (fate_at slots.now)) claims.now) }
{
    let mut answers = Items::with_room(alloc, claims.len())?;
    for at in 0..claims.len() {
        answers.push(answer_claim(tables, index, slots, claims.get(at)))?;
    }
    Ok(answers)
}
