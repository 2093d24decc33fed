//! What is posted of a ballot, and the right answer to a claim.
ghost use Rattle.std.specs.Prelude.{◌≡◌, ◌++◌, ◌≤◌, All, IfOk, OnOk, map, true};
ghost use Rattle.std.specs.List.{flat_map};
ghost use Rattle.sg_plan.specs.Ballots.{ballot_has, ballot_row, ballots_of};
ghost use Rattle.sg_tables.specs.Posts.{right_word};
ghost use Rattle.sg_desks.specs.Receipts.{code_seen, posted_of};
ghost use Rattle.sg_desks.specs.inside.Races.{posted_among};

use crate::races::{races_in, row_in};
use sg_acts::CodeSeen;
use sg_plan::{BallotIndex, ClaimWord, Fate, Items, NoMemory};
use sg_tables::Tables;
use std::alloc::Global;

/// The right answer to a claim of a code in a race of the ballot, where the ballot has this fate: `Posted` where the
/// code is posted, else `Unposted` where it stands on the ballot's paper, else `Absent`.
///
/// Ballots are numbered from 1, races from 0. Each number is a code that may be claimed, also one that is no code of the
/// plan's version: it is `Absent`.
pub fn claim_word(
    tables: &Tables,
    index: &BallotIndex,
    ballot: u32,
    fate: &Fate,
    race: u32,
    code: u16,
) -> ClaimWord
    requires index { index.now ≡ tables.now.plan }
    requires has { ballot_has tables.now.plan ballot race ≡ true }
    ensures { result ≡ right_word tables.now.plan tables.now.seed race (ballot_row tables.now.plan race ballot) fate.now code }
{
    let row = row_in(tables, index, ballot, race);
    tables.right_word(race, row, fate, code)
}

/// The codes posted of a ballot of the plan with this fate: race by race, and in each race column by column. A ballot
/// that is not cast posts none, and none is posted in a race with more marks than votes.
///
/// It refuses for want of memory alone.
pub fn posted_codes(
    alloc: Global,
    tables: &Tables,
    index: &BallotIndex,
    ballot: u32,
    fate: &Fate,
) -> Result<Items<CodeSeen>, NoMemory>
    requires index { index.now ≡ tables.now.plan }
    requires first { 1 ≤ ballot }
    requires last { ballot ≤ ballots_of tables.now.plan }
    ensures { IfOk result (λ codes. codes ≡ posted_of tables.now.plan tables.now.seed ballot fate.now) }
{
    posted_in(alloc, tables, index, ballot, races_in(index, ballot), fate)
}

/// The codes posted of a ballot in these races.
fn posted_in(
    alloc: Global,
    tables: &Tables,
    index: &BallotIndex,
    ballot: u32,
    races: &[u32],
    fate: &Fate,
) -> Result<Items<CodeSeen>, NoMemory>
    requires index { index.now ≡ tables.now.plan }
    requires has { All (λ race. ballot_has tables.now.plan ballot race ≡ true) races.now }
    ensures { IfOk result (λ codes. codes ≡ posted_among tables.now.plan tables.now.seed ballot fate.now races.now) }
{
    let mut seen = Items::new(alloc);
    for race in races {
        let row = row_in(tables, index, ballot, *race);
        let codes = tables.posted_codes(alloc, *race, row, fate)?;
        add_codes(&mut seen, *race, &codes)?;
    }
    Ok(seen)
}

/// Adds the codes of a race.
fn add_codes(seen: &mut Items<CodeSeen>, race: u32, codes: &Items<u16>) -> Result<(), NoMemory>
    ensures { OnOk result (seen.new ≡ seen.old ++ map (code_seen race) codes.now) }
{
    for at in 0..codes.len() {
        let code = *codes.get(at);
        seen.push(CodeSeen { race, code })?;
    }
    Ok(())
}
