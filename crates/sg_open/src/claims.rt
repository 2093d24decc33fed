//! The rows of claims.
ghost use Rattle.std.specs.Prelude.{◌≡◌, ◌++◌, ◌+◌, ◌&&◌, pos, nat_lt, true, None, [], length, IfOk, IfErr};
ghost use Rattle.std.specs.Ordering.{int_eq};
ghost use Rattle.std.specs.List.{filter_map, list_all};
ghost use Rattle.std.specs.Str.{is_utf8};
ghost use Rattle.sg_plan.specs.Limits.{first_bad, most_claims};
ghost use Rattle.sg_forms.specs.Spelling.{IsCode};
ghost use Rattle.sg_desks.specs.ActTexts.{act_text as act_text_of};
ghost use Rattle.sg_acts.specs.declared.asks.Act.TheVariants as act;
ghost use Rattle.sg_histories.specs.ValidRows.{at_table, claim_keeps, claim_text};
ghost use Rattle.sg_open.specs.inside.Finding.{IsDamage};
ghost use Rattle.sg_open.specs.inside.Telling.{act_claim, claim_told, row_claim as row_claim_of};

use crate::fault::{OpenFault, bad_row};
use crate::numbers::{ballot_number, small};
use sg_acts::Act;
use sg_desks::act_text;
use sg_histories::Claim;
use sg_keeper::ClaimRow;
use sg_plan::limits::MOST_CLAIMS;
use sg_plan::{BallotIndex, Items, NoMemory, Word, codes_of};
use std::alloc::Global;

/// The claim, where its ballot has the race and the code is one of the version.
fn fit_claim(index: &BallotIndex, version: u32, ballot: u32, race: u32, code: u32) -> Option<Claim>
    requires { version ≡ index.now.version }
    ensures { result ≡ act_claim index.now (act.Claim ballot race code) }
{
    if ballot == 0 {
        return None;
    }
    if ballot > index.ballots() {
        return None;
    }
    if !index.has(ballot, race) {
        return None;
    }
    if code >= codes_of(version) {
        return None;
    }
    Some(Claim {
        ballot,
        race,
        code: code as u16,
    })
}

/// The claim of a row, where it fits the plan.
#[tactic(auto, using(crate::proofs::ClaimRows::no_race_claim))]
fn row_claim(index: &BallotIndex, row: &ClaimRow) -> Option<Claim>
    ensures { result ≡ row_claim_of index.now row.now }
{
    let version = index.plan().version;
    let ballot = ballot_number(index, row.ballot)?;
    let race = small(row.race)?;
    let code = small(row.code)?;
    fit_claim(index, version, ballot, race, code)
}

/// The row has the number of the claim at this place.
fn is_next(at: usize, row: &ClaimRow) -> bool
    ensures { result ≡ (int_eq row.now.claim (pos (at + 1)) && nat_lt at most_claims) }
{
    if at >= MOST_CLAIMS {
        return false;
    }
    row.claim == at as i64 + 1
}

/// What a row tells that should be of the claim at this place.
fn tell_claim(index: &BallotIndex, drawn: bool, at: usize, row: &ClaimRow) -> Option<Claim>
    ensures { result ≡ claim_told index.now drawn at row.now }
{
    if !is_next(at, row) {
        return None;
    }
    if !drawn {
        return None;
    }
    row_claim(index, row)
}

/// Reads the rows of claims. Their texts are put behind those that are told.
pub fn read_claims(
    alloc: Global,
    index: &BallotIndex,
    drawn: bool,
    rows: &Items<ClaimRow>,
    told: &mut Items<Word>,
) -> Result<Items<Claim>, OpenFault>
    requires utf8 { list_all is_utf8 told.old ≡ true }
    ensures good { IfOk result (λ claims. first_bad (claim_keeps index.now drawn) [] rows.now ≡ None) }
    ensures claims { IfOk result (λ claims. claims ≡ filter_map (row_claim_of index.now) rows.now) }
    ensures told { IfOk result (λ claims. told.new ≡ told.old ++ filter_map (claim_text index.now.version) rows.now) }
    ensures utf8 { IfOk result (λ claims. list_all is_utf8 told.new ≡ true) }
    ensures fault { IfErr result (λ fault. IsDamage fault (at_table 4 (first_bad (claim_keeps index.now drawn) [] rows.now))) }
{
    let mut claims = Items::new(alloc);
    for at in 0..rows.len() {
        let Some(claim) = tell_claim(index, drawn, at, rows.get(at)) else {
            return Err(bad_row(4, at));
        };
        told.push(text_of_claim(alloc, index, claim)?)?;
        claims.push(claim)?;
    }
    Ok(claims)
}

/// The text of a claim.
#[tactic(auto, using(crate::proofs::TellingRows::ascii_utf8))]
fn text_of_claim(alloc: Global, index: &BallotIndex, claim: Claim) -> Result<Word, NoMemory>
    requires { IsCode index.now.version claim.code }
    ensures text { IfOk result (λ text. text ≡ act_text_of index.now.version (act.Claim claim.ballot claim.race claim.code)) }
    ensures utf8 { IfOk result (λ text. is_utf8 text ≡ true) }
{
    let act = Act::Claim(claim.ballot, claim.race, claim.code);
    act_text(alloc, index.plan().version, &act)
}
