//! Section 4 of what is posted: the claims and their answers.
ghost use Rattle.std.specs.Prelude.{◌≡◌, true};
ghost use Rattle.std.specs.List.{flat_map, list_all};
ghost use Rattle.sg_record.specs.Pens.{Writes};
ghost use Rattle.sg_post.specs.Fits.{claim_fits};
ghost use Rattle.sg_post.specs.inside.Lines.{claim_lines};

use crate::ballots::put_row_codes;
use crate::counts::{count_races, row_in};
use crate::story::Claimed;
use sg_outside::{Failed, Sink};
use sg_plan::{BallotIndex, Items};
use sg_record::{Line, Pen};
use sg_tables::Tables;

/// Writes a claim with its answer, and the ballot's codes in the race.
fn put_claim<O: Sink>(
    pen: &mut Pen,
    tables: &Tables,
    index: &BallotIndex,
    claimed: &Claimed,
    out: &mut O,
) -> Result<(), Failed>
    requires version { pen.old.version ≡ tables.now.plan.version }
    requires index { index.now ≡ tables.now.plan }
    requires fits { claim_fits tables.now.plan claimed.now ≡ true }
    ensures { Writes O.written O.faults pen.old out.old pen.new out.new result (claim_lines tables.now.plan tables.now.seed claimed.now) }
{
    let claim = Line::Dispute {
        ballot: claimed.ballot,
        race: claimed.race,
        code: claimed.code,
        word: claimed.word,
    };
    let _ = count_races(tables);
    pen.put_line(&claim, out)?;
    let row = row_in(tables, index, claimed.race, claimed.ballot);
    put_row_codes(pen, tables, claimed.race, row, out)
}

/// Writes all claims.
pub fn put_claims<O: Sink>(
    pen: &mut Pen,
    tables: &Tables,
    index: &BallotIndex,
    claims: &Items<Claimed>,
    out: &mut O,
) -> Result<(), Failed>
    requires version { pen.old.version ≡ tables.now.plan.version }
    requires index { index.now ≡ tables.now.plan }
    requires fits { list_all (claim_fits tables.now.plan) claims.now ≡ true }
    ensures { Writes O.written O.faults pen.old out.old pen.new out.new result (flat_map (claim_lines tables.now.plan tables.now.seed) claims.now) }
{
    for at in 0..claims.len() {
        put_claim(pen, tables, index, claims.get(at), out)?;
    }
    Ok(())
}
