//! The races of a ballot, and its row in each.
ghost use Rattle.std.specs.Prelude.{◌≡◌, ◌<◌, ◌≤◌, All, length, true};
ghost use Rattle.sg_plan.specs.Ballots.{ballot_has, ballot_row, ballots_of, races_of_ballot, rows_of};

use sg_plan::BallotIndex;
use sg_tables::Tables;

/// What a ballot that has a race tells: ballot and race are in the plan, and the ballot row is one of the race's. It does
/// nothing.
pub fn know_race(index: &BallotIndex, ballot: u32, race: u32)
    requires { ballot_has index.now ballot race ≡ true }
    ensures first { 1 ≤ ballot }
    ensures last { ballot ≤ ballots_of index.now }
    ensures race { race < length index.now.races }
    ensures row { ballot_row index.now race ballot < rows_of index.now race }
{
    let _plan = index.plan();
}

/// The ballot row of a ballot that has the race.
pub fn row_in(tables: &Tables, index: &BallotIndex, ballot: u32, race: u32) -> u32
    requires index { index.now ≡ tables.now.plan }
    requires has { ballot_has tables.now.plan ballot race ≡ true }
    ensures value { result ≡ ballot_row tables.now.plan race ballot }
    ensures bound { result < rows_of tables.now.plan race }
    ensures race { race < length tables.now.plan.races }
{
    let _ = tables;
    know_race(index, ballot, race);
    index.row(race, ballot)
}

/// The races of a ballot, rising: none where the plan has no such ballot.
pub fn races_in(index: &BallotIndex, ballot: u32) -> &[u32]
    ensures races { result.now ≡ races_of_ballot index.now ballot }
    ensures has { All (λ race. ballot_has index.now ballot race ≡ true) result.now }
{
    if ballot == 0 {
        return &[];
    }
    if ballot > index.ballots() {
        return &[];
    }
    index.races(ballot)
}
