//! Whether the printing stands with the record, and whether the completion opens it and keeps what is posted.
ghost use Rattle.std.specs.Option.{option_and_then, option_map, option_map_or};
ghost use Rattle.std.specs.Prelude.{◌≡◌, ◌<◌, ◌^◌, bytes_eq, length};
ghost use Rattle.sg_check.specs.Kinds.{half_kind, opens_digest};
ghost use Rattle.sg_facts.specs.Items.{row_in};
ghost use Rattle.sg_facts.specs.Listed.{digest_on};
ghost use Rattle.sg_parts.specs.inside.Checks.{FirstBelow, FirstPair, FirstRow, both_in, half_keeps, half_opens, is_same_opening, keeps_opening, passes, row_keeps, row_opens, row_right, row_stands};
ghost use Rattle.sg_plan.specs.Ballots.{entries_of};

use crate::looks::{Half, entry_code, given_half, is_same, posted_half, printed_code, row_at};
use crate::parts::RowGiven;
use sg_commit::{CommitKind, Digest, Opening, opens};
use sg_forms::RowOpening;
use sg_plan::{BallotIndex, Items, Side};
use sg_record::{Record, RowCommit};

/// A row.
#[derive(Clone, Copy, Debug, PartialEq, Eq)]
pub struct At {
    /// The race's number.
    pub race: u32,
    /// The instance's number.
    pub instance: u32,
    /// The row's number.
    pub row: u32,
}

impl At {
    /// The half of the row on this side.
    pub fn on(self, side: Side) -> Half
        ensures side { result.side ≡ side }
        ensures at { result.at ≡ self }
    {
        Half { side, at: self }
    }
}

// THE PRINTING STANDS

/// What a row opens on its two sides, where it opens both.
fn both_of(opening: &RowOpening) -> Option<(Opening, Opening)>
    ensures { result ≡ both_in opening.now }
{
    match *opening {
        RowOpening::Left(_) => None,
        RowOpening::Right(_) => None,
        RowOpening::Both(left, right) => Some((left, right)),
    }
}

/// What the record opens on both sides of a row, if it does.
fn posted_both(posted: &Record, at: At) -> Option<(Opening, Opening)>
    ensures { result ≡ option_and_then both_in (row_in posted.now.rows at.race at.instance at.row) }
{
    match row_at(&posted.rows, at) {
        Some(opening) => both_of(&opening),
        None => None,
    }
}

/// Where the row is opened on both sides, the code that is known of its entry is printed beside the candidate of its
/// place.
fn row_stands(
    posted: &Record,
    index: &BallotIndex,
    known: &Items<Items<Option<u16>>>,
    lists: &Items<Items<Items<u16>>>,
    at: At,
) -> bool
    requires { at.race < length index.now.races }
    ensures { result ≡ row_stands index.now posted.now known.now lists.now at.race at.instance at.row }
{
    sg_plan::laws::bounds_law();
    let plan = index.plan();
    let Some((left, right)) = posted_both(posted, at) else {
        return true;
    };
    let Some(code) = entry_code(known, at.race, left.value) else {
        return true;
    };
    let candidates = plan.candidates(at.race) as u32;
    printed_code(
        lists,
        at.race,
        left.value / candidates,
        right.value % candidates,
    ) == code
}

// THE COMPLETION IS RIGHT

/// The digest of a half.
fn digest_on(on: Side, commit: &RowCommit) -> Digest
    ensures { result ≡ digest_on on commit.now }
{
    match on {
        Side::Left => commit.left,
        Side::Right => commit.right,
    }
}

/// The kind of a half's commitment.
fn half_kind(on: Side) -> CommitKind
    ensures { result ≡ half_kind on }
{
    match on {
        Side::Left => CommitKind::L,
        Side::Right => CommitKind::R,
    }
}

/// The commitment of a half.
fn half_digest(posted: &Record, half: Half) -> Option<Digest>
    ensures { result ≡ option_map (digest_on half.side) (row_in posted.now.row_commits half.at.race half.at.instance half.at.row) }
{
    match row_at(&posted.row_commits, half.at) {
        Some(commit) => Some(digest_on(half.side, &commit)),
        None => None,
    }
}

/// The commitment is there, and this opens it.
#[tactic(auto, using(sg_lists::proofs::Lists::same_bytes_eq))]
fn opens_digest(digest: Option<Digest>, kind: CommitKind, at: At, opening: &Opening) -> bool
    requires race { at.race < 2 ^ 16 }
    requires instance { at.instance < 2 ^ 16 }
    ensures { result ≡ opens_digest digest kind at.race at.instance at.row opening.now }
{
    match digest {
        Some(digest) => opens(&digest, kind, at.race, at.instance, at.row, opening),
        None => false,
    }
}

/// Where the completion has an opening of the half, this opens its commitment.
fn half_opens(posted: &Record, rows: &Items<Items<Items<RowGiven>>>, half: Half) -> bool
    requires race { half.at.race < 2 ^ 16 }
    requires instance { half.at.instance < 2 ^ 16 }
    ensures { result ≡ half_opens posted.now rows.now half.side half.at.race half.at.instance half.at.row }
{
    let Some(opening) = given_half(rows, half) else {
        return true;
    };
    let digest = half_digest(posted, half);
    opens_digest(digest, half_kind(half.side), half.at, &opening)
}

/// Each opening of the row opens its half.
pub(crate) fn row_opens(
    posted: &Record,
    rows: &Items<Items<Items<RowGiven>>>,
    race: u32,
    instance: u32,
    row: u32,
) -> bool
    requires race { race < 2 ^ 16 }
    requires instance { instance < 2 ^ 16 }
    ensures { result ≡ row_opens posted.now rows.now race instance row }
{
    let at = At {
        race,
        instance,
        row,
    };
    half_opens(posted, rows, at.on(Side::Left)) && half_opens(posted, rows, at.on(Side::Right))
}

/// The openings are the same.
fn is_same_opening(one: &Opening, other: &Opening) -> bool
    ensures { result ≡ is_same_opening one.now other.now }
{
    if !is_same(one.key.0.as_slice(), other.key.0.as_slice()) {
        return false;
    }
    one.value == other.value
}

/// The opening is given.
fn keeps_opening(given: Option<Opening>, posted: &Opening) -> bool
    ensures { result ≡ keeps_opening given posted.now }
{
    match given {
        Some(given) => is_same_opening(posted, &given),
        None => false,
    }
}

/// Where the record posts the half, the completion has its opening.
fn half_keeps(posted: &Record, rows: &Items<Items<Items<RowGiven>>>, half: Half) -> bool
    ensures { result ≡ half_keeps posted.now rows.now half.side half.at.race half.at.instance half.at.row }
{
    let Some(opening) = posted_half(posted, half) else {
        return true;
    };
    keeps_opening(given_half(rows, half), &opening)
}

/// Where the record posts halves of the row, the completion has their openings.
fn row_keeps(posted: &Record, rows: &Items<Items<Items<RowGiven>>>, at: At) -> bool
    ensures { result ≡ row_keeps posted.now rows.now at.race at.instance at.row }
{
    half_keeps(posted, rows, at.on(Side::Left)) && half_keeps(posted, rows, at.on(Side::Right))
}

/// The openings of the row open its halves, and are those that the record posts.
fn row_right(posted: &Record, rows: &Items<Items<Items<RowGiven>>>, at: At) -> bool
    requires race { at.race < 2 ^ 16 }
    requires instance { at.instance < 2 ^ 16 }
    ensures { result ≡ row_right posted.now rows.now at.race at.instance at.row }
{
    row_opens(posted, rows, at.race, at.instance, at.row) && row_keeps(posted, rows, at)
}

// THE FIRST ROW THAT FAILS

/// What each row is to pass.
#[derive(Clone, Copy)]
enum Test<'a> {
    /// The printing stands with the record there.
    Stands {
        /// The codes that are known, by race and entry.
        known: &'a Items<Items<Option<u16>>>,
        /// The codes of the printing.
        lists: &'a Items<Items<Items<u16>>>,
    },
    /// The completion is right there.
    Right(&'a Items<Items<Items<RowGiven>>>),
}

/// The row passes.
fn passes(posted: &Record, index: &BallotIndex, test: &Test<'_>, at: At) -> bool
    requires race { at.race < length index.now.races }
    requires instance { at.instance < index.now.instances }
    ensures { result ≡ passes index.now posted.now test.now at.race at.instance at.row }
{
    sg_plan::laws::bounds_law();
    let _ = index.plan();
    match *test {
        Test::Stands { known, lists } => row_stands(posted, index, known, lists, at),
        Test::Right(rows) => row_right(posted, rows, at),
    }
}

/// The first row of an instance that fails.
fn first_row(
    posted: &Record,
    index: &BallotIndex,
    test: &Test<'_>,
    race: u32,
    instance: u32,
) -> Option<u32>
    requires race { race < length index.now.races }
    requires instance { instance < index.now.instances }
    ensures { FirstBelow (entries_of index.now race) (passes index.now posted.now test.now race instance) result }
{
    for row in 0..index.plan().entries(race) {
        let at = At {
            race,
            instance,
            row,
        };
        if !passes(posted, index, test, at) {
            return Some(row);
        }
    }
    None
}

/// The first instance of a race, and in it the first row, that fails.
fn first_pair(
    posted: &Record,
    index: &BallotIndex,
    test: &Test<'_>,
    race: u32,
) -> Option<(u32, u32)>
    requires { race < length index.now.races }
    ensures { FirstPair index.now.instances (entries_of index.now race) (passes index.now posted.now test.now race) result }
{
    for instance in 0..index.plan().instances {
        if let Some(row) = first_row(posted, index, test, race, instance) {
            return Some((instance, row));
        }
    }
    None
}

/// The first row that fails.
fn first_failing(posted: &Record, index: &BallotIndex, test: &Test<'_>) -> Option<At>
    ensures { FirstRow index.now (passes index.now posted.now test.now) result }
{
    sg_plan::laws::bounds_law();
    for race in 0..index.plan().races.len() as u32 {
        if let Some((instance, row)) = first_pair(posted, index, test, race) {
            return Some(At {
                race,
                instance,
                row,
            });
        }
    }
    None
}

/// The first row that doesn't stand.
pub(crate) fn unstanding(
    posted: &Record,
    index: &BallotIndex,
    known: &Items<Items<Option<u16>>>,
    lists: &Items<Items<Items<u16>>>,
) -> Option<At>
    ensures { FirstRow index.now (row_stands index.now posted.now known.now lists.now) result }
{
    first_failing(posted, index, &Test::Stands { known, lists })
}

/// The first row that isn't right.
pub(crate) fn wrong(
    posted: &Record,
    index: &BallotIndex,
    rows: &Items<Items<Items<RowGiven>>>,
) -> Option<At>
    ensures { FirstRow index.now (row_right posted.now rows.now) result }
{
    first_failing(posted, index, &Test::Right(rows))
}
