//! Changes of an office's rows, one of each kind, and what is kept of them.
ghost use Rattle.std.specs.Prelude.{IfOk};
ghost use Rattle.sg_keeper.specs.Rows.{IsAscii, IsAsciiChange, IsAsciiRow};

use sg_keeper::{
    BallotRow, Change, ChangeRow, ClaimRow, DoneRow, KeepFault, Keeper, Rows, StageRow, VoidRow,
};
use sg_plan::{NoMemory, Word};
use std::alloc::Global;
use std::test::Fail;

/// A word of one byte.
fn word(alloc: Global) -> Result<Word, NoMemory>
    ensures { IfOk result IsAscii }
{
    let mut word = Word::new(alloc);
    word.push(b'x')?;
    Ok(word)
}

/// A change of this row.
fn change(alloc: Global, row: ChangeRow, stamp: (i64, i64)) -> Result<Change, NoMemory>
    requires { IsAsciiRow row }
    ensures { IfOk result IsAsciiChange }
{
    let act = word(alloc)?;
    let done = DoneRow {
        station: stamp.0,
        number: stamp.1,
        act,
    };
    Ok(Change { row, done })
}

/// A change of this ballot.
pub(crate) fn ballot(alloc: Global, ballot: i64, stamp: (i64, i64)) -> Result<Change, NoMemory>
    ensures { IfOk result IsAsciiChange }
{
    let detail = word(alloc)?;
    let row = ChangeRow::Ballot(BallotRow {
        ballot,
        fate: 1,
        detail,
    });
    change(alloc, row, stamp)
}

/// A change of the first step.
fn stage(alloc: Global) -> Result<Change, NoMemory>
    ensures { IfOk result IsAsciiChange }
{
    let detail = word(alloc)?;
    change(
        alloc,
        ChangeRow::Stage(StageRow { step: 1, detail }),
        (0, 1),
    )
}

/// A change of the first claim.
fn claim(alloc: Global) -> Result<Change, NoMemory>
    ensures { IfOk result IsAsciiChange }
{
    let claim = ClaimRow {
        claim: 1,
        ballot: 7,
        race: 0,
        code: 679,
    };
    change(alloc, ChangeRow::Claim(claim), (0, 2))
}

/// A change of a voided ballot.
pub(crate) fn void(alloc: Global) -> Result<Change, NoMemory>
    ensures { IfOk result IsAsciiChange }
{
    change(alloc, ChangeRow::Void(VoidRow { ballot: 7 }), (0, 3))
}

/// Keeps a change.
pub(crate) fn keep<K: Keeper>(keeper: &mut K, change: Change) -> Result<(), KeepFault>
    requires { IsAsciiChange change }
{
    keeper.commit(&change)
}

/// Begins.
pub(crate) fn begin<K: Keeper>(alloc: Global, keeper: &mut K) -> Result<(), KeepFault> {
    let setup = word(alloc)?;
    keeper.begin(&setup)
}

/// Begins, and keeps two ballots and a row of each other kind.
pub(crate) fn keep_all<K: Keeper>(alloc: Global, keeper: &mut K) -> Result<(), Fail> {
    begin(alloc, keeper)?;
    keep(keeper, ballot(alloc, 7, (1, 5))?)?;
    keep(keeper, ballot(alloc, 2, (0, 9))?)?;
    keep(keeper, stage(alloc)?)?;
    keep(keeper, claim(alloc)?)?;
    keep(keeper, void(alloc)?)?;
    Ok(())
}

/// The ballots are there, in the order of their keys.
fn has_ballots(rows: &Rows) -> bool {
    let ballots = rows.ballots.as_slice().iter().map(|row| row.ballot);
    ballots.eq([2, 7])
}

/// The rows of acts are there, in the order of their keys.
fn has_dones(rows: &Rows) -> bool {
    let numbers = rows.dones.as_slice().iter().map(|row| row.number);
    numbers.eq([1, 2, 3, 9, 5])
}

/// One row of each other kind is there.
fn has_others(rows: &Rows) -> bool {
    rows.setup.is_some()
        && rows.stages.len() == 1
        && rows.claims.len() == 1
        && rows.voids.len() == 1
}

/// The keeper has just the rows of the test.
pub(crate) fn is_filled<K: Keeper>(alloc: Global, keeper: &mut K) -> Result<bool, Fail> {
    let rows = keeper.load(alloc)?;
    Ok(has_ballots(&rows) && has_dones(&rows) && has_others(&rows))
}
