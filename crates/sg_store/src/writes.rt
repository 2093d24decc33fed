//! The statements that add rows.
ghost use Rattle.std.specs.Prelude.{◌≡◌, false, None, IsTrue, OnOk, OnErr};
ghost use Rattle.sqlite.specs.Values.{bound};
ghost use Rattle.sqlite.specs.State.{HasCleanDisk};
ghost use Rattle.sqlite.specs.Held.{state};
ghost use Rattle.sg_keeper.specs.declared.rows.ChangeRow.TheVariants.{Ballot, Stage, Claim, Void};
ghost use Rattle.sg_keeper.specs.Rows.{IsNewChange, with_change, with_setup};
ghost use Rattle.sg_store.specs.inside.Steps.{Changes};
ghost use Rattle.sg_store.specs.inside.Two.{RanTwo};

use crate::texts::text_of;
use sg_keeper::{BallotRow, Change, ChangeRow, ClaimRow, DoneRow, StageRow, VoidRow};
use sqlite::{Alter, Connection, Error, ErrorCode, params};
use sqlite_value::value::ValueRef;

const INSERT_DONE: &str = "INSERT INTO done (station, number, act) VALUES (?1, ?2, ?3)";

/// Runs two statements in one transaction. Both are committed, or neither.
fn run_two<S: Alter>(
    conn: &mut Connection<S>,
    first: &str,
    given: &[ValueRef<'_>],
    second: &str,
    also: &[ValueRef<'_>],
) -> Result<(), Error>
    ensures both { HasCleanDisk (state S.Store conn.new) → OnOk result (RanTwo S.Store first.now (bound given.now) second.now (bound also.now) conn.old (state S.Store conn.new).committed) }
    ensures same { HasCleanDisk (state S.Store conn.new) → OnOk result ((state S.Store conn.new).now ≡ (state S.Store conn.new).committed) }
    ensures neither { HasCleanDisk (state S.Store conn.new) → IsTrue (state S.Store conn.new).is_open
        → OnErr result (((state S.Store conn.new).now ≡ (state S.Store conn.old).now) × ((state S.Store conn.new).committed ≡ (state S.Store conn.old).committed)) }
    ensures settled { conn.old.in_transaction ≡ false → conn.new.in_transaction ≡ false }
{
    if !conn.is_autocommit() {
        return Err(Error::SqliteFailure(ErrorCode::TransactionState));
    }
    let mut tx = conn.transaction();
    tx.execute(first, given)?;
    tx.execute(second, also)?;
    tx.commit()?;
    Ok(())
}

/// Adds the setup's text, where none is kept.
pub(crate) fn add_setup<S: Alter>(conn: &mut Connection<S>, body: &str) -> Result<usize, Error>
    ensures { Changes S.Store (λ rows. rows.setup ≡ None) (λ rows. with_setup rows body.now) conn.old conn.new result }
{
    conn.execute("INSERT INTO setup (id, body) VALUES (1, ?1)", params![body])
}

/// Adds a ballot's row and that of its act.
fn add_ballot<S: Alter>(
    conn: &mut Connection<S>,
    row: &BallotRow,
    done: &DoneRow,
) -> Result<(), Error>
    ensures { Changes S.Store (λ rows. IsNewChange rows (record { row = Ballot row.now; done = done.now })) (λ rows. with_change rows (record { row = Ballot row.now; done = done.now })) conn.old conn.new result }
{
    let detail = text_of(&row.detail)?;
    let act = text_of(&done.act)?;
    run_two(
        conn,
        "INSERT INTO ballot (number, fate, detail) VALUES (?1, ?2, ?3)",
        params![row.ballot, row.fate, detail],
        INSERT_DONE,
        params![done.station, done.number, act],
    )
}

/// Adds a step's row and that of its act.
fn add_stage<S: Alter>(
    conn: &mut Connection<S>,
    row: &StageRow,
    done: &DoneRow,
) -> Result<(), Error>
    ensures { Changes S.Store (λ rows. IsNewChange rows (record { row = Stage row.now; done = done.now })) (λ rows. with_change rows (record { row = Stage row.now; done = done.now })) conn.old conn.new result }
{
    let detail = text_of(&row.detail)?;
    let act = text_of(&done.act)?;
    run_two(
        conn,
        "INSERT INTO stage (step, detail) VALUES (?1, ?2)",
        params![row.step, detail],
        INSERT_DONE,
        params![done.station, done.number, act],
    )
}

/// Adds a claim's row and that of its act.
fn add_claim<S: Alter>(
    conn: &mut Connection<S>,
    row: &ClaimRow,
    done: &DoneRow,
) -> Result<(), Error>
    ensures { Changes S.Store (λ rows. IsNewChange rows (record { row = Claim row.now; done = done.now })) (λ rows. with_change rows (record { row = Claim row.now; done = done.now })) conn.old conn.new result }
{
    let act = text_of(&done.act)?;
    run_two(
        conn,
        "INSERT INTO claim (number, ballot, race, code) VALUES (?1, ?2, ?3, ?4)",
        params![row.claim, row.ballot, row.race, row.code],
        INSERT_DONE,
        params![done.station, done.number, act],
    )
}

/// Adds a voided ballot's row and that of its act.
fn add_void<S: Alter>(conn: &mut Connection<S>, row: &VoidRow, done: &DoneRow) -> Result<(), Error>
    ensures { Changes S.Store (λ rows. IsNewChange rows (record { row = Void row.now; done = done.now })) (λ rows. with_change rows (record { row = Void row.now; done = done.now })) conn.old conn.new result }
{
    let act = text_of(&done.act)?;
    run_two(
        conn,
        "INSERT INTO voided (number) VALUES (?1)",
        params![row.ballot],
        INSERT_DONE,
        params![done.station, done.number, act],
    )
}

/// Adds both rows of a change, where neither key is kept.
pub(crate) fn add_change<S: Alter>(conn: &mut Connection<S>, change: &Change) -> Result<(), Error>
    ensures { Changes S.Store (λ rows. IsNewChange rows change.now) (λ rows. with_change rows change.now) conn.old conn.new result }
{
    match &change.row {
        ChangeRow::Ballot(row) => add_ballot(conn, row, &change.done),
        ChangeRow::Stage(row) => add_stage(conn, row, &change.done),
        ChangeRow::Claim(row) => add_claim(conn, row, &change.done),
        ChangeRow::Void(row) => add_void(conn, row, &change.done),
    }
}
