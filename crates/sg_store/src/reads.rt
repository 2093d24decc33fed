//! The selections, and what is read from their rows.

ghost use Rattle.std.specs.Prelude.{◌≡◌, map, IfOk};
ghost use Rattle.sg_store.specs.Told.{HasTables, rows_in};
ghost use Rattle.sg_store.specs.inside.Shown.{setup_in, ballot_in, stage_in, claim_in, void_in, done_in};
ghost use Rattle.sg_store.specs.inside.Steps.{Keeps};

use crate::texts::{NO_MEMORY, word_of};
use sg_keeper::{BallotRow, ClaimRow, DoneRow, StageRow, VoidRow};
use sg_plan::{Items, Word};
use sqlite::{Alter, Connection, Error, Row};
use std::alloc::Global;

/// A row of one of the lists.
pub(crate) trait Listed: Drop {
    ghost use Rattle.std.specs.Prelude.{List};
    ghost use Rattle.sqlite.specs.Order.{Row as RowShown};
    ghost use Rattle.sg_keeper.specs.declared.rows.Rows.{Rows as RowsTold};

    /// The row that is read from one that is shown.
    ghost shown: { RowShown → Self };

    /// Its list, of those that are told.
    ghost listed: { RowsTold → List Self };

    /// Shows the rows of its table, by their keys.
    fn select<S: Alter>(conn: &mut Connection<S>) -> Result<Vec<Row>, Error>
        ensures kept { Keeps S.Store conn.old conn.new }
        ensures found { HasTables S.Store 6 conn.old → IfOk result (λ found. map shown found.items ≡ listed (rows_in S.Store conn.old)) };

    /// Reads a row that is shown.
    fn read(alloc: Global, row: &Row) -> Result<Self, Error>
        ensures { IfOk result (λ it. it ≡ shown row.now) };
}

impl Listed for BallotRow {
    ghost shown = { ballot_in };

    ghost listed = { λ rows. rows.ballots };

    fn select<S: Alter>(conn: &mut Connection<S>) -> Result<Vec<Row>, Error> {
        conn.query_all(
            "SELECT number, fate, detail FROM ballot ORDER BY number",
            &[],
        )
    }

    fn read(alloc: Global, row: &Row) -> Result<BallotRow, Error> {
        let ballot: i64 = row.get(0)?;
        let fate: i64 = row.get(1)?;
        let detail = word_of(alloc, row, 2)?;
        Ok(BallotRow {
            ballot,
            fate,
            detail,
        })
    }
}

impl Listed for StageRow {
    ghost shown = { stage_in };

    ghost listed = { λ rows. rows.stages };

    fn select<S: Alter>(conn: &mut Connection<S>) -> Result<Vec<Row>, Error> {
        conn.query_all("SELECT step, detail FROM stage ORDER BY step", &[])
    }

    fn read(alloc: Global, row: &Row) -> Result<StageRow, Error> {
        let step: i64 = row.get(0)?;
        let detail = word_of(alloc, row, 1)?;
        Ok(StageRow { step, detail })
    }
}

impl Listed for ClaimRow {
    ghost shown = { claim_in };

    ghost listed = { λ rows. rows.claims };

    fn select<S: Alter>(conn: &mut Connection<S>) -> Result<Vec<Row>, Error> {
        conn.query_all(
            "SELECT number, ballot, race, code FROM claim ORDER BY number",
            &[],
        )
    }

    fn read(_: Global, row: &Row) -> Result<ClaimRow, Error> {
        let claim: i64 = row.get(0)?;
        let ballot: i64 = row.get(1)?;
        let race: i64 = row.get(2)?;
        let code: i64 = row.get(3)?;
        Ok(ClaimRow {
            claim,
            ballot,
            race,
            code,
        })
    }
}

impl Listed for VoidRow {
    ghost shown = { void_in };

    ghost listed = { λ rows. rows.voids };

    fn select<S: Alter>(conn: &mut Connection<S>) -> Result<Vec<Row>, Error> {
        conn.query_all("SELECT number FROM voided ORDER BY number", &[])
    }

    fn read(_: Global, row: &Row) -> Result<VoidRow, Error> {
        let ballot: i64 = row.get(0)?;
        Ok(VoidRow { ballot })
    }
}

/// By station and number.
impl Listed for DoneRow {
    ghost shown = { done_in };

    ghost listed = { λ rows. rows.dones };

    fn select<S: Alter>(conn: &mut Connection<S>) -> Result<Vec<Row>, Error> {
        conn.query_all(
            "SELECT station, number, act FROM done ORDER BY station, number",
            &[],
        )
    }

    fn read(alloc: Global, row: &Row) -> Result<DoneRow, Error> {
        let station: i64 = row.get(0)?;
        let number: i64 = row.get(1)?;
        let act = word_of(alloc, row, 2)?;
        Ok(DoneRow {
            station,
            number,
            act,
        })
    }
}

/// The rows of a list, from those that are shown.
fn read_all<T: Listed>(alloc: Global, rows: &[Row]) -> Result<Items<T>, Error>
    ensures { IfOk result (λ list. list ≡ map T.shown rows.now) }
{
    let mut list = Items::new(alloc);
    for at in 0..rows.len() {
        match list.push(T::read(alloc, &rows[at])?) {
            Ok(()) => {}
            Err(_) => return Err(NO_MEMORY),
        }
    }
    Ok(list)
}

/// The rows of a list, rising by their keys.
pub(crate) fn load_list<T: Listed, S: Alter>(
    alloc: Global,
    conn: &mut Connection<S>,
) -> Result<Items<T>, Error>
    ensures kept { Keeps S.Store conn.old conn.new }
    ensures found { HasTables S.Store 6 conn.old → IfOk result (λ found. found ≡ T.listed (rows_in S.Store conn.old)) }
{
    let rows = T::select(conn)?;
    read_all(alloc, rows.as_slice())
}

/// The rows of the table setup.
fn select_setup<S: Alter>(conn: &mut Connection<S>) -> Result<Vec<Row>, Error>
    ensures kept { Keeps S.Store conn.old conn.new }
    ensures found { HasTables S.Store 6 conn.old → IfOk result (λ found. setup_in found.items ≡ (rows_in S.Store conn.old).setup) }
{
    conn.query_all("SELECT id, body FROM setup ORDER BY id", &[])
}

/// The setup's text, from the rows that are shown.
fn setup_text(alloc: Global, rows: &[Row]) -> Result<Option<Word>, Error>
    ensures { IfOk result (λ found. found ≡ setup_in rows.now) }
{
    let Some(row) = rows.first() else {
        return Ok(None);
    };
    let word = word_of(alloc, row, 1)?;
    Ok(Some(word))
}

/// The setup's text.
pub(crate) fn load_setup<S: Alter>(
    alloc: Global,
    conn: &mut Connection<S>,
) -> Result<Option<Word>, Error>
    ensures kept { Keeps S.Store conn.old conn.new }
    ensures found { HasTables S.Store 6 conn.old → IfOk result (λ found. found ≡ (rows_in S.Store conn.old).setup) }
{
    let rows = select_setup(conn)?;
    setup_text(alloc, rows.as_slice())
}
