//! The statements that make the tables, each in a function of its own.

ghost use Rattle.sg_store.specs.inside.Steps.{Makes, MakesAll};

use sqlite::{Alter, Connection, Error};

/// Makes the table setup, where it is not there.
fn make_setup<S: Alter>(conn: &mut Connection<S>) -> Result<usize, Error>
    ensures { Makes S.Store 0 conn.old conn.new result }
{
    conn.execute(
        "CREATE TABLE IF NOT EXISTS setup (id INTEGER PRIMARY KEY CHECK (id = 1), body TEXT NOT NULL) STRICT",
        &[],
    )
}

/// Makes the table ballot, where it is not there.
fn make_ballot<S: Alter>(conn: &mut Connection<S>) -> Result<usize, Error>
    ensures { Makes S.Store 1 conn.old conn.new result }
{
    conn.execute(
        "CREATE TABLE IF NOT EXISTS ballot (number INTEGER PRIMARY KEY, fate INTEGER NOT NULL, detail TEXT NOT NULL) STRICT",
        &[],
    )
}

/// Makes the table stage, where it is not there.
fn make_stage<S: Alter>(conn: &mut Connection<S>) -> Result<usize, Error>
    ensures { Makes S.Store 2 conn.old conn.new result }
{
    conn.execute(
        "CREATE TABLE IF NOT EXISTS stage (step INTEGER PRIMARY KEY, detail TEXT NOT NULL) STRICT",
        &[],
    )
}

/// Makes the table claim, where it is not there.
fn make_claim<S: Alter>(conn: &mut Connection<S>) -> Result<usize, Error>
    ensures { Makes S.Store 3 conn.old conn.new result }
{
    conn.execute(
        "CREATE TABLE IF NOT EXISTS claim (number INTEGER PRIMARY KEY, ballot INTEGER NOT NULL, race INTEGER NOT NULL, code INTEGER NOT NULL) STRICT",
        &[],
    )
}

/// Makes the table done, where it is not there.
fn make_done<S: Alter>(conn: &mut Connection<S>) -> Result<usize, Error>
    ensures { Makes S.Store 4 conn.old conn.new result }
{
    conn.execute(
        "CREATE TABLE IF NOT EXISTS done (station INTEGER NOT NULL, number INTEGER NOT NULL, act TEXT NOT NULL, PRIMARY KEY (station, number)) STRICT",
        &[],
    )
}

/// Makes the table voided, where it is not there.
fn make_voided<S: Alter>(conn: &mut Connection<S>) -> Result<usize, Error>
    ensures { Makes S.Store 5 conn.old conn.new result }
{
    conn.execute(
        "CREATE TABLE IF NOT EXISTS voided (number INTEGER PRIMARY KEY) STRICT",
        &[],
    )
}

/// Makes the tables that are not there yet. All rows stay.
pub(crate) fn make_tables<S: Alter>(conn: &mut Connection<S>) -> Result<(), Error>
    ensures { MakesAll S.Store conn.old conn.new result }
{
    make_setup(conn)?;
    make_ballot(conn)?;
    make_stage(conn)?;
    make_claim(conn)?;
    make_done(conn)?;
    make_voided(conn)?;
    Ok(())
}
