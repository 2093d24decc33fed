//! All rows, table by table.

ghost use Rattle.std.specs.Prelude.{◌≡◌, IfOk};
ghost use Rattle.sg_keeper.specs.Laws.{RowsRise};
ghost use Rattle.sg_store.specs.Told.{HasTables, rows_in};
ghost use Rattle.sg_store.specs.inside.Steps.{Keeps};

use crate::reads::{load_list, load_setup};
use sg_keeper::Rows;
use sqlite::{Alter, Connection, Error};
use std::alloc::Global;

/// All rows, each list rising by its key.
fn load_rows<S: Alter>(alloc: Global, conn: &mut Connection<S>) -> Result<Rows, Error>
    ensures kept { Keeps S.Store conn.old conn.new }
    ensures found { HasTables S.Store 6 conn.old → IfOk result (λ found. found ≡ rows_in S.Store conn.old) }
{
    let setup = load_setup(alloc, conn)?;
    let ballots = load_list(alloc, conn)?;
    let stages = load_list(alloc, conn)?;
    let claims = load_list(alloc, conn)?;
    let voids = load_list(alloc, conn)?;
    let dones = load_list(alloc, conn)?;
    Ok(Rows {
        setup,
        ballots,
        stages,
        claims,
        voids,
        dones,
    })
}

/// The same. They are known to rise.
pub(crate) fn load_rising<S: Alter>(alloc: Global, conn: &mut Connection<S>) -> Result<Rows, Error>
    ensures kept { Keeps S.Store conn.old conn.new }
    ensures found { HasTables S.Store 6 conn.old → IfOk result (λ found. found ≡ rows_in S.Store conn.old) }
    ensures rising { HasTables S.Store 6 conn.old → IfOk result RowsRise }
{
    load_rows(alloc, conn)
}
