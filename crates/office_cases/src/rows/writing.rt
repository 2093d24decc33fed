//! Rows as text, one behind another: as lines of words, or as statements that add them.
use crate::fault::Fault;
use sg_keeper::Rows;
use std::io::Write;

/// What stands round the values of a row.
#[derive(Clone, Copy, Debug)]
pub(crate) struct Manner {
    /// What stands before the name of its table.
    before: &'static [u8],
    /// What stands between the name and the first value.
    open: &'static [u8],
    /// What stands between two values.
    between: &'static [u8],
    /// What stands before the hexadecimal digits of a text.
    text: &'static [u8],
    /// What stands behind them.
    behind_text: &'static [u8],
    /// What stands at the end.
    end: &'static [u8],
    /// The numbers that the setup's row has beside its text.
    setup: &'static [i64],
}

/// Lines of words: the name of the table, numbers in decimal and a text in hexadecimal digits.
pub(crate) const LINES: Manner = Manner {
    before: b"",
    open: b" ",
    between: b" ",
    text: b"",
    behind_text: b"",
    end: b"\n",
    setup: &[],
};

/// Statements that add the rows to the tables of a database.
pub(crate) const STATEMENTS: Manner = Manner {
    before: b"INSERT INTO ",
    open: b" VALUES (",
    between: b", ",
    text: b"CAST(x'",
    behind_text: b"' AS TEXT)",
    end: b");\n",
    setup: &[1],
};

/// Writes numbers with a gap before each, and answers the gap before what comes next.
fn put_numbers<W: Write>(
    manner: &Manner,
    numbers: &[i64],
    out: &mut W,
) -> Result<&'static [u8], Fault> {
    let mut gap = manner.open;
    for number in numbers {
        out.write_all(gap)?;
        write!(out, "{number}")?;
        gap = manner.between;
    }
    Ok(gap)
}

/// Writes a text in hexadecimal digits.
fn put_text<W: Write>(manner: &Manner, text: &[u8], out: &mut W) -> Result<(), Fault> {
    out.write_all(manner.text)?;
    for byte in text {
        write!(out, "{byte:02x}")?;
    }
    out.write_all(manner.behind_text)?;
    Ok(())
}

/// Writes a row: the name of its table, its numbers, and its text where it has one.
fn put_row<W: Write>(
    manner: &Manner,
    table: &[u8],
    numbers: &[i64],
    text: Option<&[u8]>,
    out: &mut W,
) -> Result<(), Fault> {
    out.write_all(manner.before)?;
    out.write_all(table)?;
    let gap = put_numbers(manner, numbers, out)?;
    if let Some(text) = text {
        out.write_all(gap)?;
        put_text(manner, text, out)?;
    }
    out.write_all(manner.end)?;
    Ok(())
}

/// Writes the rows of ballots.
fn put_ballots<W: Write>(manner: &Manner, rows: &Rows, out: &mut W) -> Result<(), Fault> {
    for row in rows.ballots.as_slice() {
        let numbers = [row.ballot, row.fate];
        put_row(manner, b"ballot", &numbers, Some(row.detail.bytes()), out)?;
    }
    Ok(())
}

/// Writes the rows of stages.
fn put_stages<W: Write>(manner: &Manner, rows: &Rows, out: &mut W) -> Result<(), Fault> {
    for row in rows.stages.as_slice() {
        put_row(manner, b"stage", &[row.step], Some(row.detail.bytes()), out)?;
    }
    Ok(())
}

/// Writes the rows of claims.
fn put_claims<W: Write>(manner: &Manner, rows: &Rows, out: &mut W) -> Result<(), Fault> {
    for row in rows.claims.as_slice() {
        let numbers = [row.claim, row.ballot, row.race, row.code];
        put_row(manner, b"claim", &numbers, None, out)?;
    }
    Ok(())
}

/// Writes the rows of voided ballots.
fn put_voids<W: Write>(manner: &Manner, rows: &Rows, out: &mut W) -> Result<(), Fault> {
    for row in rows.voids.as_slice() {
        put_row(manner, b"voided", &[row.ballot], None, out)?;
    }
    Ok(())
}

/// Writes the rows of acts.
fn put_dones<W: Write>(manner: &Manner, rows: &Rows, out: &mut W) -> Result<(), Fault> {
    for row in rows.dones.as_slice() {
        let numbers = [row.station, row.number];
        put_row(manner, b"done", &numbers, Some(row.act.bytes()), out)?;
    }
    Ok(())
}

/// Writes the rows in this manner.
pub(crate) fn put_rows<W: Write>(manner: &Manner, rows: &Rows, out: &mut W) -> Result<(), Fault> {
    if let Some(setup) = &rows.setup {
        put_row(manner, b"setup", manner.setup, Some(setup.bytes()), out)?;
    }
    put_ballots(manner, rows, out)?;
    put_stages(manner, rows, out)?;
    put_claims(manner, rows, out)?;
    put_voids(manner, rows, out)?;
    put_dones(manner, rows, out)
}
