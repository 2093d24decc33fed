//! Lines of `do` at the limits, and lines of odd forms.
use super::runs::{Came, Case, Device, run_failing};
use crate::fault::Fault;
use sg_keeper::MemoryKeeper;
use std::alloc::Global;
use std::io::Write;

/// The most bytes of a line, with its feed.
const LINE_LIMIT: usize = 65_536;

/// The most lines.
const COUNT_LIMIT: usize = 100_000;

/// How many bytes the replies may have.
const ROOM: usize = 4_000_000;

/// Input that a case makes.
#[derive(Clone, Copy)]
struct Made {
    name: &'static str,
    /// Stands in front.
    front: &'static [u8],
    /// Stands so often behind it.
    piece: &'static [u8],
    count: usize,
    /// Stands at the end.
    end: &'static [u8],
}

/// An ask that is read as a look at the totals, before the draw.
const TOTALS: &[u8] = b"{\"ask\":\"totals\"}";

const MADE: [Made; 12] = [
    Made {
        name: "no line",
        front: b"",
        piece: b"",
        count: 0,
        end: b"",
    },
    Made {
        name: "a line without a feed",
        front: TOTALS,
        piece: b"",
        count: 0,
        end: b"",
    },
    Made {
        name: "a line with a feed",
        front: TOTALS,
        piece: b"",
        count: 0,
        end: b"\n",
    },
    Made {
        name: "a carriage return before the feed",
        front: TOTALS,
        piece: b"",
        count: 0,
        end: b"\r\n",
    },
    Made {
        name: "empty lines",
        front: b"",
        piece: b"\n",
        count: 3,
        end: b"",
    },
    Made {
        name: "bytes that are no text",
        front: b"{\"ask\":\"",
        piece: b"\xff",
        count: 1,
        end: b"\"}\n",
    },
    Made {
        name: "the longest line",
        front: TOTALS,
        piece: b" ",
        count: LINE_LIMIT - 17,
        end: b"\n",
    },
    Made {
        name: "a line one byte longer",
        front: TOTALS,
        piece: b" ",
        count: LINE_LIMIT - 16,
        end: b"\n",
    },
    Made {
        name: "the longest without a feed",
        front: TOTALS,
        piece: b" ",
        count: LINE_LIMIT - 17,
        end: b"",
    },
    Made {
        name: "as many bytes as a line has, without a feed",
        front: TOTALS,
        piece: b" ",
        count: LINE_LIMIT - 16,
        end: b"",
    },
    Made {
        name: "the most lines",
        front: b"",
        piece: b"\n",
        count: COUNT_LIMIT,
        end: b"",
    },
    Made {
        name: "one line more",
        front: b"",
        piece: b"\n",
        count: COUNT_LIMIT,
        end: b"x",
    },
];

/// The bytes of an input.
fn bytes_of(alloc: Global, made: &Made) -> Result<Vec<u8>, Fault> {
    let mut bytes = Vec::new(alloc);
    bytes.extend_from_slice(made.front)?;
    for _piece in 0..made.count {
        bytes.extend_from_slice(made.piece)?;
    }
    bytes.extend_from_slice(made.end)?;
    Ok(bytes)
}

/// How many lines the output has.
fn lines_in(output: &[u8]) -> usize {
    output.iter().filter(|byte| **byte == b'\n').count()
}

/// The last line of the output.
fn last_line(output: &[u8]) -> &[u8] {
    match output.split(|byte| *byte == b'\n').rev().nth(1) {
        None => b"",
        Some(line) => line,
    }
}

/// Writes what came of an input: its name, the status, how many lines were written, and the last of these.
fn tell_came<W: Write>(made: &Made, came: &Came, out: &mut W) -> Result<(), Fault> {
    let lines = lines_in(&came.output);
    writeln!(out, "{}: {}, {lines} lines", made.name, came.status)?;
    out.write_all(last_line(&came.output))?;
    out.write_all(b"\n")?;
    Ok(())
}

/// What comes of an input.
fn came_of(alloc: Global, input: &[u8], keeper: &mut MemoryKeeper) -> Result<Came, Fault> {
    let case = Case {
        words: b"do",
        input,
        room: ROOM,
    };
    run_failing(alloc, &case, keeper, Device::None, 0)
}

/// Writes what comes of an input.
fn tell_made<W: Write>(
    alloc: Global,
    made: &Made,
    keeper: &mut MemoryKeeper,
    out: &mut W,
) -> Result<(), Fault> {
    let input = bytes_of(alloc, made)?;
    let came = came_of(alloc, &input, keeper);
    drop(input);
    let came = came?;
    let told = tell_came(made, &came, out);
    drop(came);
    told
}

/// Writes what comes of these inputs, over the rows of a keeper.
fn tell_all<W: Write>(
    alloc: Global,
    made: &[Made],
    keeper: &mut MemoryKeeper,
    out: &mut W,
) -> Result<(), Fault> {
    for made in made {
        tell_made(alloc, made, keeper, out)?;
    }
    Ok(())
}

/// Writes what comes of each input, over the rows of a keeper.
pub(super) fn tell_limits<W: Write>(
    alloc: Global,
    keeper: &mut MemoryKeeper,
    out: &mut W,
) -> Result<(), Fault> {
    tell_all(alloc, &MADE, keeper, out)
}
