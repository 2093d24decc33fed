//! A record, read from its text.
ghost use Rattle.std.specs.Prelude.{◌≡◌, ◌++◌, ◌∷◌, ℕ, IfOk, IfSome, List, OnOk, None, Some, [], if◌then◌else◌};
ghost use Rattle.std.specs.Option.{option_map};
ghost use Rattle.sg_forms.specs.Said.{said};
ghost use Rattle.sg_grammar.specs.Coordinates.{placed};
ghost use Rattle.sg_grammar.specs.Walk.{is_whole};
ghost use Rattle.sg_outside.specs.TextLines.{lines_of};
ghost use Rattle.sg_record.specs.inside.Gathering.{gather, gather_line, nothing_yet};
ghost use Rattle.sg_record.specs.inside.Growing.{AddsTo, made_of, so_far, with_plan};
ghost use Rattle.sg_record.specs.Laws.{AreLinesOf, IsTextOf};
ghost use Rattle.sg_record.specs.Taking.{HasTaken};

use crate::lists::Lists;
use crate::record::Record;
use sg_forms::{Line, read_form};
use sg_grammar::{Expect, PlacedLine};
use sg_outside::line_end;
use sg_plan::{NoMemory, Plan};
use std::alloc::Global;

/// The record of this text: `Some` exactly where the bytes are the text of a formed record, and then it is that one.
/// Only want of memory is refused.
pub fn read_record(alloc: Global, bytes: &[u8]) -> Result<Option<Record>, NoMemory>
    ensures found { IfOk result (λ read. IfSome read (IsTextOf bytes.now)) }
    ensures only { IfOk result (λ read. (posted : Record) → IsTextOf bytes.now posted → read ≡ Some posted) }
{
    let Some(reading) = gather_lines(alloc, bytes)? else {
        return Ok(None);
    };
    if !reading.is_whole() {
        return Ok(None);
    }
    let posted = reading.into_record(alloc)?;
    Ok(Some(posted))
}

/// A record, read line by line: it keeps no line, but what the lines say, in the record's lists.
#[derive(Debug, Drop)]
pub struct RecordReading {
    reading: Reading,
    /// A line came that may not stand behind those before it.
    stopped: bool,
}

impl RecordReading {
    /// Before the first line. It takes no memory.
    pub fn start(alloc: Global) -> RecordReading
        ensures { HasTaken result [] }
    {
        RecordReading {
            reading: Reading::start(alloc),
            stopped: false,
        }
    }

    /// Takes the next line, with its line feed.
    pub fn take(&mut self, alloc: Global, line: &[u8]) -> Result<(), NoMemory>
        ensures { OnOk result ((lines : List (List ℕ)) → HasTaken self.old lines → HasTaken self.new (lines ++ line.now ∷ [])) }
    {
        if self.stopped {
            return Ok(());
        }
        if self.reading.take(alloc, line)? {
            return Ok(());
        }
        self.stopped = true;
        Ok(())
    }

    /// The record of the lines so far: `Some` exactly where they are those of a formed record, and then it is that one.
    /// Only want of memory is refused.
    pub fn finish(self, alloc: Global) -> Result<Option<Record>, NoMemory>
        ensures found { IfOk result (λ read. (lines : List (List ℕ)) → HasTaken self lines → IfSome read (AreLinesOf lines)) }
        ensures only { IfOk result (λ read. (lines : List (List ℕ)) (posted : Record) → HasTaken self lines → AreLinesOf lines posted → read ≡ Some posted) }
    {
        if self.stopped {
            drop(self);
            return Ok(None);
        }
        if !self.reading.is_whole() {
            drop(self);
            return Ok(None);
        }
        let posted = self.reading.into_record(alloc)?;
        Ok(Some(posted))
    }
}

/// The lines of a record so far: what may stand next, with the plan, and the lists. There are none before the first line
/// behind the plan.
#[derive(Debug, Drop)]
struct Reading {
    expect: Expect,
    lists: Option<Lists>,
}

impl Reading {
    /// Before the first line. It takes no memory.
    fn start(alloc: Global) -> Reading
        ensures { so_far result ≡ nothing_yet }
    {
        Reading {
            expect: Expect::start(alloc),
            lists: None,
        }
    }

    /// Takes the line of these bytes, and answers whether it may stand next.
    fn take(&mut self, alloc: Global, bytes: &[u8]) -> Result<bool, NoMemory>
        ensures { IfOk result (λ taken. gather_line (so_far self.old) bytes.now ≡ (if taken then Some (so_far self.new) else None)) }
    {
        let Some(line) = read_form(self.expect.plan().version, bytes) else {
            return Ok(false);
        };
        if self.expect.is_of_plan(&line) {
            self.expect.plan_step(&line)?;
            self.lists = None;
            return Ok(true);
        }
        let Some(standing) = self.expect.stand(&line) else {
            return Ok(false);
        };
        add_line(
            alloc,
            &mut self.lists,
            self.expect.plan(),
            &standing.line,
            &line,
        )?;
        self.expect.go_on(standing);
        Ok(true)
    }

    /// The lines so far are a whole record.
    fn is_whole(&self) -> bool
        ensures { result ≡ is_whole (so_far self.now).next }
    {
        self.expect.whole()
    }

    /// The record of the lines.
    fn into_record(self, alloc: Global) -> Result<Record, NoMemory>
        ensures { IfOk result (λ posted. posted ≡ (so_far self).made) }
    {
        let lists = lists_or_blank(alloc, self.lists, self.expect.plan())?;
        Ok(lists.into_record(self.expect.into_plan()))
    }
}

/// The lists, or those of no line behind the plan where there are none.
fn lists_or_blank(alloc: Global, lists: Option<Lists>, plan: &Plan) -> Result<Lists, NoMemory>
    ensures { IfOk result (λ given. with_plan plan.now given ≡ made_of plan.now lists) }
{
    match lists {
        Some(lists) => Ok(lists),
        None => Lists::blank(alloc, plan),
    }
}

/// Adds a line behind the plan to the lists. The first such line makes them.
fn add_line(
    alloc: Global,
    lists: &mut Option<Lists>,
    plan: &Plan,
    at: &PlacedLine,
    line: &Line,
) -> Result<(), NoMemory>
    ensures { OnOk result (AddsTo plan.now lists.old lists.new (placed at.now) (said line.now)) }
{
    if let Some(lists) = lists {
        return lists.add(alloc, at, line);
    }
    let mut made = Lists::blank(alloc, plan)?;
    made.add(alloc, at, line)?;
    *lists = Some(made);
    Ok(())
}

/// Takes all lines of the bytes: `None` where one of them may not stand.
fn gather_lines(alloc: Global, bytes: &[u8]) -> Result<Option<Reading>, NoMemory>
    ensures { IfOk result (λ read. option_map so_far read ≡ gather nothing_yet (lines_of bytes.now)) }
{
    let mut reading = Reading::start(alloc);
    let mut start = 0;
    while start < bytes.len() {
        let end = line_end(bytes, start);
        if !reading.take(alloc, &bytes[start..end])? {
            return Ok(None);
        }
        start = end;
    }
    Ok(Some(reading))
}
