//! A recount's input, read line by line behind its record.
ghost use Rattle.std.specs.Prelude.{◌≡◌, ◌≢◌, ◌+◌, ◌^◌, ◌<◌, ◌++◌, ◌∷◌, ℕ, IfErr, IfOk, List, None, [], length, take};
ghost use Rattle.sg_outside.specs.TextLines.{HasNoFeed};
ghost use Rattle.sg_parts.specs.Faults.{HasFault, IsAccepting, IsRecordOf, lines_behind, record_lines};
ghost use Rattle.sg_parts.specs.Given.{IsAccepted, IsGiven, printing_line};
ghost use Rattle.sg_parts.specs.Reads.{GoesOn, HasRead, lines_left};
ghost use Rattle.sg_parts.specs.declared.parts.RecountFault.TheVariants as fault;
ghost use Rattle.sg_parts.specs.inside.Reading.{Fits, IsRecordRead, IsWhole};
ghost use Rattle.sg_parts.specs.inside.Taking.{IsNextOff};
ghost use Rattle.sg_plan.specs.Limits.{longest_line};
ghost use Rattle.sg_record.specs.Taking.{HasTaken};

use crate::cutting::{count_rows, cut_races};
use crate::looks::is_same;
use crate::parts::{Parts, RecountFault, RowGiven};
use crate::read::{check_standing, whole_parts};
use crate::rows::take_row;
use crate::sheet::{blank_lists, take_line};
use sg_plan::{BallotIndex, Items, NoMemory};
use sg_record::{Record, RecordReading};
use sg_sheet::{Due, list_due};
use std::alloc::Global;

/// A recount's input, read line by line: a record whose verdict is yes, the line `printing`, and what stands behind it. It keeps
/// no line, but what the lines say.
#[derive(Debug, Drop)]
pub struct PartsReading {
    posted: Record,
    /// The index of its plan's ballots.
    index: BallotIndex,
    /// How many lines the record has.
    before: u32,
    /// The lines of the sheet.
    due: Items<Due>,
    /// How many rows are due.
    count: u32,
    /// How many lines behind `printing` were taken, each in its place.
    taken: u32,
    codes: Items<Items<Items<u16>>>,
    rows: Items<RowGiven>,
}

impl PartsReading {
    /// Behind the lines of a record, so many, whose verdict is yes, and the line `printing`.
    pub fn start(
        alloc: Global,
        reader: RecordReading,
        before: u32,
    ) -> Result<PartsReading, NoMemory>
        requires { (lines : List (List ℕ)) × HasTaken reader lines × IsAccepting lines × (before ≡ length lines) }
        ensures { IfOk result (λ reading. (lines all : List (List ℕ)) → HasTaken reader lines → IsAccepting lines → before ≡ length lines
            → record_lines all ≡ lines → lines_behind all ≡ printing_line ∷ [] → HasRead reading all) }
    {
        let posted = accepted_record(alloc, reader)?;
        begin(alloc, posted, before)
    }

    /// Takes the next line, with its line feed. `Some`: it is off, and this is the input's fault, however the lines go on.
    pub fn take(&mut self, alloc: Global, line: &[u8]) -> Result<Option<RecountFault>, NoMemory>
        requires { (lines : List (List ℕ)) × HasRead self.old lines }
        ensures goes { IfOk result (λ fault. (lines : List (List ℕ)) → HasRead self.old lines → GoesOn fault self.new (lines ++ line.now ∷ [])) }
        ensures falls { IfOk result (λ fault. fault ≡ None → lines_left self.new < lines_left self.old) }
    {
        if self.fits(alloc, line)? {
            self.taken += 1;
            return Ok(None);
        }
        let off = self.next_fault(alloc)?;
        Ok(Some(off))
    }

    /// Whether the line is the one that is due. If it is, what it says is kept.
    fn fits(&mut self, alloc: Global, line: &[u8]) -> Result<bool, NoMemory>
        requires { (lines : List (List ℕ)) × HasRead self.old lines }
        ensures { IfOk result (λ fits. (lines : List (List ℕ)) → HasRead self.old lines → Fits self.old self.new lines line.now fits) }
    {
        let at = self.taken as usize;
        if at < self.due.len() {
            let due = *self.due.get(at);
            let fits = take_line(alloc, &self.posted.plan, &mut self.codes, &due, line)?;
            return Ok(fits);
        }
        if at == self.due.len() {
            return Ok(is_same(line, b"completion\n"));
        }
        let fits = take_row(self.posted.plan.version, self.count, &mut self.rows, line)?;
        Ok(fits)
    }

    /// The fault where the next line isn't the one that is due, or is missing.
    fn next_fault(&self, alloc: Global) -> Result<RecountFault, NoMemory>
        requires { (lines : List (List ℕ)) × HasRead self.now lines }
        ensures known { IfOk result (λ off. off ≢ fault.NoMemory) }
        ensures has { IfOk result (λ off. (lines rest : List (List ℕ)) → HasRead self.now lines → IsNextOff self.now rest → HasFault (lines ++ rest) off) }
    {
        let number = self.before + self.taken + 2;
        if (self.taken as usize) < self.due.len() {
            return Ok(RecountFault::Printing(number));
        }
        match check_standing(alloc, &self.posted, &self.index, &self.codes)? {
            Some(off) => Ok(off),
            None => Ok(RecountFault::Completion(number)),
        }
    }

    /// The fault where the next bytes are no line: they have no line feed, or not within the bytes that a line may have.
    pub fn end_at_no_line(self, alloc: Global) -> Result<RecountFault, NoMemory>
        requires { (lines : List (List ℕ)) × HasRead self lines }
        ensures known { IfOk result (λ off. off ≢ fault.NoMemory) }
        ensures has { IfOk result (λ off. (lines more : List (List ℕ)) (text : List ℕ) → HasRead self lines → HasNoFeed (take longest_line text) → HasFault (lines ++ text ∷ more) off) }
    {
        let off = self.next_fault(alloc);
        drop(self);
        off
    }

    /// The parts that the lines so far are, or their first fault.
    pub fn finish(self, alloc: Global) -> Result<Parts, RecountFault>
        requires { (lines : List (List ℕ)) × HasRead self lines }
        ensures parts { IfOk result (λ parts. (lines : List (List ℕ)) → HasRead self lines → IsGiven lines parts) }
        ensures fault { IfErr result (λ off. (lines : List (List ℕ)) → HasRead self lines → HasFault lines off) }
    {
        match self.check(alloc) {
            Ok(()) => self.into_parts(alloc),
            Err(fault) => {
                drop(self);
                Err(fault)
            }
        }
    }

    /// Whether all lines of the sheet and of the completion were taken, and the printing stands with the record.
    fn check(&self, alloc: Global) -> Result<(), RecountFault>
        requires { (lines : List (List ℕ)) × HasRead self.now lines }
        ensures whole { IfOk result (λ _. IsWhole self.now) }
        ensures fault { IfErr result (λ off. (lines : List (List ℕ)) → HasRead self.now lines → HasFault lines off) }
    {
        if (self.taken as usize) < self.due.len() + self.count as usize + 1 {
            let off = self.next_fault(alloc)?;
            return Err(off);
        }
        match check_standing(alloc, &self.posted, &self.index, &self.codes)? {
            Some(off) => Err(off),
            None => Ok(()),
        }
    }

    /// All parts, where all lines were taken, and each row of the completion is right.
    fn into_parts(self, alloc: Global) -> Result<Parts, RecountFault>
        requires some { (lines : List (List ℕ)) × HasRead self lines }
        requires whole { IsWhole self }
        ensures parts { IfOk result (λ parts. (lines : List (List ℕ)) → HasRead self lines → IsGiven lines parts) }
        ensures fault { IfErr result (λ off. (lines : List (List ℕ)) → HasRead self lines → HasFault lines off) }
    {
        let PartsReading {
            posted,
            index,
            due,
            codes,
            rows,
            ..
        } = self;
        drop(due);
        let cut = cut_races(alloc, &index, rows.as_slice());
        drop(rows);
        match cut {
            Ok(cut) => whole_parts(posted, index, codes, cut),
            Err(NoMemory) => {
                drop(codes);
                drop(index);
                drop(posted);
                Err(RecountFault::NoMemory)
            }
        }
    }
}

/// The record of these lines, whose verdict is yes.
fn accepted_record(alloc: Global, reader: RecordReading) -> Result<Record, NoMemory>
    requires { (lines : List (List ℕ)) × HasTaken reader lines × IsAccepting lines }
    ensures { IfOk result (λ posted. (lines : List (List ℕ)) → HasTaken reader lines → IsAccepting lines → IsRecordRead lines posted) }
{
    match reader.finish(alloc)? {
        Some(posted) => Ok(posted),
        None => unreachable!(),
    }
}

/// The fault of lines that are those of a record, so many, whose verdict is yes: no line `printing` stands behind them.
pub fn missing_printing(before: u32) -> RecountFault
    requires { before + 1 < 2 ^ 32 }
    ensures known { result ≢ fault.NoMemory }
    ensures has { (lines : List (List ℕ)) → IsAccepting lines → record_lines lines ≡ lines → lines_behind lines ≡ [] → before ≡ length lines → HasFault lines result }
{
    RecountFault::Printing(before + 1)
}

/// Behind the lines of this record, so many, and the line `printing`.
fn begin(alloc: Global, posted: Record, before: u32) -> Result<PartsReading, NoMemory>
    requires { IsAccepted posted }
    ensures { IfOk result (λ reading. (lines : List (List ℕ)) → IsRecordOf lines posted → before ≡ length (record_lines lines)
        → lines_behind lines ≡ printing_line ∷ [] → HasRead reading lines) }
{
    let index = BallotIndex::make(alloc, &posted.plan)?;
    let codes = blank_lists(alloc, &posted.plan)?;
    let due = list_due(alloc, &index)?;
    let count = count_rows(&index);
    Ok(PartsReading {
        posted,
        index,
        before,
        due,
        count,
        taken: 0,
        codes,
        rows: Items::new(alloc),
    })
}
