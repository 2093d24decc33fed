//! The input of a recount, judged line by line: first its record, and behind the line `printing` the other parts.
ghost use Rattle.std.specs.Prelude.{◌≡◌, ◌≢◌, ◌<◌, ◌++◌, ◌∷◌, ℕ, IfErr, IfOk, List, OnErr, [], bytes_eq};
ghost use Rattle.sg_parts.specs.Given.{printing_line};
ghost use Rattle.sg_parts.specs.declared.parts.RecountFault.TheVariants.{NoMemory as WantsMemory};
ghost use Rattle.sg_reports.specs.court.inside.Answering.{EndsAtNoLine, IsCourtAnswer, IsFault};
ghost use Rattle.sg_reports.specs.court.inside.Hearing.{AtPrinting, Falls, Feeds, HearingGoes, IsSettled, Stands, StandsSome, hearing_left};

use crate::court::answer::CourtAnswer;
use crate::court::found::{Question, find};
use crate::court::record::RecordTaken;
use sg_driver::Standing;
use sg_plan::NoMemory;
use sg_recount::{PartsReading, RecountFault};
use std::alloc::Global;
use std::mem;

/// The lines that were taken.
#[derive(Drop)]
pub(crate) enum Taken {
    /// Lines of the record.
    Record(RecordTaken),
    /// The record, whose verdict is yes, the line `printing`, and lines behind it.
    Parts(PartsReading),
    /// They settle this fault.
    Fault(RecountFault),
}

/// What the next line was.
#[derive(Clone, Copy, Debug)]
enum Fed {
    /// It settles nothing.
    Open,
    /// A bad line of the record.
    Bad,
    /// The line `printing`, behind the record.
    Printing,
    /// It settles this fault.
    Off(RecountFault),
}

/// Judges the input of a recount.
#[derive(Drop)]
pub(crate) struct Hearing {
    alloc: Global,
    taken: Taken,
}

impl Hearing {
    /// Before the first line.
    pub(crate) fn new(alloc: Global) -> Result<Hearing, NoMemory>
        ensures { IfOk result (λ hearing. Stands hearing.taken []) }
    {
        let record = RecordTaken::new(alloc)?;
        Ok(Hearing {
            alloc,
            taken: Taken::Record(record),
        })
    }

    /// Takes the next line, where nothing is settled yet.
    pub(crate) fn line(&mut self, line: &[u8]) -> Result<Standing, NoMemory>
        requires { StandsSome self.old.taken }
        ensures goes { IfOk result (λ standing. (lines : List (List ℕ)) → Stands self.old.taken lines → HearingGoes standing self.new.taken (lines ++ line.now ∷ [])) }
        ensures falls { IfOk result (λ standing. standing ≡ Standing.Open → hearing_left self.new < hearing_left self.old) }
    {
        match feed(self.alloc, &mut self.taken, line)? {
            Fed::Open => Ok(Standing::Open),
            Fed::Bad => Ok(Standing::Settled),
            Fed::Printing => self.begin(),
            Fed::Off(fault) => {
                drop(mem::replace(&mut self.taken, Taken::Fault(fault)));
                Ok(Standing::Settled)
            }
        }
    }

    /// Goes on behind the line `printing`.
    fn begin(&mut self) -> Result<Standing, NoMemory>
        requires { (lines : List (List ℕ)) × AtPrinting self.old.taken lines }
        ensures goes { IfOk result (λ standing. (lines : List (List ℕ)) → AtPrinting self.old.taken lines → HearingGoes standing self.new.taken lines) }
        ensures falls { IfOk result (λ standing. standing ≡ Standing.Open → hearing_left self.new < hearing_left self.old) }
    {
        let Taken::Record(record) = mem::replace(
            &mut self.taken,
            Taken::Fault(RecountFault::NoMemory),
        ) else {
            unreachable!()
        };
        match record.parts(self.alloc) {
            Ok(parts) => {
                drop(mem::replace(&mut self.taken, Taken::Parts(parts)));
                Ok(Standing::Open)
            }
            Err(fault) => {
                let fault = known(fault)?;
                drop(mem::replace(&mut self.taken, Taken::Fault(fault)));
                Ok(Standing::Settled)
            }
        }
    }

    /// The answer where there are no more lines.
    pub(crate) fn end(self, question: Question, alloc: Global) -> Result<CourtAnswer, NoMemory>
        requires { StandsSome self.taken }
        ensures { IfOk result (λ answer. (lines : List (List ℕ)) → Stands self.taken lines → IsCourtAnswer question lines answer) }
    {
        match self.taken {
            Taken::Record(record) => Ok(CourtAnswer::Fault(record.end())),
            Taken::Parts(parts) => end_parts(question, alloc, parts),
            Taken::Fault(_) => unreachable!(),
        }
    }

    /// The fault that the lines settle.
    pub(crate) fn end_settled(self) -> RecountFault
        requires { (lines : List (List ℕ)) × IsSettled self.taken lines }
        ensures { (lines more : List (List ℕ)) → IsSettled self.taken lines → IsFault (lines ++ more) result }
    {
        match self.taken {
            Taken::Record(record) => record.end_settled(),
            Taken::Parts(_) => unreachable!(),
            Taken::Fault(fault) => fault,
        }
    }

    /// The fault where the next bytes are no line.
    pub(crate) fn end_at_no_line(self, alloc: Global) -> Result<RecountFault, NoMemory>
        requires { StandsSome self.taken }
        ensures { IfOk result (λ fault. (lines : List (List ℕ)) → Stands self.taken lines → EndsAtNoLine lines fault) }
    {
        match self.taken {
            Taken::Record(record) => Ok(record.end_at_no_line()),
            Taken::Parts(parts) => parts_fault(alloc, parts),
            Taken::Fault(_) => unreachable!(),
        }
    }
}

/// The fault of parts where the next bytes are no line.
fn parts_fault(alloc: Global, parts: PartsReading) -> Result<RecountFault, NoMemory>
    requires { StandsSome (Taken.Parts parts) }
    ensures { IfOk result (λ fault. (lines : List (List ℕ)) → Stands (Taken.Parts parts) lines → EndsAtNoLine lines fault) }
{
    let fault = parts.end_at_no_line(alloc)?;
    Ok(fault)
}

/// The fault, or that memory was wanted.
fn known(fault: RecountFault) -> Result<RecountFault, NoMemory>
    ensures { IfOk result (λ found. (found ≢ WantsMemory) × (found ≡ fault)) }
{
    match fault {
        RecountFault::NoMemory => Err(NoMemory),
        _ => Ok(fault),
    }
}

/// The line is `printing`.
fn is_printing(line: &[u8]) -> bool
    ensures { result ≡ bytes_eq line.now printing_line }
{
    line == b"printing\n".as_slice()
}

/// Feeds the next line of the record.
fn feed_record(alloc: Global, taken: &mut RecordTaken, line: &[u8]) -> Result<Fed, NoMemory>
    requires { StandsSome (Taken.Record taken.old) }
    ensures goes { IfOk result (λ fed. (lines : List (List ℕ)) → Stands (Taken.Record taken.old) lines → Feeds fed (Taken.Record taken.new) (lines ++ line.now ∷ [])) }
    ensures falls { IfOk result (λ fed. Falls fed (Taken.Record taken.old) (Taken.Record taken.new)) }
{
    if is_printing(line) {
        return Ok(Fed::Printing);
    }
    match taken.line(alloc, line)? {
        Standing::Open => Ok(Fed::Open),
        Standing::Settled => Ok(Fed::Bad),
    }
}

/// Feeds the next line behind `printing`.
fn feed_parts(alloc: Global, parts: &mut PartsReading, line: &[u8]) -> Result<Fed, NoMemory>
    requires { StandsSome (Taken.Parts parts.old) }
    ensures goes { IfOk result (λ fed. (lines : List (List ℕ)) → Stands (Taken.Parts parts.old) lines → Feeds fed (Taken.Parts parts.new) (lines ++ line.now ∷ [])) }
    ensures falls { IfOk result (λ fed. Falls fed (Taken.Parts parts.old) (Taken.Parts parts.new)) }
{
    match parts.take(alloc, line)? {
        None => Ok(Fed::Open),
        Some(fault) => Ok(Fed::Off(fault)),
    }
}

/// Feeds the next line.
fn feed(alloc: Global, taken: &mut Taken, line: &[u8]) -> Result<Fed, NoMemory>
    requires { StandsSome taken.old }
    ensures goes { IfOk result (λ fed. (lines : List (List ℕ)) → Stands taken.old lines → Feeds fed taken.new (lines ++ line.now ∷ [])) }
    ensures falls { IfOk result (λ fed. Falls fed taken.old taken.new) }
{
    match taken {
        Taken::Record(record) => feed_record(alloc, record, line),
        Taken::Parts(parts) => feed_parts(alloc, parts, line),
        Taken::Fault(_) => unreachable!(),
    }
}

/// The answer on all parts, or their fault.
fn end_parts(
    question: Question,
    alloc: Global,
    parts: PartsReading,
) -> Result<CourtAnswer, NoMemory>
    requires { StandsSome (Taken.Parts parts) }
    ensures { IfOk result (λ answer. (lines : List (List ℕ)) → Stands (Taken.Parts parts) lines → IsCourtAnswer question lines answer) }
{
    match parts.finish(alloc) {
        Ok(parts) => {
            let found = find(alloc, question, &parts);
            drop(parts);
            Ok(CourtAnswer::Found(found?))
        }
        Err(fault) => {
            let fault = known(fault)?;
            Ok(CourtAnswer::Fault(fault))
        }
    }
}
