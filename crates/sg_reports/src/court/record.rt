//! The record of a recount's input, judged and gathered line by line.
ghost use Rattle.std.specs.Prelude.{◌≡◌, ◌≢◌, ◌<◌, ◌++◌, ◌∷◌, ℕ, IfErr, IfOk, List, OnErr, [], bytes_eq, false};
ghost use Rattle.sg_driver.specs.Judging.{IsNoLine};
ghost use Rattle.sg_parts.specs.Faults.{HasFault};
ghost use Rattle.sg_parts.specs.Given.{printing_line};
ghost use Rattle.sg_parts.specs.Reads.{HasRead};
ghost use Rattle.sg_parts.specs.declared.parts.RecountFault.TheVariants.{NoMemory as WantsMemory};
ghost use Rattle.sg_reports.specs.court.inside.Hearing.{HasPrinting, IsBroken, IsTaken, RecordGoes, record_left};

use crate::standing::judge_line;
use sg_check::Judged;
use sg_driver::Standing;
use sg_judge::Pass;
use sg_plan::NoMemory;
use sg_record::RecordReading;
use sg_recount::{PartsReading, RecountFault, missing_printing};
use std::alloc::Global;

/// The lines of a record that were taken.
#[derive(Drop)]
pub(crate) struct RecordTaken {
    pass: Pass,
    reader: RecordReading,
    /// How many they are.
    count: u32,
}

impl RecordTaken {
    /// None.
    pub(crate) fn new(alloc: Global) -> Result<RecordTaken, NoMemory>
        ensures { IfOk result (λ taken. IsTaken taken []) }
    {
        let pass = Pass::new(alloc)?;
        Ok(RecordTaken {
            pass,
            reader: RecordReading::start(alloc),
            count: 0,
        })
    }

    /// Takes the next line, which isn't `printing`.
    pub(crate) fn line(&mut self, alloc: Global, line: &[u8]) -> Result<Standing, NoMemory>
        requires some { (lines : List (List ℕ)) × IsTaken self.old lines }
        requires other { bytes_eq line.now printing_line ≡ false }
        ensures goes { IfOk result (λ standing. (lines : List (List ℕ)) → IsTaken self.old lines → RecordGoes standing self.new (lines ++ line.now ∷ [])) }
        ensures falls { IfOk result (λ standing. standing ≡ Standing.Open → record_left self.new < record_left self.old) }
    {
        match judge_line(&mut self.pass, line)? {
            Standing::Settled => Ok(Standing::Settled),
            Standing::Open => {
                self.reader.take(alloc, line)?;
                self.count += 1;
                Ok(Standing::Open)
            }
        }
    }

    /// The parts behind the record and the line `printing`, or the fault of the record: its verdict is no.
    pub(crate) fn parts(self, alloc: Global) -> Result<PartsReading, RecountFault>
        requires { (lines : List (List ℕ)) × IsTaken self lines }
        ensures parts { IfOk result (λ parts. (lines all : List (List ℕ)) → IsTaken self lines → HasPrinting lines all [] → HasRead parts all) }
        ensures fault { IfErr result (λ fault. fault ≢ WantsMemory → (lines all more : List (List ℕ)) → IsTaken self lines → HasPrinting lines all more → HasFault all fault) }
    {
        let RecordTaken {
            pass,
            reader,
            count,
        } = self;
        match pass.end() {
            Judged::Yes(totals) => {
                drop(totals);
                match PartsReading::start(alloc, reader, count) {
                    Ok(parts) => Ok(parts),
                    Err(NoMemory) => Err(RecountFault::NoMemory),
                }
            }
            Judged::No { line, kind } => {
                drop(reader);
                Err(RecountFault::Record { line, kind })
            }
        }
    }

    /// The fault where there are no more lines.
    pub(crate) fn end(self) -> RecountFault
        requires { (lines : List (List ℕ)) × IsTaken self lines }
        ensures known { result ≢ WantsMemory }
        ensures has { (lines : List (List ℕ)) → IsTaken self lines → HasFault lines result }
    {
        let RecordTaken {
            pass,
            reader,
            count,
        } = self;
        drop(reader);
        match pass.end() {
            Judged::Yes(totals) => {
                drop(totals);
                missing_printing(count)
            }
            Judged::No { line, kind } => RecountFault::Record { line, kind },
        }
    }

    /// The fault where the last line is bad.
    pub(crate) fn end_settled(self) -> RecountFault
        requires { (lines : List (List ℕ)) × IsBroken self lines }
        ensures known { result ≢ WantsMemory }
        ensures has { (lines more : List (List ℕ)) → IsBroken self lines → HasFault (lines ++ more) result }
    {
        let RecordTaken { pass, reader, .. } = self;
        drop(reader);
        match pass.end() {
            Judged::Yes(_) => unreachable!(),
            Judged::No { line, kind } => RecountFault::Record { line, kind },
        }
    }

    /// The fault where the next bytes are no line.
    pub(crate) fn end_at_no_line(self) -> RecountFault
        requires { (lines : List (List ℕ)) × IsTaken self lines }
        ensures known { result ≢ WantsMemory }
        ensures has { (lines more : List (List ℕ)) (text : List ℕ) → IsTaken self lines → IsNoLine text → HasFault (lines ++ text ∷ more) result }
    {
        let RecordTaken { pass, reader, .. } = self;
        drop(reader);
        match pass.end_at_no_line() {
            Judged::Yes(_) => unreachable!(),
            Judged::No { line, kind } => RecountFault::Record { line, kind },
        }
    }
}
