//! The records of a scanner's file are answered one after another.
ghost use Rattle.std.specs.Prelude.{◌≡◌, ◌+◌, ◌≤◌, List};
ghost use Rattle.sg_histories.specs.Histories.{Entry};
ghost use Rattle.sg_histories.specs.Standing.{StandsFor};
ghost use Rattle.sg_scans.specs.Asked.{CanCome};
ghost use Rattle.sg_talk.specs.Answers.{IsWritable};
ghost use Rattle.sg_talk.specs.Turns.{CountsStore};
ghost use Rattle.sg_clerk.specs.Outside.{unlinked};
ghost use Rattle.sg_clerk.specs.Taken.{TookAtMost};
ghost use Rattle.sg_clerk.specs.scans.DoesScans.{DoesScans};
ghost use Rattle.sg_clerk.specs.scans.ScansEnds.{longest_file};
ghost use Rattle.sg_clerk.specs.scans.inside.ScanSteps.{HasHanded};

use crate::scans::reading::{ScanFile, read_scan_file};
use crate::{Asker, Ending, Stop, converse, refuse, write_answer};
use sg_keeper::Keeper;
use sg_office::Office;
use sg_outside::{Sink, Source};
use sg_plan::Items;
use sg_scans::ScanLine;
use sg_talk::{Answered, reply_to, version_of};
use std::alloc::Global;

/// Answers a record: a scan by the office's reply, and another one by that it is none.
fn answer_record<K: Keeper>(
    alloc: Global,
    office: &mut Office,
    keeper: &mut K,
    line: &ScanLine,
) -> Answered
    requires { CanCome line.now }
    ensures told { K.tells keeper.old → K.tells keeper.new }
    ensures answers { (history : List Entry) → StandsFor office.old history
        → HasHanded office.old.setup office.new (K.tells keeper.old) (K.rows keeper.old) (K.rows keeper.new) line.now result history }
    ensures writable { IsWritable office.old.setup.plan.version result }
    ensures setup { office.new.setup ≡ office.old.setup }
    ensures stores { CountsStore (K.faults keeper.old) (K.faults keeper.new) result }
    ensures later { K.faults keeper.old ≤ K.faults keeper.new }
{
    match line {
        ScanLine::Good(ask) => reply_to(alloc, office, keeper, ask),
        ScanLine::Shape => Answered::Shape,
    }
}

/// Asks what the records of a scanner's file are, from one of them on.
#[derive(Debug, Drop)]
struct ScanAsks {
    at: usize,
}

impl Asker<Items<ScanLine>> for ScanAsks {
    ghost use Rattle.std.specs.Prelude.{◌≤◌, ◌-◌, length};
    ghost use Rattle.sg_scans.specs.Asked.{EachCanCome};
    ghost use Rattle.sg_clerk.specs.scans.DoesScans.{Handed, by_scans};
    ghost use Rattle.sg_clerk.specs.scans.inside.ScanSteps.{ScansCame, ScansOver};

    type Reply = Answered;

    ghost Exchange = { Handed };

    ghost exchanging = { by_scans };

    ghost came = { λ start first asks lines handed. ScansCame first asks.at lines handed };

    ghost over = { λ start first asks lines why handed. ScansOver why first handed };

    ghost is_ready = { λ asks lines. EachCanCome lines × (asks.at ≤ length lines) };

    ghost left_in = { λ asks lines. length lines - asks.at };

    fn ask<K: Keeper>(
        &mut self,
        alloc: Global,
        lines: &mut Items<ScanLine>,
        office: &mut Office,
        keeper: &mut K,
    ) -> Result<Answered, Stop> {
        if self.at == lines.len() {
            return Err(Stop::Done);
        }
        let answer = answer_record(alloc, office, keeper, lines.get(self.at));
        self.at += 1;
        Ok(answer)
    }

    fn write_reply<O: Sink>(
        alloc: Global,
        version: u32,
        reply: &Answered,
        out: &mut O,
    ) -> Result<(), Ending> {
        write_answer(alloc, version, reply, out)
    }
}

/// Reads the input as a scanner's file, and answers its records one after another: each answer is one line of the output,
/// and one put.
///
/// However it ends, of the input at most 16,777,217 bytes are taken. Where a read fails, or the file is refused, no record is answered. A
/// record that is no scan is told so, and the run goes on, as it does where memory is wanted for a scan or the keeper
/// fails. It ends where a write fails, and where memory is wanted for the file or for the text of an answer.
pub fn do_scans<S: Source, K: Keeper, O: Sink>(
    alloc: Global,
    office: &mut Office,
    input: &mut S,
    keeper: &mut K,
    out: &mut O,
) -> Ending
    ensures does { (history : List Entry) → StandsFor office.old history
        → DoesScans result office.old.setup history (K.tells keeper.old) (K.rows keeper.old) (K.rows keeper.new)
        (unlinked (S.left input.old) (O.written out.old) (S.faults input.old) (O.faults out.old) (K.faults keeper.old))
        (unlinked (S.left input.new) (O.written out.new) (S.faults input.new) (O.faults out.new) (K.faults keeper.new)) }
    ensures bounded { TookAtMost (longest_file + 1) (S.left input.old) (S.left input.new) }
    ensures told { K.tells keeper.old → K.tells keeper.new }
{
    match read_scan_file(alloc, input) {
        ScanFile::Scans(lines) => {
            let mut lines = lines;
            let mut asks = ScanAsks { at: 0 };
            converse(alloc, office, &mut asks, &mut lines, keeper, out)
        }
        ScanFile::Bad(why) => refuse(out, why),
        ScanFile::Fault => Ending::ReadFault,
        ScanFile::NoMemory => Ending::NoMemory,
    }
}
