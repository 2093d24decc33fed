//! `init`: an office is set up from its election file.
ghost use Rattle.std.specs.Prelude.{◌≡◌, ◌+◌, ◌≤◌, IfOk, Some, is_some, length, vec_len};
ghost use Rattle.sg_plan.specs.Limits.{longest_election};
ghost use Rattle.sg_outside.specs.Streams.{seen};
ghost use Rattle.sg_keeper.specs.Rows.{HasFaultCause};
ghost use Rattle.sg_keeper.specs.SetupText.{IsSetup};
ghost use Rattle.sg_clerk.specs.Begun.{InitSays};
ghost use Rattle.sg_clerk.specs.Taken.{TookAtMost};
ghost use Rattle.sg_clerk.specs.inside.Beginning.{AddsSetup, IsFile, KeepsSetup, ReadsFile, Refuses, SetsUp, Tells};

use crate::filling::fill;
use crate::refusal::{Refusal, refusal_line};
use sg_asks::{SetupFault, setup_of};
use sg_keeper::{KeepFault, Keeper, Rows, Setup};
use sg_outside::{Failed, Outcome, Sink, Source};
use sg_plan::NoMemory;
use sg_plan::limits::LONGEST_ELECTION;
use std::alloc::Global;

/// What an input is.
#[derive(Drop)]
pub enum File {
    /// An election file.
    Setup(Setup),
    /// None, for this cause.
    Bad(Refusal),
    /// Not read: a read failed.
    Fault,
    /// Not read: memory was wanted and not found.
    NoMemory,
}

/// What bytes of the right number are.
fn file_of(alloc: Global, bytes: &[u8]) -> File
    requires { length bytes.now ≤ longest_election }
    ensures { IsFile result (Some bytes.now) }
{
    match setup_of(alloc, bytes) {
        Ok(setup) => File::Setup(setup),
        Err(SetupFault::NotJson) => File::Bad(Refusal::Json),
        Err(SetupFault::Shape) => File::Bad(Refusal::Shape),
        Err(SetupFault::Plan(broken)) => File::Bad(Refusal::Plan(broken)),
        Err(SetupFault::Secrets) => File::Bad(Refusal::Secrets),
        Err(SetupFault::NoMemory) => File::NoMemory,
    }
}

/// So many bytes of 0.
fn zeros(alloc: Global, count: usize) -> Result<Vec<u8>, NoMemory>
    ensures { IfOk result (λ room. vec_len room ≡ count) }
{
    Ok(vec![in alloc; 0; count]?)
}

/// Reads the election file into a buffer with room for the longest one and a byte more.
fn read_into<S: Source>(alloc: Global, buf: &mut [u8], input: &mut S) -> File
    requires { length buf.old ≡ longest_election + 1 }
    ensures reads { ReadsFile result (seen (S.left input.old) (S.faults input.old)) (seen (S.left input.new) (S.faults input.new)) }
    ensures bounded { TookAtMost (longest_election + 1) (S.left input.old) (S.left input.new) }
    ensures later { S.faults input.old ≤ S.faults input.new }
{
    let Ok(count) = fill(buf, input) else {
        return File::Fault;
    };
    if count > LONGEST_ELECTION {
        return File::Bad(Refusal::Size);
    }
    file_of(alloc, &buf[..count])
}

/// Reads the election file: at most as many bytes as it may have, and one more to know that there are more.
fn read_file<S: Source>(alloc: Global, input: &mut S) -> File
    ensures reads { ReadsFile result (seen (S.left input.old) (S.faults input.old)) (seen (S.left input.new) (S.faults input.new)) }
    ensures bounded { TookAtMost (longest_election + 1) (S.left input.old) (S.left input.new) }
    ensures later { S.faults input.old ≤ S.faults input.new }
{
    let Ok(mut buf) = zeros(alloc, LONGEST_ELECTION + 1) else {
        return File::NoMemory;
    };
    read_into(alloc, &mut buf, input)
}

/// Whether a setup is kept now.
#[derive(Clone, Copy, Debug)]
pub enum Keeping {
    /// It is, and none was before.
    Kept,
    /// Another one was before.
    Begun,
    /// Not known: the keeper failed.
    Fault,
    /// Not kept: memory was wanted and not found.
    NoMemory,
}

/// Whether rows have a setup.
fn have_setup(rows: Rows) -> bool
    ensures { result ≡ is_some rows.setup }
{
    let has = rows.setup.is_some();
    drop(rows);
    has
}

/// Whether a setup is kept.
fn is_begun<K: Keeper>(alloc: Global, keeper: &mut K) -> Result<bool, KeepFault>
    ensures begun { K.tells keeper.old → IfOk result (λ has. has ≡ is_some (K.rows keeper.old).setup) }
    ensures same { K.tells keeper.old → K.rows keeper.new ≡ K.rows keeper.old }
    ensures told { K.tells keeper.old → K.tells keeper.new }
    ensures cause { HasFaultCause (K.faults keeper.old) (K.faults keeper.new) result }
{
    match keeper.load(alloc) {
        Ok(rows) => Ok(have_setup(rows)),
        Err(fault) => Err(fault),
    }
}

/// Has the setup's text kept, where none is kept before.
fn begin<K: Keeper>(alloc: Global, setup: &Setup, keeper: &mut K) -> Keeping
    requires { IsSetup setup.now }
    ensures adds { AddsSetup result setup.now (K.tells keeper.old) (K.rows keeper.old) (K.rows keeper.new) (K.faults keeper.old) (K.faults keeper.new) }
    ensures told { K.tells keeper.old → K.tells keeper.new }
    ensures later { K.faults keeper.old ≤ K.faults keeper.new }
{
    let Ok(text) = setup.text(alloc) else {
        return Keeping::NoMemory;
    };
    match keeper.begin(&text) {
        Ok(()) => Keeping::Kept,
        Err(KeepFault::Failed) => Keeping::Fault,
        Err(KeepFault::NoMemory) => Keeping::NoMemory,
    }
}

/// Keeps the setup, where none is kept.
fn keep<K: Keeper>(alloc: Global, setup: &Setup, keeper: &mut K) -> Keeping
    requires { IsSetup setup.now }
    ensures keeps { KeepsSetup result setup.now (K.tells keeper.old) (K.rows keeper.old) (K.rows keeper.new) (K.faults keeper.old) (K.faults keeper.new) }
    ensures told { K.tells keeper.old → K.tells keeper.new }
    ensures later { K.faults keeper.old ≤ K.faults keeper.new }
{
    match is_begun(alloc, keeper) {
        Ok(true) => Keeping::Begun,
        Ok(false) => begin(alloc, setup, keeper),
        Err(KeepFault::Failed) => Keeping::Fault,
        Err(KeepFault::NoMemory) => Keeping::NoMemory,
    }
}

/// Writes that an office was set up.
fn tell_begun<O: Sink>(out: &mut O) -> Outcome
    ensures { Tells result (seen (O.written out.old) (O.faults out.old)) (seen (O.written out.new) (O.faults out.new)) }
{
    match out.put(b"begun\n") {
        Ok(()) => Outcome::Done,
        Err(Failed) => Outcome::WriteFailed,
    }
}

/// Writes why none was.
fn refuse<O: Sink>(alloc: Global, why: Refusal, out: &mut O) -> Outcome
    ensures { Refuses result why (seen (O.written out.old) (O.faults out.old)) (seen (O.written out.new) (O.faults out.new)) }
{
    let Ok(line) = refusal_line(alloc, why) else {
        return Outcome::NoMemory;
    };
    match out.put(line.bytes()) {
        Ok(()) => Outcome::Refused,
        Err(Failed) => Outcome::WriteFailed,
    }
}

/// Keeps the setup of an election file, and writes what came of it.
fn set_up<K: Keeper, O: Sink>(alloc: Global, setup: &Setup, keeper: &mut K, out: &mut O) -> Outcome
    requires { IsSetup setup.now }
    ensures sets { SetsUp result setup.now (K.tells keeper.old) (K.rows keeper.old) (K.rows keeper.new) (K.faults keeper.old) (K.faults keeper.new)
        (seen (O.written out.old) (O.faults out.old)) (seen (O.written out.new) (O.faults out.new)) }
    ensures told { K.tells keeper.old → K.tells keeper.new }
    ensures later { K.faults keeper.old ≤ K.faults keeper.new }
{
    match keep(alloc, setup, keeper) {
        Keeping::Kept => tell_begun(out),
        Keeping::Begun => refuse(alloc, Refusal::Begun, out),
        Keeping::Fault => Outcome::KeeperFailed,
        Keeping::NoMemory => Outcome::NoMemory,
    }
}

/// Sets an office up: reads the election file, keeps its setup where none is kept, and writes `begun`. The line of a
/// refusal is written where the file is none or a setup is kept: the causes are sought in the order of `Refusal`.
///
/// However it ends, of the input at most 1,048,577 bytes are taken.
pub fn init<S: Source, K: Keeper, O: Sink>(
    alloc: Global,
    input: &mut S,
    keeper: &mut K,
    out: &mut O,
) -> Outcome
    ensures says { InitSays result (seen (S.left input.old) (S.faults input.old)) (seen (S.left input.new) (S.faults input.new))
        (K.tells keeper.old) (K.rows keeper.old) (K.rows keeper.new) (K.faults keeper.old) (K.faults keeper.new)
        (seen (O.written out.old) (O.faults out.old)) (seen (O.written out.new) (O.faults out.new)) }
    ensures told { K.tells keeper.old → K.tells keeper.new }
    ensures later { K.faults keeper.old ≤ K.faults keeper.new }
{
    match read_file(alloc, input) {
        File::Setup(setup) => set_up(alloc, &setup, keeper, out),
        File::Bad(why) => refuse(alloc, why, out),
        File::Fault => Outcome::ReadFailed,
        File::NoMemory => Outcome::NoMemory,
    }
}
