//! A pen: it writes lines of a record into a sink, and keeps a running seal over them where one is wanted.
ghost use Rattle.std.specs.Prelude.{◌≡◌, ◌≤◌, ◌∷◌, [], ℕ, List, IfOk, IsSome, None, length};
ghost use Rattle.sha2.specs.Sha256.{sha256};
ghost use Rattle.sg_forms.specs.Said.{said};
ghost use Rattle.sg_forms.specs.Said.Said.{Seal};
ghost use Rattle.sg_forms.specs.Spelling.{FitsForm};
ghost use Rattle.sg_plan.specs.Limits.{longest_line};
ghost use Rattle.sg_record.specs.Pens.{IsSealOf, TakesIn, Writes};
ghost use Rattle.sg_record.specs.Writing.{IsVersion};

use sg_commit::{Digest, Sealer};
use sg_forms::{Line, write_line};
use sg_outside::{Failed, Sink};
use sg_plan::NoMemory;
use sg_plan::limits::LONGEST_LINE;
use std::alloc::Global;
use std::marker::Model;

/// Writes lines of a record of one version, each with one put. It keeps SHA-256 of all that it has written, where that
/// is wanted.
#[derive(Debug, Drop)]
pub struct Pen {
    version: u32,
    buffer: Vec<u8>,
    seal: Option<Sealer>,
}

impl Model for Pen {
    ghost use Rattle.std.specs.Prelude.{◌≡◌, vec_len};
    ghost use Rattle.sg_plan.specs.Limits.{longest_line};
    ghost use Rattle.sg_record.specs.Pens.{Ink};
    ghost use Rattle.sg_record.specs.Writing.{IsVersion};

    ghost Value = { Ink };

    ghost view = { λ pen. record { version = pen.version; seal = pen.seal } };

    ghost invariant = { λ pen. IsVersion pen.version × (vec_len pen.buffer ≡ longest_line) };
}

/// Adds bytes to the seal, where one is kept.
fn take_in(seal: &mut Option<Sealer>, bytes: &[u8])
    ensures { TakesIn seal.old seal.new bytes.now }
{
    if let Some(sealer) = seal {
        sealer.add(bytes);
    }
}

/// Writes a line with its line feed, and adds it to the seal, where one is kept. The buffer has room for any line.
#[tactic(auto, using(crate::proofs::Putting::one_line))]
fn put_with<O: Sink>(
    version: u32,
    line: &Line,
    buffer: &mut [u8],
    seal: &mut Option<Sealer>,
    out: &mut O,
) -> Result<(), Failed>
    requires version { IsVersion version }
    requires line { FitsForm version (said line.now) }
    requires room { longest_line ≤ length buffer.old }
    ensures { Writes O.written O.faults (record { version = version; seal = seal.old }) out.old (record { version = version; seal = seal.new }) out.new result (said line.now ∷ []) }
{
    let len = write_line(version, line, buffer);
    out.put(&buffer[..len])?;
    take_in(seal, &buffer[..len]);
    Ok(())
}

impl Pen {
    /// A pen for a record of this version, which keeps no seal.
    pub fn new(alloc: Global, version: u32) -> Result<Pen, NoMemory>
        requires { IsVersion version }
        ensures { IfOk result (λ pen. pen ≡ record { version = version; seal = None }) }
    {
        Ok(Pen {
            version,
            buffer: vec![in alloc; 0; LONGEST_LINE]?,
            seal: None,
        })
    }

    /// A pen for a record of this version, which keeps a seal over what it writes.
    pub fn sealing(alloc: Global, version: u32) -> Result<Pen, NoMemory>
        requires { IsVersion version }
        ensures { IfOk result (λ pen. (pen.version ≡ version) × IsSealOf pen.seal []) }
    {
        Ok(Pen {
            version,
            buffer: vec![in alloc; 0; LONGEST_LINE]?,
            seal: Some(Sealer::new()),
        })
    }

    /// Writes a line with its line feed, in one put.
    ///
    /// `Ok`: the sink has the line's spelling more, and the seal took it in. `Failed`: a front of it was appended, and
    /// the sink has counted a fault.
    pub fn put_line<O: Sink>(&mut self, line: &Line, out: &mut O) -> Result<(), Failed>
        requires { FitsForm self.old.version (said line.now) }
        ensures { Writes O.written O.faults self.old out.old self.new out.new result (said line.now ∷ []) }
    {
        put_with(self.version, line, &mut self.buffer, &mut self.seal, out)
    }

    /// Writes the seal of this number over all that the pen has written. The seal's line is then among that too.
    pub fn put_seal<O: Sink>(&mut self, number: u32, out: &mut O) -> Result<(), Failed>
        requires { IsSome self.old.seal }
        ensures { (bytes : List ℕ) → IsSealOf self.old.seal bytes
            → Writes O.written O.faults self.old out.old self.new out.new result (Seal number (record { 0 = sha256 bytes }) ∷ []) }
    {
        let digest = digest_of(&self.seal);
        self.put_line(&Line::Seal { number, digest }, out)
    }
}

/// The hash of all bytes that the seal has taken in.
fn digest_of(seal: &Option<Sealer>) -> Digest
    requires { IsSome seal.now }
    ensures { (bytes : List ℕ) → IsSealOf seal.now bytes → result.0 ≡ sha256 bytes }
{
    match seal {
        Some(sealer) => sealer.copy().digest(),
        None => unreachable!(),
    }
}
