//! The input of `scans`: a scanner's file, which is read whole before any scan in it is answered.
ghost use Rattle.std.specs.Prelude.{◌≡◌, ◌+◌, ◌≤◌, IfOk, Some, length, vec_len};
ghost use Rattle.sg_outside.specs.Streams.{seen};
ghost use Rattle.sg_clerk.specs.scans.ScansEnds.{longest_file};
ghost use Rattle.sg_clerk.specs.Taken.{TookAtMost};
ghost use Rattle.sg_clerk.specs.scans.inside.ScanSteps.{IsScanFile, ReadsScans};

use crate::{Unfit, fill};
use sg_outside::Source;
use sg_plan::{Items, NoMemory};
use sg_scans::{ScanLine, ScansFault, read_scans};
use std::alloc::Global;

/// The most bytes of a scanner's file.
const LONGEST_FILE: usize = 16_777_216;

/// What an input is.
#[derive(Drop)]
pub enum ScanFile {
    /// A scanner's file with these records behind its first one.
    Scans(Items<ScanLine>),
    /// None, for this cause.
    Bad(Unfit),
    /// Not read: a read failed.
    Fault,
    /// Not read: memory was wanted and not found.
    NoMemory,
}

/// What bytes of the right number are.
fn scans_in(alloc: Global, bytes: &[u8]) -> ScanFile
    requires { length bytes.now ≤ longest_file }
    ensures { IsScanFile result (Some bytes.now) }
{
    match read_scans(alloc, bytes) {
        Ok(lines) => ScanFile::Scans(lines),
        Err(ScansFault::Header) => ScanFile::Bad(Unfit::Header),
        Err(ScansFault::Count) => ScanFile::Bad(Unfit::Count),
        Err(ScansFault::NoMemory) => ScanFile::NoMemory,
    }
}

/// So many bytes of 0.
fn zeros(alloc: Global, count: usize) -> Result<Vec<u8>, NoMemory>
    ensures { IfOk result (λ room. vec_len room ≡ count) }
{
    Ok(vec![in alloc; 0; count]?)
}

/// Reads a file into a buffer with room for the longest one and a byte more.
fn read_scans_into<S: Source>(alloc: Global, buf: &mut [u8], input: &mut S) -> ScanFile
    requires { length buf.old ≡ longest_file + 1 }
    ensures reads { ReadsScans result (seen (S.left input.old) (S.faults input.old)) (seen (S.left input.new) (S.faults input.new)) }
    ensures bounded { TookAtMost (longest_file + 1) (S.left input.old) (S.left input.new) }
{
    let Ok(count) = fill(buf, input) else {
        return ScanFile::Fault;
    };
    if count > LONGEST_FILE {
        return ScanFile::Bad(Unfit::Size);
    }
    scans_in(alloc, &buf[..count])
}

/// Reads a file: at most as many bytes as it may have, and one more to know that there are more.
pub(crate) fn read_scan_file<S: Source>(alloc: Global, input: &mut S) -> ScanFile
    ensures reads { ReadsScans result (seen (S.left input.old) (S.faults input.old)) (seen (S.left input.new) (S.faults input.new)) }
    ensures bounded { TookAtMost (longest_file + 1) (S.left input.old) (S.left input.new) }
{
    let Ok(mut buf) = zeros(alloc, LONGEST_FILE + 1) else {
        return ScanFile::NoMemory;
    };
    read_scans_into(alloc, &mut buf, input)
}
