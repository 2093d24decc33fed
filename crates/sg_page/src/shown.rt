//! What the page shows of a record: the lines of its plan, its seals, and what it posts of a ballot.
ghost use Rattle.std.specs.Prelude.{◌≡◌, ◌<◌, ◌≤◌, ◌⊎◌, length, take};
ghost use Rattle.sg_outside.specs.TextLines.{lines_of};
ghost use Rattle.sg_page.specs.Shown.{ShowsLines, is_about, is_of_plan, is_seal, text_where};
ghost use Rattle.sg_page.specs.inside.Wanting.{is_wanted};

use crate::statuses::{DONE, NO_ROOM, WANT_OF_MEMORY};
use crate::walk::put_wanted;
use crate::wanted::Wanted;
use sg_plan::NoMemory;
use std::alloc::Global;

/// Puts the lines of the record's plan into the front of `out`: `written` says how many bytes they have. It answers 0,
/// 4 where `out` is too short, or 9 where memory was wanted and not found; then nothing is written.
///
/// Lines are told up to the first that may not stand where it does.
#[unsafe(no_mangle)]
pub extern "C" fn page_plan(alloc: Global, text: &[u8], out: &mut [u8], written: &mut usize) -> u32
    ensures shown { result ≡ 0 → ShowsLines is_of_plan (lines_of text.now) (take written.new out.new) }
    ensures within { written.new ≤ length out.new }
    ensures short { result ≡ 4 → length out.new < length (text_where is_of_plan (lines_of text.now)) }
    ensures untold { 0 < result → written.new ≡ 0 }
    ensures statuses { (result ≡ 0) ⊎ (result ≡ 4) ⊎ (result ≡ 9) }
{
    show(alloc, text, Wanted::Plan, out, written)
}

/// Puts the record's seals into the front of `out`, as `page_plan` does the plan's lines.
#[unsafe(no_mangle)]
pub extern "C" fn page_seals(alloc: Global, text: &[u8], out: &mut [u8], written: &mut usize) -> u32
    ensures shown { result ≡ 0 → ShowsLines is_seal (lines_of text.now) (take written.new out.new) }
    ensures within { written.new ≤ length out.new }
    ensures short { result ≡ 4 → length out.new < length (text_where is_seal (lines_of text.now)) }
    ensures untold { 0 < result → written.new ≡ 0 }
    ensures statuses { (result ≡ 0) ⊎ (result ≡ 4) ⊎ (result ≡ 9) }
{
    show(alloc, text, Wanted::Seals, out, written)
}

/// Puts what the record posts of this ballot into the front of `out`, as `page_plan` does the plan's lines: its block, and
/// the block of each dispute about it.
#[unsafe(no_mangle)]
pub extern "C" fn page_ballot(
    alloc: Global,
    text: &[u8],
    ballot: u32,
    out: &mut [u8],
    written: &mut usize,
) -> u32
    ensures shown { result ≡ 0 → ShowsLines (is_about ballot) (lines_of text.now) (take written.new out.new) }
    ensures within { written.new ≤ length out.new }
    ensures short { result ≡ 4 → length out.new < length (text_where (is_about ballot) (lines_of text.now)) }
    ensures untold { 0 < result → written.new ≡ 0 }
    ensures statuses { (result ≡ 0) ⊎ (result ≡ 4) ⊎ (result ≡ 9) }
{
    show(alloc, text, Wanted::Ballot(ballot), out, written)
}

/// Puts the wanted lines into the front of `out`.
fn show(alloc: Global, text: &[u8], wanted: Wanted, out: &mut [u8], written: &mut usize) -> u32
    ensures shown { result ≡ 0 → ShowsLines (is_wanted wanted) (lines_of text.now) (take written.new out.new) }
    ensures within { written.new ≤ length out.new }
    ensures short { result ≡ 4 → length out.new < length (text_where (is_wanted wanted) (lines_of text.now)) }
    ensures untold { 0 < result → written.new ≡ 0 }
    ensures statuses { (result ≡ 0) ⊎ (result ≡ 4) ⊎ (result ≡ 9) }
{
    *written = 0;
    match put_wanted(alloc, text, wanted, out) {
        Ok(Some(used)) => {
            *written = used;
            DONE
        }
        Ok(None) => NO_ROOM,
        Err(NoMemory) => WANT_OF_MEMORY,
    }
}
