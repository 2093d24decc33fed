//! The answer on the bytes of a county.
ghost use Rattle.std.specs.Prelude.{◌≡◌, [], IfOk, OnOk, not, true};
ghost use Rattle.sg_county.specs.County.{IsCounty};
ghost use Rattle.sg_county.specs.Tally.{StandsFor, is_more, is_open};
ghost use Rattle.sg_county.specs.inside.Taken.{HasTakenLines};
ghost use Rattle.sg_outside.specs.TextLines.{lines_of};

use crate::tally::Tally;
use crate::verdict::CountyVerdict;
use sg_judge::Step;
use sg_outside::line_end;
use sg_plan::NoMemory;
use std::alloc::Global;

/// The answer on the bytes of a county. Only want of memory is refused.
///
/// A line ends at each line feed, and bytes behind the last one are a line of their own.
pub fn county(alloc: Global, bytes: &[u8]) -> Result<CountyVerdict, NoMemory>
    ensures { IfOk result (λ verdict. IsCounty (lines_of bytes.now) verdict) }
{
    let mut tally = Tally::new(alloc)?;
    match take_lines(&mut tally, alloc, bytes) {
        Ok(()) => Ok(tally.end()),
        Err(NoMemory) => {
            drop(tally);
            Err(NoMemory)
        }
    }
}

/// Takes the lines of the bytes, up to the first that settles an answer other than yes.
fn take_lines(tally: &mut Tally, alloc: Global, bytes: &[u8]) -> Result<(), NoMemory>
    requires stands { StandsFor tally.old [] }
    requires still { is_open tally.old ≡ true }
    ensures { OnOk result (HasTakenLines tally.new (lines_of bytes.now)) }
{
    let mut start = 0;
    while start < bytes.len() {
        let end = line_end(bytes, start);
        let step = tally.line(alloc, &bytes[start..end])?;
        if is_over(step) {
            return Ok(());
        }
        start = end;
    }
    Ok(())
}

/// The lines settled an answer other than yes.
fn is_over(step: Step) -> bool
    ensures { result ≡ not (is_more step) }
{
    match step {
        Step::Over => true,
        Step::Ready => true,
        Step::More => false,
    }
}
