//! The verdict on a text in memory, in one pass.
ghost use Rattle.std.specs.Prelude.{◌≡◌, ◌≤◌, List, IfNone, IfOk, IfSome, false, length, true};
ghost use Rattle.sg_outside.specs.TextLines.{lines_of};
ghost use Rattle.sg_check.specs.Bounds.{IsSoundIfYes};
ghost use Rattle.sg_check.specs.Verdict.{IsVerdict};
ghost use Rattle.sg_judge.specs.Pass.{is_ready};
ghost use Rattle.sg_judge.specs.inside.Feeding.{IsFed, IsSettled};

use crate::pass::{Pass, Step};
use sg_check::Judged;
use sg_outside::line_end;
use sg_plan::NoMemory;
use std::alloc::Global;

/// The verdict on the bytes of a record, with what a yes promises, in time linear in their number. Only want of memory is
/// refused.
///
/// A line ends at each line feed, and bytes behind the last one are a line of their own.
pub fn judge(alloc: Global, text: &[u8]) -> Result<Judged, NoMemory>
    ensures verdict { IfOk result (λ judged. IsVerdict (lines_of text.now) judged) }
    ensures sound { IfOk result (λ judged. IsSoundIfYes (lines_of text.now) judged) }
{
    judge_lines(alloc, text)
}

/// The verdict on the bytes, line by line.
fn judge_lines(alloc: Global, text: &[u8]) -> Result<Judged, NoMemory>
    ensures { IfOk result (λ judged. IsVerdict (lines_of text.now) judged) }
{
    let mut pass = Pass::new(alloc)?;
    match feed_header(&mut pass, text) {
        Ok(Some(start)) => Ok(judge_behind(pass, text, start)),
        Ok(None) => Ok(pass.end()),
        Err(NoMemory) => Err(dropped(pass)),
    }
}

/// Lets the pass go, for want of memory.
fn dropped(pass: Pass) -> NoMemory {
    drop(pass);
    NoMemory
}

/// Feeds a new pass the lines of the plan and the first behind them. It answers where the next line begins, or none where the
/// verdict stands.
fn feed_header(pass: &mut Pass, text: &[u8]) -> Result<Option<usize>, NoMemory>
    requires fed { IsFed pass.old text.now 0 }
    requires before { is_ready pass.old ≡ false }
    ensures goes_on { IfOk result (λ start. IfSome start (λ at. IsFed pass.new text.now at × (is_ready pass.new ≡ true))) }
    ensures settled { IfOk result (λ start. IfNone start (IsSettled pass.new text.now)) }
{
    let mut at = 0;
    while at < text.len() {
        let end = line_end(text, at);
        match pass.header_line(&text[at..end]) {
            Ok(Step::More) => {}
            Ok(Step::Ready) => return Ok(Some(end)),
            Ok(Step::Over) => return Ok(None),
            Err(NoMemory) => return Err(NoMemory),
        }
        at = end;
    }
    Ok(None)
}

/// The verdict, where the lines before `start` were fed to the pass.
fn judge_behind(pass: Pass, text: &[u8], start: usize) -> Judged
    requires fed { IsFed pass text.now start }
    requires ready { is_ready pass ≡ true }
    ensures { IsVerdict (lines_of text.now) result }
{
    let mut pass = pass;
    let mut at = start;
    while at < text.len() {
        let end = line_end(text, at);
        match pass.line(&text[at..end]) {
            Step::More => {}
            Step::Ready => unreachable!(),
            Step::Over => return pass.end(),
        }
        at = end;
    }
    pass.end()
}
