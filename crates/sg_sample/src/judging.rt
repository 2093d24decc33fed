//! The audit of a record in memory.
ghost use Rattle.std.specs.Prelude.{IfOk};
ghost use Rattle.sg_outside.specs.TextLines.{lines_of};
ghost use Rattle.sg_check.specs.Verdict.{IsVerdict};
ghost use Rattle.sg_check.specs.declared.judged.Judged.TheVariants as judged;
ghost use Rattle.sg_sample.specs.inside.Judging.{HasTotals};

use sg_check::{Judged, Total};
use sg_judge::judge;
use sg_plan::{Items, NoMemory};
use std::alloc::Global;

/// The totals of a record that is accepted.
pub(crate) fn audited_totals(alloc: Global, text: &[u8]) -> Result<Items<Total>, NoMemory>
    requires { HasTotals text.now }
    ensures { IfOk result (λ totals. IsVerdict (lines_of text.now) (judged.Yes totals)) }
{
    sg_check::laws::one_verdict_law();
    match judge(alloc, text)? {
        Judged::Yes(totals) => Ok(totals),
        Judged::No { .. } => unreachable!(),
    }
}
