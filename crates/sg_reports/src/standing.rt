//! What a pass or a tally says of the lines, in a judge's words.
ghost use Rattle.std.specs.Prelude.{◌≡◌, ◌<◌, ◌++◌, ◌∷◌, ℕ, IfOk, List, OnErr, [], false, true};
ghost use Rattle.sg_judge.specs.Pass.{StandsFor, StandsForSome, is_behind_plan, is_open, left_in};
ghost use Rattle.sg_reports.specs.inside.Standing.{PassGoes, standing_of};

use sg_driver::Standing;
use sg_judge::{Pass, Step};
use sg_plan::NoMemory;

/// What is said of the lines behind a step.
pub(crate) fn standing(step: Step) -> Standing
    ensures { result ≡ standing_of step }
{
    match step {
        Step::More => Standing::Open,
        Step::Ready => Standing::Open,
        Step::Over => Standing::Settled,
    }
}

/// Feeds a pass with the next line. Memory is wanted only among the lines of the plan.
pub(crate) fn judge_line(pass: &mut Pass, line: &[u8]) -> Result<Standing, NoMemory>
    requires stands { StandsForSome pass.old }
    requires going { is_open pass.old ≡ true }
    ensures goes { IfOk result (λ standing. (lines : List (List ℕ)) → StandsFor pass.old lines → PassGoes standing pass.new (lines ++ line.now ∷ [])) }
    ensures falls { IfOk result (λ standing. standing ≡ Standing.Open → left_in pass.new < left_in pass.old) }
    ensures wants { OnErr result ((lines : List (List ℕ)) → StandsFor pass.old lines → is_behind_plan lines ≡ false) }
{
    if pass.is_ready() {
        return Ok(standing(pass.line(line)));
    }
    let step = pass.header_line(line)?;
    Ok(standing(step))
}
