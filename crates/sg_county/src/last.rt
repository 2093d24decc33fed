//! The end of the last part.
ghost use Rattle.std.specs.Prelude.{◌≡◌, ◌++◌, ◌∷◌, [], ℕ, List, None, false, true};
ghost use Rattle.sg_record.specs.declared.record.Record.{Record};
ghost use Rattle.sg_county.specs.County.{IsFirstSettled};
ghost use Rattle.sg_county.specs.Tally.{IsRefusal};
ghost use Rattle.sg_county.specs.inside.Ending.{IsLast, IsSomeLast, answer_of};
ghost use Rattle.sg_county.specs.inside.Keeping.{Fits};
ghost use Rattle.sg_forms.specs.Reading.{line_of};
ghost use Rattle.sg_judge.specs.Pass.{is_open as is_fine_so_far};

use crate::ending::{Close, bad_part, end_of};
use crate::kept::Kept;
use crate::sums::added;
use crate::verdict::CountyVerdict;
use sg_check::Total;
use sg_judge::Pass;
use sg_plan::Items;

/// The answer where the last part ends, behind parts of which this is kept.
pub(crate) fn end_last(pass: Pass, kept: Kept) -> CountyVerdict
    requires { IsSomeLast pass kept }
    ensures all { (before : List Record) (last : List (List ℕ)) → IsLast pass kept before last → IsFirstSettled before (last ∷ []) result }
    ensures over { is_fine_so_far pass ≡ false → (before : List Record) (rest : List (List (List ℕ))) (last more : List (List ℕ)) → IsLast pass kept before last → IsFirstSettled before ((last ++ more) ∷ rest) result }
    ensures refuses { is_fine_so_far pass ≡ false → IsRefusal result }
{
    let found = kept.find(&pass);
    answer_at(found.number, kept, end_of(&found, pass.end()))
}

/// The answer where this is the end of the last part, which has this number.
fn answer_at(number: u32, kept: Kept, end: Close) -> CountyVerdict
    requires { Fits number kept.sums end }
    ensures { result ≡ answer_of number kept.sums end }
{
    match end {
        Close::Settles(verdict) => verdict,
        Close::Counts(totals) => CountyVerdict::Yes(added(number, kept.sums, totals)),
    }
}

/// The answer where the next bytes of the last part are no line in any version, behind parts of which this is kept.
pub(crate) fn end_last_at_no_line(pass: Pass, kept: Kept) -> CountyVerdict
    requires last { IsSomeLast pass kept }
    requires open { is_fine_so_far pass ≡ true }
    ensures all { (before : List Record) (rest : List (List (List ℕ))) (last more : List (List ℕ)) (text : List ℕ) → IsLast pass kept before last → ((version : ℕ) → line_of version text ≡ None) → IsFirstSettled before ((last ++ text ∷ more) ∷ rest) result }
    ensures refuses { IsRefusal result }
{
    bad_part(kept.number(), pass.end_at_no_line())
}
