//! A line read from its bytes, where it may stand next.
ghost use Rattle.std.specs.Prelude.{◌≡◌, IfSome, IsSome, Some};
ghost use Rattle.std.specs.Option.{option_map};
ghost use Rattle.sg_forms.specs.Said.{Said, said};
ghost use Rattle.sg_forms.specs.Spelling.{spelling, IsInRange};
ghost use Rattle.sg_forms.specs.Zeros.{HasZeros};
ghost use Rattle.sg_grammar.specs.Walk.{read_next, take_line};

use crate::expecting::Expect;
use sg_forms::{Line, read_form};

/// The line of these bytes, with its line feed: `Some` exactly where they are the one spelling of a line
/// that may stand next. It takes no memory.
pub fn read_line<'a>(expect: &Expect, bytes: &'a [u8]) -> Option<Line<'a>>
    ensures exact { option_map said result ≡ read_next expect.now bytes.now }
    ensures found { IfSome result (λ line. IsInRange expect.now.plan.version (said line) × (bytes.now ≡ spelling expect.now.plan.version (said line)) × IsSome (take_line expect.now (said line))) }
    ensures only { (s : Said) → IsInRange expect.now.plan.version s → bytes.now ≡ spelling expect.now.plan.version s → IsSome (take_line expect.now s) → option_map said result ≡ Some s }
    ensures zeros { IfSome result HasZeros }
{
    next_line(expect, bytes)
}

/// The same, by what is found alone.
fn next_line<'a>(expect: &Expect, bytes: &'a [u8]) -> Option<Line<'a>>
    ensures exact { option_map said result ≡ read_next expect.now bytes.now }
    ensures found { IfSome result (λ line. IsInRange expect.now.plan.version (said line) × (bytes.now ≡ spelling expect.now.plan.version (said line)) × IsSome (take_line expect.now (said line))) }
    ensures zeros { IfSome result HasZeros }
{
    let Some(line) = read_form(expect.plan().version, bytes) else {
        return None;
    };
    if expect.may(&line) {
        return Some(line);
    }
    None
}
