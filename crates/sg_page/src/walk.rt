//! The walk over a record that picks its wanted lines.
ghost use Rattle.std.specs.Prelude.{◌≡◌, ◌+◌, ◌<◌, ◌≤◌, ◌++◌, IfOk, IfSome, None, length, take};
ghost use Rattle.std.specs.Option.{option_map};
ghost use Rattle.sg_outside.specs.TextLines.{lines_of};
ghost use Rattle.sg_page.specs.Shown.{text_where};
ghost use Rattle.sg_page.specs.inside.Wanting.{found_so, is_wanted, step_of};

use crate::wanted::{Wanted, wants, wants_plan};
use sg_forms::read_form;
use sg_grammar::Expect;
use sg_outside::line_end;
use sg_plan::NoMemory;
use std::alloc::Global;

/// Puts the wanted lines, up to the first that may not stand where it does, into the front of `out`, and answers how many
/// bytes they have: `None` where they have no room.
pub(crate) fn put_wanted(
    alloc: Global,
    text: &[u8],
    wanted: Wanted,
    out: &mut [u8],
) -> Result<Option<usize>, NoMemory>
    ensures put { IfOk result (λ put. IfSome put (λ used. (used ≤ length out.new) × (take used out.new ≡ text_where (is_wanted wanted) (lines_of text.now)))) }
    ensures short { IfOk result (λ put. put ≡ None → length out.new < length (text_where (is_wanted wanted) (lines_of text.now))) }
{
    let mut expect = Expect::start(alloc);
    let mut at = 0;
    let mut used = 0;
    while at < text.len() {
        let end = line_end(text, at);
        let line = &text[at..end];
        match take_line(&mut expect, wanted, line)? {
            None => return Ok(Some(used)),
            Some(true) => {
                if out.len() - used < line.len() {
                    return Ok(None);
                }
                used = add(out, used, line);
            }
            Some(false) => {}
        }
        at = end;
    }
    Ok(Some(used))
}

/// Takes the line of these bytes, and answers whether it is wanted: `None` where it may not stand next.
fn take_line(expect: &mut Expect, wanted: Wanted, bytes: &[u8]) -> Result<Option<bool>, NoMemory>
    ensures { IfOk result (λ found. step_of wanted expect.old bytes.now ≡ option_map (found_so expect.new) found) }
{
    let Some(line) = read_form(expect.plan().version, bytes) else {
        return Ok(None);
    };
    if expect.is_of_plan(&line) {
        expect.plan_step(&line)?;
        return Ok(Some(wants_plan(wanted)));
    }
    let Some(standing) = expect.stand(&line) else {
        return Ok(None);
    };
    expect.go_on(standing);
    Ok(Some(wants(wanted, &standing.line)))
}

/// Puts the bytes behind the first `at`, and answers how many stand then.
fn add(line: &mut [u8], at: usize, bytes: &[u8]) -> usize
    requires { at + length bytes.now ≤ length line.old }
    ensures count { result ≡ at + length bytes.now }
    ensures text { take result line.new ≡ take at line.old ++ bytes.now }
{
    let end = at + bytes.len();
    line[at..end].copy_from_slice(bytes);
    end
}
