//! A line behind the plan, taken behind lines that are fine.
ghost use Rattle.std.specs.Prelude.{◌≡◌, ℕ, ◌+◌, ◌<◌, ◌≤◌, true, List, [], ◌∷◌, ◌++◌, length, None, Some};
ghost use Rattle.sg_grammar.specs.Head.{is_behind};
ghost use Rattle.sg_check.specs.Kinds.{first_bad};
ghost use Rattle.sg_check.specs.Verdict.{total_on};
ghost use Rattle.sg_forms.specs.Reading.{line_of};
ghost use Rattle.sg_forms.specs.Said.{said, said_commits};
ghost use Rattle.sg_forms.specs.Said.Said.{CodeCommit, Row};
ghost use Rattle.sg_ledger.specs.Tells.{HasDigits, Tells, TellsSome, plan_kept, totals_kept};
ghost use Rattle.sg_judge.specs.inside.Taking.{Advances, IsNoPlanLine, Stands, StandsAt, StandsSome, next_seal, or_seal};
ghost use Rattle.sg_grammar.specs.Left.{lines_left};
ghost use Rattle.sg_grammar.specs.Placed.{Placed};
ghost use Rattle.sg_grammar.specs.Coordinates.{IsPlacedIn, placed};

use crate::seals::{is_bad_seal, note_seal};
use sg_check::Kind;
use sg_commit::{Digest, Sealer};
use sg_forms::{RowCommitLine, RowOpening, read_code_commit, read_form, read_row, read_row_commit};
use sg_grammar::{Expect, Line, PlacedLine, Standing};
use sg_ledger::Ledger;

/// Takes the next line, with its line feed, where it is none of the plan, and answers what it is bad in. It takes no
/// memory.
pub(crate) fn advance(
    expect: &mut Expect,
    sealer: &mut Sealer,
    ledger: &mut Ledger,
    seal: &mut Option<Digest>,
    bytes: &[u8],
) -> Option<Kind>
    requires stands { StandsSome expect.old sealer.old (Some ledger.old) }
    requires behind { IsNoPlanLine expect.old bytes.now }
    ensures goes_on { (lines : List (List ℕ)) → Stands expect.old sealer.old (Some ledger.old) lines → Advances result expect.new sealer.new (Some ledger.new) lines bytes.now }
    ensures seal { result ≡ None → seal.new ≡ or_seal seal.old (next_seal expect.old bytes.now) }
    ensures whole { result ≡ None → is_behind expect.new.head ≡ true }
    ensures falls { result ≡ None → lines_left expect.new < lines_left expect.old }
{
    if let Some(row) = read_row_commit(bytes) {
        return advance_commits(expect, sealer, ledger, seal, bytes, row);
    }
    if let Some(opening) = read_row(bytes) {
        return advance_row(expect, sealer, ledger, seal, bytes, opening);
    }
    if let Some((race, digest)) = read_code_commit(bytes) {
        return advance_commit(expect, sealer, ledger, seal, bytes, race, digest);
    }
    advance_read(expect, sealer, ledger, seal, bytes)
}

/// The same of any line, in the general way.
#[inline(never)]
fn advance_read(
    expect: &mut Expect,
    sealer: &mut Sealer,
    ledger: &mut Ledger,
    seal: &mut Option<Digest>,
    bytes: &[u8],
) -> Option<Kind>
    requires stands { StandsSome expect.old sealer.old (Some ledger.old) }
    requires behind { IsNoPlanLine expect.old bytes.now }
    ensures goes_on { (lines : List (List ℕ)) → Stands expect.old sealer.old (Some ledger.old) lines → Advances result expect.new sealer.new (Some ledger.new) lines bytes.now }
    ensures seal { result ≡ None → seal.new ≡ or_seal seal.old (next_seal expect.old bytes.now) }
    ensures whole { result ≡ None → is_behind expect.new.head ≡ true }
    ensures falls { result ≡ None → lines_left expect.new < lines_left expect.old }
{
    let read = read_form(expect.plan().version, bytes);
    match &read {
        Some(line) => advance_line(expect, sealer, ledger, seal, bytes, line),
        None => Some(Kind::Form),
    }
}

/// The same of bytes that were read as this line.
#[inline(never)]
fn advance_line(
    expect: &mut Expect,
    sealer: &mut Sealer,
    ledger: &mut Ledger,
    seal: &mut Option<Digest>,
    bytes: &[u8],
    line: &Line,
) -> Option<Kind>
    requires stands { StandsSome expect.old sealer.old (Some ledger.old) }
    requires behind { IsNoPlanLine expect.old bytes.now }
    requires read { line_of expect.old.plan.version bytes.now ≡ Some (said line.now) }
    ensures goes_on { (lines : List (List ℕ)) → Stands expect.old sealer.old (Some ledger.old) lines → Advances result expect.new sealer.new (Some ledger.new) lines bytes.now }
    ensures seal { result ≡ None → seal.new ≡ or_seal seal.old (next_seal expect.old bytes.now) }
    ensures whole { result ≡ None → is_behind expect.new.head ≡ true }
    ensures falls { result ≡ None → lines_left expect.new < lines_left expect.old }
{
    let Some(standing) = expect.stand(line) else {
        return Some(Kind::Form);
    };
    advance_there(
        expect,
        sealer,
        ledger,
        seal,
        bytes,
        standing,
        &standing.line,
    )
}

/// The same of bytes that were read as the commitments of a row, of which a record has most. Where they are due, the line is
/// made anew, so that the compiler makes of all that follows what is done for them alone.
fn advance_commits(
    expect: &mut Expect,
    sealer: &mut Sealer,
    ledger: &mut Ledger,
    seal: &mut Option<Digest>,
    bytes: &[u8],
    commits: RowCommitLine,
) -> Option<Kind>
    requires stands { StandsSome expect.old sealer.old (Some ledger.old) }
    requires behind { IsNoPlanLine expect.old bytes.now }
    requires read { line_of expect.old.plan.version bytes.now ≡ Some (said_commits commits) }
    ensures goes_on { (lines : List (List ℕ)) → Stands expect.old sealer.old (Some ledger.old) lines → Advances result expect.new sealer.new (Some ledger.new) lines bytes.now }
    ensures seal { result ≡ None → seal.new ≡ or_seal seal.old (next_seal expect.old bytes.now) }
    ensures whole { result ≡ None → is_behind expect.new.head ≡ true }
    ensures falls { result ≡ None → lines_left expect.new < lines_left expect.old }
{
    let line = Line::RowCommit {
        race: commits.race,
        instance: commits.instance,
        left: commits.left,
        right: commits.right,
    };
    let Some(standing) = expect.stand(&line) else {
        return Some(Kind::Form);
    };
    let PlacedLine::RowCommit {
        race,
        instance,
        row,
        ..
    } = standing.line
    else {
        return advance_line(expect, sealer, ledger, seal, bytes, &line);
    };
    let there = PlacedLine::RowCommit {
        race,
        instance,
        row,
        left: commits.left,
        right: commits.right,
    };
    advance_there(expect, sealer, ledger, seal, bytes, standing, &there)
}

/// The same of bytes that were read as what is opened of a row.
fn advance_row(
    expect: &mut Expect,
    sealer: &mut Sealer,
    ledger: &mut Ledger,
    seal: &mut Option<Digest>,
    bytes: &[u8],
    opening: RowOpening,
) -> Option<Kind>
    requires stands { StandsSome expect.old sealer.old (Some ledger.old) }
    requires behind { IsNoPlanLine expect.old bytes.now }
    requires read { line_of expect.old.plan.version bytes.now ≡ Some (Row opening) }
    ensures goes_on { (lines : List (List ℕ)) → Stands expect.old sealer.old (Some ledger.old) lines → Advances result expect.new sealer.new (Some ledger.new) lines bytes.now }
    ensures seal { result ≡ None → seal.new ≡ or_seal seal.old (next_seal expect.old bytes.now) }
    ensures whole { result ≡ None → is_behind expect.new.head ≡ true }
    ensures falls { result ≡ None → lines_left expect.new < lines_left expect.old }
{
    let line = Line::Row(opening);
    let Some(standing) = expect.stand(&line) else {
        return Some(Kind::Form);
    };
    let PlacedLine::Row {
        race,
        instance,
        row,
        ..
    } = standing.line
    else {
        return advance_line(expect, sealer, ledger, seal, bytes, &line);
    };
    let there = PlacedLine::Row {
        race,
        instance,
        row,
        opening,
    };
    advance_there(expect, sealer, ledger, seal, bytes, standing, &there)
}

/// The same of bytes that were read as the commitment of a code.
fn advance_commit(
    expect: &mut Expect,
    sealer: &mut Sealer,
    ledger: &mut Ledger,
    seal: &mut Option<Digest>,
    bytes: &[u8],
    race: u32,
    digest: Digest,
) -> Option<Kind>
    requires stands { StandsSome expect.old sealer.old (Some ledger.old) }
    requires behind { IsNoPlanLine expect.old bytes.now }
    requires read { line_of expect.old.plan.version bytes.now ≡ Some (CodeCommit race digest) }
    ensures goes_on { (lines : List (List ℕ)) → Stands expect.old sealer.old (Some ledger.old) lines → Advances result expect.new sealer.new (Some ledger.new) lines bytes.now }
    ensures seal { result ≡ None → seal.new ≡ or_seal seal.old (next_seal expect.old bytes.now) }
    ensures whole { result ≡ None → is_behind expect.new.head ≡ true }
    ensures falls { result ≡ None → lines_left expect.new < lines_left expect.old }
{
    let line = Line::CodeCommit { race, digest };
    let Some(standing) = expect.stand(&line) else {
        return Some(Kind::Form);
    };
    let PlacedLine::CodeCommit { race, entry, .. } = standing.line else {
        return advance_line(expect, sealer, ledger, seal, bytes, &line);
    };
    let there = PlacedLine::CodeCommit {
        race,
        entry,
        digest,
    };
    advance_there(expect, sealer, ledger, seal, bytes, standing, &there)
}

/// The same of a line that stands there.
#[inline(always)]
fn advance_there(
    expect: &mut Expect,
    sealer: &mut Sealer,
    ledger: &mut Ledger,
    seal: &mut Option<Digest>,
    bytes: &[u8],
    standing: Standing,
    line: &PlacedLine,
) -> Option<Kind>
    requires stands { StandsSome expect.old sealer.old (Some ledger.old) }
    requires there { StandsAt expect.old bytes.now standing (placed line.now) }
    ensures goes_on { (lines : List (List ℕ)) → Stands expect.old sealer.old (Some ledger.old) lines → Advances result expect.new sealer.new (Some ledger.new) lines bytes.now }
    ensures seal { result ≡ None → seal.new ≡ or_seal seal.old (next_seal expect.old bytes.now) }
    ensures whole { result ≡ None → is_behind expect.new.head ≡ true }
    ensures falls { result ≡ None → lines_left expect.new < lines_left expect.old }
{
    if is_bad_seal(sealer, line) {
        return Some(Kind::Seal);
    }
    match judge_and_keep(ledger, line) {
        Some(kind) => Some(kind),
        None => {
            note_seal(seal, line);
            expect.go_on(standing);
            sealer.add(bytes);
            None
        }
    }
}

/// Judges a line by the ledger, and keeps it there where it is bad in nothing.
#[inline(always)]
fn judge_and_keep(ledger: &mut Ledger, line: &PlacedLine) -> Option<Kind>
    requires placed { IsPlacedIn (plan_kept ledger.old) (placed line.now) }
    requires digits { HasDigits (placed line.now) }
    requires some { TellsSome (plan_kept ledger.old) ledger.old }
    requires room { totals_kept ledger.old + length (total_on (placed line.now)) ≤ 512 }
    ensures judges { (lines : List Placed) → Tells (plan_kept ledger.old) ledger.old lines → result ≡ first_bad (plan_kept ledger.old) lines (placed line.now) }
    ensures keeps { result ≡ None → (lines : List Placed) → Tells (plan_kept ledger.old) ledger.old lines → Tells (plan_kept ledger.old) ledger.new (lines ++ placed line.now ∷ []) }
{
    match ledger.judge(line) {
        Some(kind) => Some(kind),
        None => {
            ledger.keep(line);
            None
        }
    }
}
