//! A line of the plan, or the first behind it, taken behind lines that are fine.
ghost use Rattle.std.specs.Prelude.{◌≡◌, ℕ, ◌<◌, is_some, List, IfOk, IsSome, OnErr, None, Some};
ghost use Rattle.sg_grammar.specs.Head.{is_behind};
ghost use Rattle.sg_judge.specs.inside.Taking.{Advances, IsNoPlanLine, Stands, StandsSome, next_seal, opened_by, or_seal};
ghost use Rattle.sg_grammar.specs.Left.{lines_left};

use crate::taking::advance;
use sg_check::Kind;
use sg_commit::{Digest, Sealer};
use sg_grammar::{Expect, read_line};
use sg_ledger::Ledger;
use sg_plan::{BallotIndex, NoMemory};
use std::alloc::Global;
use std::mem;

/// Takes the next line, with its line feed, behind fine lines of the plan, and answers what it is bad in.
///
/// The first fine line behind those of the plan opens the ledger, with all memory that later lines want. After
/// `NoMemory` all is as before.
pub(crate) fn advance_header(
    alloc: Global,
    expect: &mut Expect,
    sealer: &mut Sealer,
    ledger: &mut Option<Ledger>,
    seal: &mut Option<Digest>,
    bytes: &[u8],
) -> Result<Option<Kind>, NoMemory>
    requires stands { StandsSome expect.old sealer.old None }
    requires closed { ledger.old ≡ None }
    ensures goes_on { IfOk result (λ broken. (lines : List (List ℕ)) → Stands expect.old sealer.old None lines → Advances broken expect.new sealer.new ledger.new lines bytes.now) }
    ensures seal { IfOk result (λ broken. broken ≡ None → seal.new ≡ or_seal seal.old (next_seal expect.old bytes.now)) }
    ensures opens { IfOk result (λ broken. broken ≡ None → is_some ledger.new ≡ is_behind expect.new.head) }
    ensures bad { IfOk result (λ broken. IsSome broken → ledger.new ≡ None) }
    ensures falls { IfOk result (λ broken. broken ≡ None → lines_left expect.new < lines_left expect.old) }
    ensures err { OnErr result ((expect.new ≡ expect.old) × (sealer.new ≡ sealer.old) × (ledger.new ≡ ledger.old) × (seal.new ≡ seal.old)) }
{
    let Some(line) = read_line(expect, bytes) else {
        return Ok(Some(Kind::Form));
    };
    if expect.is_of_plan(&line) {
        expect.plan_step(&line)?;
        sealer.add(bytes);
        return Ok(None);
    }
    let index = BallotIndex::make(alloc, expect.plan())?;
    advance_behind(alloc, index, expect, sealer, ledger, seal, bytes)
}

/// Takes the first line behind those of the plan, which is indexed: where it is fine, it opens the ledger.
fn advance_behind(
    alloc: Global,
    index: BallotIndex,
    expect: &mut Expect,
    sealer: &mut Sealer,
    ledger: &mut Option<Ledger>,
    seal: &mut Option<Digest>,
    bytes: &[u8],
) -> Result<Option<Kind>, NoMemory>
    requires stands { StandsSome expect.old sealer.old None }
    requires closed { ledger.old ≡ None }
    requires index { index ≡ expect.old.plan }
    requires behind { IsNoPlanLine expect.old bytes.now }
    ensures goes_on { IfOk result (λ broken. (lines : List (List ℕ)) → Stands expect.old sealer.old None lines → Advances broken expect.new sealer.new ledger.new lines bytes.now) }
    ensures seal { IfOk result (λ broken. broken ≡ None → seal.new ≡ or_seal seal.old (next_seal expect.old bytes.now)) }
    ensures opens { IfOk result (λ broken. broken ≡ None → is_some ledger.new ≡ is_behind expect.new.head) }
    ensures bad { IfOk result (λ broken. IsSome broken → ledger.new ≡ None) }
    ensures falls { IfOk result (λ broken. broken ≡ None → lines_left expect.new < lines_left expect.old) }
    ensures err { OnErr result ((expect.new ≡ expect.old) × (sealer.new ≡ sealer.old) × (ledger.new ≡ ledger.old) × (seal.new ≡ seal.old)) }
{
    let mut opened = Ledger::make(alloc, index)?;
    let broken = advance(expect, sealer, &mut opened, seal, bytes);
    keep_opened(ledger, opened, broken);
    Ok(broken)
}

/// Keeps the ledger, where the line that opened it is bad in nothing.
fn keep_opened(ledger: &mut Option<Ledger>, opened: Ledger, broken: Option<Kind>)
    ensures { ledger.new ≡ opened_by broken opened ledger.old }
{
    match broken {
        None => put_opened(ledger, opened),
        Some(_) => drop(opened),
    }
}

/// Puts a ledger in the place of what was kept.
fn put_opened(ledger: &mut Option<Ledger>, opened: Ledger)
    ensures { ledger.new ≡ Some opened }
{
    let before = mem::replace(ledger, Some(opened));
    drop(before);
}
