//! A setup, read from its text.
ghost use Rattle.std.specs.Prelude.{◌≡◌, ◌∷◌, [], ◌≤◌, ◌++◌, ◌≢◌, ℕ, List, drop, length, false, if◌then◌else◌, IfOk, MatchOption, Some, None};
ghost use Rattle.sg_plan.specs.Limits.{most_stations};
ghost use Rattle.sg_outside.specs.TextLines.{lines_of};
ghost use Rattle.sg_lines.specs.Words.{encode_lower};
ghost use Rattle.sg_forms.specs.Reading.{all_by, is_few};
ghost use Rattle.sg_forms.specs.Spelling.{AreBytes};
ghost use Rattle.sg_grammar.specs.Walk.{Next};
ghost use Rattle.sg_keeper.specs.inside.PlanLines.{making_of};
ghost use Rattle.sg_keeper.specs.inside.SetupReading.{behind_plan, no_line, read_plan, secret_of, seed_of, setup_in, with_line};
ghost use Rattle.sg_keeper.specs.SetupText.{secret_line, seed_line};

use crate::setup::Setup;
use sg_grammar::{Expect, read_line};
use sg_lines::{read_digest, read_key};
use sg_outside::line_end;
use sg_plan::limits::MOST_STATIONS;
use sg_plan::{Items, NoMemory, Plan};
use sg_streams::Seed;
use std::alloc::Global;

/// The setup of this text.
pub(crate) fn read_setup(alloc: Global, text: &[u8]) -> Result<Option<Setup>, NoMemory>
    ensures { IfOk result (λ found. found ≡ setup_in text.now) }
{
    let read = read_head(alloc, text)?;
    if !read.expect.has_plan() {
        return Ok(None);
    }
    read_behind(alloc, read.expect.into_plan(), text, read.end)
}

/// The lines of a plan at the head of a text: what may stand behind them, and where they end.
#[derive(Debug, Drop)]
struct HeadRead {
    expect: Expect,
    end: usize,
}

/// Takes the line of these bytes, where it is one of the plan's and may stand next, and answers whether it is.
fn take_line(expect: &mut Expect, bytes: &[u8]) -> Result<bool, NoMemory>
    ensures line { IfOk result (λ taken. with_line (making_of expect.old) bytes.now ≡ (if taken then Some (making_of expect.new) else None)) }
    ensures same { IfOk result (λ taken. taken ≡ false → expect.new ≡ expect.old) }
{
    let Some(line) = read_line(expect, bytes) else {
        return Ok(false);
    };
    if !expect.is_of_plan(&line) {
        return Ok(false);
    }
    expect.plan_step(&line)?;
    Ok(true)
}

/// Takes the lines of a plan, as long as they may stand.
fn read_head(alloc: Global, text: &[u8]) -> Result<HeadRead, NoMemory>
    ensures { IfOk result (λ read. read_plan no_line (lines_of text.now) ≡ record { so_far = making_of read.expect; left = lines_of (drop read.end text.now) }) }
{
    let mut expect = Expect::start(alloc);
    let mut end = 0;
    while end < text.len() {
        let next = line_end(text, end);
        if !take_line(&mut expect, &text[end..next])? {
            return Ok(HeadRead { expect, end });
        }
        end = next;
    }
    Ok(HeadRead { expect, end })
}

/// The seed of a line.
fn read_seed(line: &[u8]) -> Option<[u8; 32]>
    ensures { result ≡ seed_of line.now }
{
    match digits_in(line, b"seed ") {
        Some(digits) => read_digest(digits),
        None => None,
    }
}

/// The secret of a line.
fn read_secret(line: &[u8]) -> Option<[u8; 16]>
    ensures { result ≡ secret_of line.now }
{
    match digits_in(line, b"secret ") {
        Some(digits) => read_key(digits),
        None => None,
    }
}

/// What stands in a line between this word and the line feed.
fn digits_in<'a>(line: &'a [u8], word: &[u8]) -> Option<&'a [u8]>
    ensures { MatchOption result ((digits : List ℕ) → line.now ≢ word.now ++ (digits ++ 10 ∷ [])) (λ digits. line.now ≡ word.now ++ (digits.now ++ 10 ∷ [])) }
{
    match behind_word(line, word) {
        Some(rest) => before_feed(rest),
        None => None,
    }
}

/// What stands behind this word.
fn behind_word<'a>(line: &'a [u8], word: &[u8]) -> Option<&'a [u8]>
    ensures { MatchOption result ((rest : List ℕ) → line.now ≢ word.now ++ rest) (λ rest. line.now ≡ word.now ++ rest.now) }
{
    line.strip_prefix(word)
}

/// What stands before the line feed at the end.
fn before_feed(text: &[u8]) -> Option<&[u8]>
    ensures { MatchOption result ((front : List ℕ) → text.now ≢ front ++ 10 ∷ []) (λ front. text.now ≡ front.now ++ 10 ∷ []) }
{
    text.strip_suffix(b"\n".as_slice())
}

/// The secrets of the lines from a place on.
fn read_secrets(
    alloc: Global,
    text: &[u8],
    start: usize,
) -> Result<Option<Items<[u8; 16]>>, NoMemory>
    ensures { IfOk result (λ found. found ≡ all_by secret_of (lines_of (drop start text.now))) }
{
    let mut secrets = Items::new(alloc);
    let mut at = start;
    while at < text.len() {
        let end = line_end(text, at);
        let Some(secret) = read_secret(&text[at..end]) else {
            return Ok(None);
        };
        secrets.push(secret)?;
        at = end;
    }
    Ok(Some(secrets))
}

/// There are 1 to 32 secrets.
fn are_few(secrets: &Items<[u8; 16]>) -> bool
    ensures { result ≡ is_few most_stations secrets.now }
{
    (1..=MOST_STATIONS).contains(&secrets.len())
}

/// The setup of a plan, and of the lines from a place on.
fn read_behind(
    alloc: Global,
    plan: Plan,
    text: &[u8],
    start: usize,
) -> Result<Option<Setup>, NoMemory>
    ensures { IfOk result (λ found. found ≡ behind_plan plan (lines_of (drop start text.now))) }
{
    if start >= text.len() {
        return Ok(None);
    }
    let end = line_end(text, start);
    let Some(seed) = read_seed(&text[start..end]) else {
        return Ok(None);
    };
    let Some(secrets) = read_secrets(alloc, text, end)? else {
        return Ok(None);
    };
    if !are_few(&secrets) {
        return Ok(None);
    }
    Ok(Some(Setup {
        plan,
        seed: Seed(seed),
        secrets,
    }))
}
