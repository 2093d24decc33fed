//! The texts of the acts that rows tell.
ghost use Rattle.std.specs.Prelude.{◌≡◌, ◌++◌, ◌∷◌, [], codes, decimal, if◌then◌else◌, ◌==◌, length, IfOk, OnOk};
ghost use Rattle.std.specs.List.{join_with_byte};
ghost use Rattle.std.specs.Option.{option_map};
ghost use Rattle.sg_histories.specs.ValidRows.{ballot_words};
ghost use Rattle.sg_open.specs.inside.Telling.{draw_line};

use sg_keeper::BallotRow;
use sg_lines::write_decimal;
use sg_plan::{NoMemory, Word};
use std::alloc::Global;

/// Puts a number's digits.
#[tactic(auto, using(sg_lines::proofs::Numbers::decimal_facts))]
fn put_decimal(out: &mut Word, value: u32) -> Result<(), NoMemory>
    ensures { OnOk result (out.new ≡ out.old ++ decimal value) }
{
    let mut digits = [0; 10];
    let count = write_decimal(value, &mut digits);
    out.extend(&digits[..count])?;
    Ok(())
}

/// A word and a ballot.
fn ballot_line(alloc: Global, word: &[u8], ballot: u32) -> Result<Word, NoMemory>
    ensures { IfOk result (λ text. text ≡ word.now ++ 32 ∷ decimal ballot) }
{
    let mut text = Word::new(alloc);
    text.extend(word)?;
    text.push(b' ')?;
    put_decimal(&mut text, ballot)?;
    Ok(text)
}

/// A word, a ballot and a detail.
fn detail_line(alloc: Global, word: &[u8], ballot: u32, detail: &Word) -> Result<Word, NoMemory>
    ensures { IfOk result (λ text. text ≡ word.now ++ 32 ∷ (decimal ballot ++ 32 ∷ detail.now)) }
{
    let mut text = ballot_line(alloc, word, ballot)?;
    text.push(b' ')?;
    text.extend(detail.bytes())?;
    Ok(text)
}

/// The text of a scan: without a detail it ends behind the ballot.
fn scan_line(alloc: Global, ballot: u32, detail: &Word) -> Result<Word, NoMemory>
    ensures { IfOk result (λ text. text ≡ join_with_byte 32 (codes "scan" ∷ decimal ballot ∷ (if length detail.now == 0 then [] else detail.now ∷ []))) }
{
    if detail.len() == 0 {
        return ballot_line(alloc, b"scan", ballot);
    }
    detail_line(alloc, b"scan", ballot, detail)
}

/// The text of the act that a row tells of this ballot, and nothing where it tells none.
pub fn ballot_text(alloc: Global, ballot: u32, row: &BallotRow) -> Result<Option<Word>, NoMemory>
    ensures { IfOk result (λ found. found ≡ option_map (join_with_byte 32) (ballot_words row.now.fate ballot row.now.detail)) }
{
    if row.fate == 1 {
        return Ok(Some(scan_line(alloc, ballot, &row.detail)?));
    }
    if row.fate == 2 {
        if row.detail.len() != 0 {
            return Ok(None);
        }
        return Ok(Some(ballot_line(alloc, b"spoil", ballot)?));
    }
    if row.fate == 3 {
        return Ok(Some(detail_line(alloc, b"audit", ballot, &row.detail)?));
    }
    Ok(None)
}

/// The text of a close.
pub fn close_text(alloc: Global) -> Result<Word, NoMemory>
    ensures { IfOk result (λ text. text ≡ codes "close") }
{
    let mut text = Word::new(alloc);
    text.extend(b"close")?;
    Ok(text)
}

/// The text of a draw.
pub fn draw_text(alloc: Global, detail: &Word) -> Result<Word, NoMemory>
    ensures { IfOk result (λ text. text ≡ draw_line detail.now) }
{
    let mut text = Word::new(alloc);
    text.extend(b"draw ")?;
    text.extend(detail.bytes())?;
    Ok(text)
}
