//! Pieces of a text, each put behind what stands there.
ghost use Rattle.std.specs.Prelude.{◌≡◌, ◌<◌, ◌∷◌, ◌++◌, [], All, map, codes, decimal, OnOk, IfOk, false};
ghost use Rattle.std.specs.List.{concat};
ghost use Rattle.serde_json.specs.Written.{comma_if};
ghost use Rattle.sg_plan.specs.Codes.{codes_of};
ghost use Rattle.sg_lines.specs.Words.{code_word};
ghost use Rattle.sg_asks.specs.inside.Pieces.{ArePieces, IsPiece, joined, list_text, numbers_text, piece_text, seen_text};

use sg_acts::CodeSeen;
use sg_lines::{write_code, write_decimal};
use sg_plan::{Items, NoMemory, Word};
use std::alloc::Global;

/// A piece of a text.
#[derive(Clone, Copy)]
pub(crate) enum Piece<'a> {
    /// Bytes that are put as they are.
    Text(&'a [u8]),
    /// A number.
    Number(u32),
    /// A list of numbers.
    Numbers(&'a Items<u32>),
    /// A list of lists of numbers.
    Lists(&'a Items<Items<u32>>),
    /// A list of posted codes.
    Seen(&'a Items<CodeSeen>),
}

/// The most digits of a number of 32 bits.
const MOST_DIGITS: usize = 10;

/// Puts a number's digits.
#[tactic(auto, using(sg_lines::proofs::Numbers::decimal_facts))]
fn put_decimal(out: &mut Word, value: u32) -> Result<(), NoMemory>
    ensures { OnOk result (out.new ≡ out.old ++ decimal value) }
{
    let mut digits = [0; MOST_DIGITS];
    let count = write_decimal(value, &mut digits);
    out.extend(&digits[..count])
}

/// Puts a code of the version.
fn put_code(out: &mut Word, version: u32, code: u16) -> Result<(), NoMemory>
    requires { code < codes_of version }
    ensures { OnOk result (out.new ≡ out.old ++ code_word version code) }
{
    let mut word = [0; 3];
    write_code(version, code, &mut word);
    out.extend(&word)
}

/// Puts a comma, where an item stands before.
fn put_comma(out: &mut Word, later: bool) -> Result<(), NoMemory>
    ensures { OnOk result (out.new ≡ out.old ++ comma_if later) }
{
    if later {
        out.push(b',')?;
    }
    Ok(())
}

/// Puts numbers, with commas between them.
fn put_joined(out: &mut Word, numbers: &Items<u32>) -> Result<(), NoMemory>
    ensures { OnOk result (out.new ≡ out.old ++ joined false (map decimal numbers.now)) }
{
    for at in 0..numbers.len() {
        put_comma(out, at > 0)?;
        put_decimal(out, *numbers.get(at))?;
    }
    Ok(())
}

/// Puts a list of numbers.
fn put_numbers(out: &mut Word, numbers: &Items<u32>) -> Result<(), NoMemory>
    ensures { OnOk result (out.new ≡ out.old ++ numbers_text numbers.now) }
{
    out.push(b'[')?;
    put_joined(out, numbers)?;
    out.push(b']')
}

/// Puts a posted code.
fn put_seen(out: &mut Word, version: u32, seen: &CodeSeen) -> Result<(), NoMemory>
    requires { seen.now.code < codes_of version }
    ensures { OnOk result (out.new ≡ out.old ++ seen_text version seen.now) }
{
    out.push(b'[')?;
    put_decimal(out, seen.race)?;
    out.extend(b",\"")?;
    put_code(out, version, seen.code)?;
    out.extend(b"\"]")
}

/// Puts posted codes, with commas between them.
fn put_seen_joined(out: &mut Word, version: u32, list: &Items<CodeSeen>) -> Result<(), NoMemory>
    requires { All (λ seen. seen.code < codes_of version) list.now }
    ensures { OnOk result (out.new ≡ out.old ++ joined false (map (seen_text version) list.now)) }
{
    for at in 0..list.len() {
        put_comma(out, at > 0)?;
        put_seen(out, version, list.get(at))?;
    }
    Ok(())
}

/// Puts a list of posted codes.
fn put_codes(out: &mut Word, version: u32, list: &Items<CodeSeen>) -> Result<(), NoMemory>
    requires { All (λ seen. seen.code < codes_of version) list.now }
    ensures { OnOk result (out.new ≡ out.old ++ list_text (map (seen_text version) list.now)) }
{
    out.push(b'[')?;
    put_seen_joined(out, version, list)?;
    out.push(b']')
}

/// Puts lists of numbers, with commas between them.
fn put_lists_joined(out: &mut Word, lists: &Items<Items<u32>>) -> Result<(), NoMemory>
    ensures { OnOk result (out.new ≡ out.old ++ joined false (map numbers_text lists.now)) }
{
    for at in 0..lists.len() {
        put_comma(out, at > 0)?;
        put_numbers(out, lists.get(at))?;
    }
    Ok(())
}

/// Puts a list of lists of numbers.
fn put_lists(out: &mut Word, lists: &Items<Items<u32>>) -> Result<(), NoMemory>
    ensures { OnOk result (out.new ≡ out.old ++ list_text (map numbers_text lists.now)) }
{
    out.push(b'[')?;
    put_lists_joined(out, lists)?;
    out.push(b']')
}

/// Puts a piece.
fn put_piece(out: &mut Word, version: u32, piece: &Piece) -> Result<(), NoMemory>
    requires { IsPiece version piece.now }
    ensures { OnOk result (out.new ≡ out.old ++ piece_text version piece.now) }
{
    match *piece {
        Piece::Text(bytes) => out.extend(bytes),
        Piece::Number(value) => put_decimal(out, value),
        Piece::Numbers(list) => put_numbers(out, list),
        Piece::Lists(lists) => put_lists(out, lists),
        Piece::Seen(list) => put_codes(out, version, list),
    }
}

/// Puts pieces, one behind another.
fn put_pieces(out: &mut Word, version: u32, pieces: &[Piece]) -> Result<(), NoMemory>
    requires { ArePieces version pieces.now }
    ensures { OnOk result (out.new ≡ out.old ++ concat (map (piece_text version) pieces.now)) }
{
    for piece in pieces {
        put_piece(out, version, piece)?;
    }
    Ok(())
}

/// The text of pieces.
pub(crate) fn text_of(alloc: Global, version: u32, pieces: &[Piece]) -> Result<Word, NoMemory>
    requires { ArePieces version pieces.now }
    ensures { IfOk result (λ text. text ≡ concat (map (piece_text version) pieces.now)) }
{
    let mut text = Word::new(alloc);
    put_pieces(&mut text, version, pieces)?;
    Ok(text)
}
