//! The texts of acts, and of the marks, papers and draws in them.
ghost use Rattle.std.specs.Prelude.{◌≡◌, ◌*◌, ◌<◌, ◌≤◌, ◌∷◌, ◌++◌, [], All, codes, decimal, drop, length, map, IfOk, OnOk};
ghost use Rattle.sg_lines.specs.Words.{code_word, encode_lower};
ghost use Rattle.sg_forms.specs.Spelling.{IsCode, IsNumber};
ghost use Rattle.sg_keeper.specs.Rows.{IsAscii};
ghost use Rattle.sg_acts.specs.declared.asks.Act.TheVariants as act;
ghost use Rattle.sg_desks.specs.ActTexts.{HasCodes, HasNumbers, IsDraw, IsMark, act_text, behind, codes_word, draw_word, mark_word, marks_text, paper_text};

use sg_acts::Act;
use sg_lines::{write_code, write_decimal, write_hex};
use sg_plan::{Draw, Items, Mark, NoMemory, Paper, Word};
use std::alloc::Global;

/// The text of an act: its words, with one space between two of them. The codes in it are spelled by the plan's version.
///
/// Different acts have different texts ([`crate::laws::texts_law`]), so the same act is the same text. A text is ASCII.
/// Only want of memory is refused.
pub fn act_text(alloc: Global, version: u32, act: &Act) -> Result<Word, NoMemory>
    requires codes { HasCodes version act.now }
    ensures text { IfOk result (λ text. text ≡ act_text version act.now) }
    ensures numbers { HasNumbers act.now }
    ensures ascii { IfOk result IsAscii }
{
    know_act(act);
    form_text(alloc, version, act)
}

/// What the types say of an act: its numbers are in their ranges.
fn know_act(act: &Act)
    ensures { HasNumbers act.now }
{
    match act {
        Act::Scan(ballot, marks) => {
            know_number(*ballot);
            know_marks(marks);
        }
        Act::Spoil(ballot) => know_number(*ballot),
        Act::Audit(ballot, _) => know_number(*ballot),
        Act::Close => {}
        Act::Draw(drawn) => know_draw(drawn),
        Act::Claim(ballot, race, _) => {
            know_number(*ballot);
            know_number(*race);
        }
        Act::Void(ballot) => know_number(*ballot),
    }
}

/// Public bytes are bytes.
fn know_draw(drawn: &Draw)
    ensures { IsDraw drawn.now }
{
    match drawn {
        Draw::Full => {}
        Draw::Public(bytes) => know_bytes(bytes.bytes()),
    }
}

/// The number is one of 32 bits.
fn know_number(number: u32)
    ensures { IsNumber number }
{}

/// The numbers of a mark are of 32 bits.
fn know_mark(mark: Mark)
    ensures { IsMark mark }
{}

/// The numbers of each mark are of 32 bits.
fn know_marks(marks: &Items<Mark>)
    ensures { All IsMark marks.now }
{
    for at in 0..marks.len() {
        know_mark(*marks.get(at));
    }
}

/// The numbers are bytes.
fn know_bytes(bytes: &[u8])
    ensures { All (λ byte. byte < 256) bytes.now }
{}

/// The text of an act, by its form.
#[tactic(auto, unfolding(crate::specs::ActTexts::act_text))]
fn form_text(alloc: Global, version: u32, act: &Act) -> Result<Word, NoMemory>
    requires { HasCodes version act.now }
    ensures { IfOk result (λ text. text ≡ act_text version act.now) }
{
    match act {
        Act::Scan(ballot, marks) => scan_text(alloc, *ballot, marks),
        Act::Spoil(ballot) => ballot_text(alloc, b"spoil", *ballot),
        Act::Audit(ballot, paper) => audit_text(alloc, version, *ballot, paper),
        Act::Close => word_text(alloc, b"close"),
        Act::Draw(drawn) => drawing_text(alloc, drawn),
        Act::Claim(ballot, race, code) => claim_text(alloc, version, *ballot, *race, *code),
        Act::Void(ballot) => ballot_text(alloc, b"void", *ballot),
    }
}

/// A word alone.
fn word_text(alloc: Global, word: &[u8]) -> Result<Word, NoMemory>
    ensures { IfOk result (λ text. text ≡ word.now) }
{
    let mut text = Word::new(alloc);
    text.extend(word)?;
    Ok(text)
}

/// A word and a ballot.
fn ballot_text(alloc: Global, word: &[u8], ballot: u32) -> Result<Word, NoMemory>
    ensures { IfOk result (λ text. text ≡ word.now ++ 32 ∷ decimal ballot) }
{
    let mut text = word_text(alloc, word)?;
    put_number(&mut text, ballot)?;
    Ok(text)
}

/// A scan.
#[tactic(auto, using(crate::proofs::Joining::joined_behind), unfolding(crate::specs::ActTexts::act_text))]
fn scan_text(alloc: Global, ballot: u32, marks: &Items<Mark>) -> Result<Word, NoMemory>
    ensures { IfOk result (λ text. text ≡ act_text 1 (act.Scan ballot marks.now)) }
{
    let mut text = ballot_text(alloc, b"scan", ballot)?;
    put_marks(&mut text, marks, 0)?;
    Ok(text)
}

/// A print audit.
#[tactic(auto, using(crate::proofs::Joining::joined_behind), unfolding(crate::specs::ActTexts::act_text))]
fn audit_text(alloc: Global, version: u32, ballot: u32, paper: &Paper) -> Result<Word, NoMemory>
    requires { All (All (IsCode version)) paper.now }
    ensures { IfOk result (λ text. text ≡ act_text version (act.Audit ballot paper.now)) }
{
    let mut text = ballot_text(alloc, b"audit", ballot)?;
    put_lists(&mut text, version, paper, 0)?;
    Ok(text)
}

/// A draw.
#[tactic(auto, unfolding(crate::specs::ActTexts::act_text))]
fn drawing_text(alloc: Global, drawn: &Draw) -> Result<Word, NoMemory>
    ensures { IfOk result (λ text. text ≡ act_text 1 (act.Draw drawn.now)) }
{
    let mut text = word_text(alloc, b"draw ")?;
    put_draw(&mut text, drawn)?;
    Ok(text)
}

/// A claim.
#[tactic(auto, unfolding(crate::specs::ActTexts::act_text))]
fn claim_text(
    alloc: Global,
    version: u32,
    ballot: u32,
    race: u32,
    code: u16,
) -> Result<Word, NoMemory>
    requires { IsCode version code }
    ensures { IfOk result (λ text. text ≡ act_text version (act.Claim ballot race code)) }
{
    let mut text = ballot_text(alloc, b"claim", ballot)?;
    put_number(&mut text, race)?;
    text.push(b' ')?;
    put_code(&mut text, version, code)?;
    Ok(text)
}

/// Puts a number's digits.
#[tactic(auto, using(sg_lines::proofs::Numbers::decimal_facts))]
fn put_decimal(out: &mut Word, value: u32) -> Result<(), NoMemory>
    ensures { OnOk result (out.new ≡ out.old ++ decimal value) }
{
    let mut digits = [0; 10];
    let count = write_decimal(value, &mut digits);
    out.extend(&digits[..count])?;
    Ok(())
}

/// Puts a number behind a space.
fn put_number(out: &mut Word, value: u32) -> Result<(), NoMemory>
    ensures { OnOk result (out.new ≡ out.old ++ 32 ∷ decimal value) }
{
    out.push(b' ')?;
    put_decimal(out, value)?;
    Ok(())
}

/// Puts a mark.
fn put_mark_word(out: &mut Word, mark: Mark) -> Result<(), NoMemory>
    ensures { OnOk result (out.new ≡ out.old ++ mark_word mark) }
{
    put_decimal(out, mark.race)?;
    out.push(b':')?;
    put_decimal(out, mark.candidate)?;
    Ok(())
}

/// Puts a mark behind a space.
fn put_mark(out: &mut Word, mark: Mark) -> Result<(), NoMemory>
    ensures { OnOk result (out.new ≡ out.old ++ 32 ∷ mark_word mark) }
{
    out.push(b' ')?;
    put_mark_word(out, mark)?;
    Ok(())
}

/// Puts the marks from a place on, each behind a space.
fn put_marks(out: &mut Word, marks: &Items<Mark>, first: usize) -> Result<(), NoMemory>
    requires { first ≤ length marks.now }
    ensures { OnOk result (out.new ≡ out.old ++ behind 32 (map mark_word (drop first marks.now))) }
{
    for at in first..marks.len() {
        put_mark(out, *marks.get(at))?;
    }
    Ok(())
}

/// Marks, each but the first behind a space.
fn join_marks(alloc: Global, marks: &Items<Mark>) -> Result<Word, NoMemory>
    ensures { IfOk result (λ text. text ≡ marks_text marks.now) }
{
    let mut text = Word::new(alloc);
    if marks.len() == 0 {
        return Ok(text);
    }
    put_mark_word(&mut text, *marks.get(0))?;
    put_marks(&mut text, marks, 1)?;
    Ok(text)
}

/// The text of marks: of each its race, a colon and its candidate, and a space between two marks. A scan's text has it
/// behind its ballot and a space, if there is a mark.
///
/// Only want of memory is refused.
pub fn marks_text(alloc: Global, marks: &Items<Mark>) -> Result<Word, NoMemory>
    ensures text { IfOk result (λ text. text ≡ marks_text marks.now) }
    ensures ascii { IfOk result IsAscii }
{
    know_marks(marks);
    join_marks(alloc, marks)
}

/// Puts a code.
#[tactic(auto, using(crate::proofs::Joining::version_of_code))]
fn put_code(out: &mut Word, version: u32, code: u16) -> Result<(), NoMemory>
    requires { IsCode version code }
    ensures { OnOk result (out.new ≡ out.old ++ code_word version code) }
{
    let mut signs = [0; 3];
    write_code(version, code, &mut signs);
    out.extend(&signs)?;
    Ok(())
}

/// Puts the codes of a list behind the first one, each behind a comma.
fn put_later_codes(out: &mut Word, version: u32, list: &Items<u16>) -> Result<(), NoMemory>
    requires { All (IsCode version) list.now }
    ensures { OnOk result (out.new ≡ out.old ++ behind 44 (map (code_word version) (drop 1 list.now))) }
{
    for at in 1..list.len() {
        out.push(b',')?;
        put_code(out, version, *list.get(at))?;
    }
    Ok(())
}

/// Puts a list of codes.
#[tactic(auto, using(crate::proofs::Joining::joined_behind))]
fn put_list(out: &mut Word, version: u32, list: &Items<u16>) -> Result<(), NoMemory>
    requires { All (IsCode version) list.now }
    ensures { OnOk result (out.new ≡ out.old ++ codes_word version list.now) }
{
    if list.len() == 0 {
        return Ok(());
    }
    put_code(out, version, *list.get(0))?;
    put_later_codes(out, version, list)?;
    Ok(())
}

/// Puts the lists of codes from a place on, each behind a space.
fn put_lists(out: &mut Word, version: u32, paper: &Paper, first: usize) -> Result<(), NoMemory>
    requires place { first ≤ length paper.now }
    requires codes { All (All (IsCode version)) paper.now }
    ensures { OnOk result (out.new ≡ out.old ++ behind 32 (map (codes_word version) (drop first paper.now))) }
{
    for at in first..paper.len() {
        out.push(b' ')?;
        put_list(out, version, paper.get(at))?;
    }
    Ok(())
}

/// Lists of codes, each but the first behind a space.
fn join_lists(alloc: Global, version: u32, paper: &Paper) -> Result<Word, NoMemory>
    requires { All (All (IsCode version)) paper.now }
    ensures { IfOk result (λ text. text ≡ paper_text version paper.now) }
{
    let mut text = Word::new(alloc);
    if paper.len() == 0 {
        return Ok(text);
    }
    put_list(&mut text, version, paper.get(0))?;
    put_lists(&mut text, version, paper, 1)?;
    Ok(text)
}

/// The text of a paper: its lists with a space between two of them, and in each list the codes, as the plan's version
/// spells them, with a comma between two of them. An audit's text has it behind its ballot and a space, if the paper has
/// a list.
///
/// Only want of memory is refused.
pub fn paper_text(alloc: Global, version: u32, paper: &Paper) -> Result<Word, NoMemory>
    requires codes { All (All (IsCode version)) paper.now }
    ensures text { IfOk result (λ text. text ≡ paper_text version paper.now) }
    ensures ascii { IfOk result IsAscii }
{
    join_lists(alloc, version, paper)
}

/// Puts how the sides are drawn.
fn put_draw(out: &mut Word, drawn: &Draw) -> Result<(), NoMemory>
    ensures { OnOk result (out.new ≡ out.old ++ draw_word drawn.now) }
{
    match drawn {
        Draw::Full => out.extend(b"full"),
        Draw::Public(bytes) => put_hex(out, bytes),
    }
}

/// How the sides are drawn, alone.
fn drawn_text(alloc: Global, drawn: &Draw) -> Result<Word, NoMemory>
    ensures { IfOk result (λ text. text ≡ draw_word drawn.now) }
{
    let mut text = Word::new(alloc);
    put_draw(&mut text, drawn)?;
    Ok(text)
}

/// The text of how the sides are drawn: `full`, or the public bytes in lower-case hexadecimal digits, two for each byte.
/// A draw's text has it behind `draw` and a space.
///
/// Only want of memory is refused.
pub fn draw_text(alloc: Global, drawn: &Draw) -> Result<Word, NoMemory>
    ensures text { IfOk result (λ text. text ≡ draw_word drawn.now) }
    ensures ascii { IfOk result IsAscii }
{
    know_draw(drawn);
    drawn_text(alloc, drawn)
}

/// Puts a byte's two hexadecimal digits.
#[tactic(auto, using(sg_lines::proofs::Hex::hex_facts))]
fn put_byte(out: &mut Word, byte: u8) -> Result<(), NoMemory>
    ensures { OnOk result (out.new ≡ out.old ++ encode_lower (byte ∷ [])) }
{
    let mut digits = [0; 2];
    write_hex(&[byte], &mut digits);
    out.extend(&digits)?;
    Ok(())
}

/// Puts bytes in hexadecimal digits.
#[tactic(auto, using(crate::proofs::Joining::hex_facts))]
fn put_hex(out: &mut Word, bytes: &Word) -> Result<(), NoMemory>
    ensures { OnOk result (out.new ≡ out.old ++ encode_lower bytes.now) }
{
    for at in 0..bytes.len() {
        put_byte(out, *bytes.get(at))?;
    }
    Ok(())
}
