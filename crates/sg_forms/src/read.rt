//! A line of the record, read.
ghost use Rattle.std.specs.Prelude.{◌≡◌, ℕ, IfSome, Some};
ghost use Rattle.std.specs.Option.{option_map, option_copied};
ghost use Rattle.sg_forms.specs.Reading.{text_of, words_in, words_left, form_in, form_of, ballot_form, result_form, plan_form, line_of};
ghost use Rattle.sg_forms.specs.Said.{Said, said, said_commits};
ghost use Rattle.sg_forms.specs.Said.Said.{CodeCommit, Row};
ghost use Rattle.sg_forms.specs.Spelling.{IsInRange, spelling};
ghost use Rattle.sg_forms.specs.Zeros.{HasZeros};

use crate::ballots::{audited, cast, code, dispute, over, paper, spoiled, voided};
use crate::line::{Line, RowCommitLine, RowOpening};
use crate::plan::{ballots, cand, election, instances, race, style, version};
use crate::results::{draw, flags, places, seal, total};
use crate::rows::{both, code_commit, commit, commits, left, right, row_commit, row_line};
use crate::words::{
    Words, behind_both, behind_code_commit, behind_left, behind_right, behind_row_commit, cut,
    is_word,
};
use sg_commit::Digest;
use sg_plan::limits::LONGEST_LINE;

/// What stands before the line feed that ends a line.
fn line_text(bytes: &[u8]) -> Option<&[u8]>
    ensures { option_copied result ≡ text_of bytes.now }
{
    let (last, text) = bytes.split_last()?;
    if *last != b'\n' {
        return None;
    }
    Some(text)
}

/// The lines of the plan.
#[tactic(auto, unfolding(crate::specs::Reading::plan_form))]
fn plan_line<'a>(first: &[u8], words: Words<'a>) -> Option<Line<'a>>
    ensures exact { option_map said result ≡ plan_form first.now words.entry }
    ensures zeros { IfSome result HasZeros }
{
    if is_word(first, b"cand") {
        return cand(words);
    }
    if is_word(first, b"race") {
        return race(words);
    }
    if is_word(first, b"style") {
        return style(words);
    }
    if is_word(first, b"ballots") {
        return ballots(words);
    }
    if is_word(first, b"scantegrity2") {
        return version(words);
    }
    if is_word(first, b"election") {
        return election(words);
    }
    if is_word(first, b"instances") {
        return instances(words);
    }
    None
}

/// The lines of results, seals and the draw, and those of the plan.
#[tactic(auto, unfolding(crate::specs::Reading::result_form))]
fn result_line<'a>(first: &[u8], words: Words<'a>) -> Option<Line<'a>>
    ensures exact { option_map said result ≡ result_form first.now words.entry }
    ensures zeros { IfSome result HasZeros }
{
    if is_word(first, b"flags") {
        return flags(words);
    }
    if is_word(first, b"places") {
        return places(words);
    }
    if is_word(first, b"total") {
        return total(words);
    }
    if is_word(first, b"seal") {
        return seal(words);
    }
    if is_word(first, b"draw") {
        return draw(words);
    }
    plan_line(first, words)
}

/// The lines of ballots, and those above.
#[tactic(auto, unfolding(crate::specs::Reading::ballot_form))]
fn ballot_line<'a>(version: u32, first: &[u8], words: Words<'a>) -> Option<Line<'a>>
    ensures exact { option_map said result ≡ ballot_form version first.now words.entry }
    ensures zeros { IfSome result HasZeros }
{
    if is_word(first, b"code") {
        return code(version, words);
    }
    if is_word(first, b"cast") {
        return cast(words);
    }
    if is_word(first, b"spoiled") {
        return spoiled(words);
    }
    if is_word(first, b"audited") {
        return audited(words);
    }
    if is_word(first, b"voided") {
        return voided(words);
    }
    if is_word(first, b"over") {
        return over(words);
    }
    if is_word(first, b"paper") {
        return paper(version, words);
    }
    if is_word(first, b"dispute") {
        return dispute(version, words);
    }
    result_line(first, words)
}

/// The lines of rows and entries, of which a record has most, and those above.
#[tactic(auto, unfolding(crate::specs::Reading::form_of))]
fn any_line<'a>(version: u32, first: &[u8], words: Words<'a>) -> Option<Line<'a>>
    ensures exact { option_map said result ≡ form_of version first.now words.entry }
    ensures zeros { IfSome result HasZeros }
{
    if is_word(first, b"row-commit") {
        return row_commit(words);
    }
    if is_word(first, b"both") {
        return row_line(both(words));
    }
    if is_word(first, b"left") {
        return row_line(left(words));
    }
    if is_word(first, b"right") {
        return row_line(right(words));
    }
    if is_word(first, b"code-commit") {
        return code_commit(words);
    }
    ballot_line(version, first, words)
}

/// The line that a text says. The longest first words, which most lines have, are told by their width.
#[tactic(auto, unfolding(crate::specs::Reading::form_of))]
fn read_text(version: u32, text: &[u8]) -> Option<Line<'_>>
    ensures exact { option_map said result ≡ form_in version (words_in text.now) }
    ensures zeros { IfSome result HasZeros }
{
    if let Some(words) = behind_row_commit(text) {
        return row_commit(words);
    }
    if let Some(words) = behind_code_commit(text) {
        return code_commit(words);
    }
    let (first, rest) = cut(text);
    any_line(version, first, Words::new(rest))
}

/// What the bytes say as a line.
#[tactic(auto, unfolding(crate::specs::Reading::line_of))]
fn read_bytes(version: u32, bytes: &[u8]) -> Option<Line<'_>>
    ensures exact { option_map said result ≡ line_of version bytes.now }
    ensures zeros { IfSome result HasZeros }
{
    if bytes.len() > LONGEST_LINE {
        return None;
    }
    let text = line_text(bytes)?;
    read_text(version, text)
}

/// Reads a line with its line feed, in a record of the version: `None` where the bytes are the one spelling of no
/// line in range. Takes no memory.
#[tactic(auto, using(crate::proofs::FormLaws::form_laws))]
pub fn read_form(version: u32, bytes: &[u8]) -> Option<Line<'_>>
    ensures exact { option_map said result ≡ line_of version bytes.now }
    ensures found { IfSome result (λ line. IsInRange version (said line) × (bytes.now ≡ spelling version (said line))) }
    ensures only { (s : Said) → IsInRange version s → bytes.now ≡ spelling version s → option_map said result ≡ Some s }
    ensures zeros { IfSome result HasZeros }
{
    read_bytes(version, bytes)
}

/// The commitments of a row that a text says.
#[tactic(auto, using(crate::proofs::FormLaws::commits_first), unfolding(crate::specs::Reading::form_of))]
#[inline(always)]
fn commits_in(text: &[u8]) -> Option<RowCommitLine>
    ensures found { IfSome result (λ line. (version : ℕ) → form_in version (words_in text.now) ≡ Some (said_commits line)) }
    ensures only { (version : ℕ) (line : RowCommitLine) → form_in version (words_in text.now) ≡ Some (said_commits line) → result ≡ Some line }
{
    let words = behind_row_commit(text)?;
    commits(words)
}

/// What a text opens of a row.
#[tactic(auto, unfolding(crate::specs::Reading::form_of))]
#[inline(always)]
fn row_in(text: &[u8]) -> Option<RowOpening>
    ensures found { IfSome result (λ opening. (version : ℕ) → form_in version (words_in text.now) ≡ Some (Row opening)) }
    ensures only { (version : ℕ) (opening : RowOpening) → form_in version (words_in text.now) ≡ Some (Row opening) → result ≡ Some opening }
{
    if let Some(words) = behind_left(text) {
        return left(words);
    }
    if let Some(words) = behind_right(text) {
        return right(words);
    }
    if let Some(words) = behind_both(text) {
        return both(words);
    }
    None
}

/// Reads the line of a row's commitments, in a record of any version, as a value of its own: `None` where the bytes are no
/// such line. `read_form` reads these too. Of the lines of a record most are such ones, and this takes half of its time.
#[tactic(auto, unfolding(crate::specs::Reading::line_of))]
pub fn read_row_commit(bytes: &[u8]) -> Option<RowCommitLine>
    ensures found { IfSome result (λ line. (version : ℕ) → line_of version bytes.now ≡ Some (said_commits line)) }
    ensures only { (version : ℕ) (line : RowCommitLine) → line_of version bytes.now ≡ Some (said_commits line) → result ≡ Some line }
{
    if bytes.len() > LONGEST_LINE {
        return None;
    }
    let text = line_text(bytes)?;
    commits_in(text)
}

/// Reads the line of what is opened of a row, in the same way.
#[tactic(auto, unfolding(crate::specs::Reading::line_of))]
pub fn read_row(bytes: &[u8]) -> Option<RowOpening>
    ensures found { IfSome result (λ opening. (version : ℕ) → line_of version bytes.now ≡ Some (Row opening)) }
    ensures only { (version : ℕ) (opening : RowOpening) → line_of version bytes.now ≡ Some (Row opening) → result ≡ Some opening }
{
    if bytes.len() > LONGEST_LINE {
        return None;
    }
    let text = line_text(bytes)?;
    row_in(text)
}

/// The race and the commitment of a code that a text says.
#[tactic(auto, using(crate::proofs::FormLaws::commit_first), unfolding(crate::specs::Reading::form_of))]
#[inline(always)]
fn commit_in(text: &[u8]) -> Option<(u32, Digest)>
    ensures found { IfSome result (λ line. (version : ℕ) → form_in version (words_in text.now) ≡ Some (CodeCommit line.0 line.1)) }
    ensures only { (version : ℕ) (race : ℕ) (digest : Digest) → form_in version (words_in text.now) ≡ Some (CodeCommit race digest) → result ≡ Some (race, digest) }
{
    let words = behind_code_commit(text)?;
    commit(words)
}

/// Reads the line of a code's commitment, in the same way: its race and the commitment.
#[tactic(auto, unfolding(crate::specs::Reading::line_of))]
pub fn read_code_commit(bytes: &[u8]) -> Option<(u32, Digest)>
    ensures found { IfSome result (λ line. (version : ℕ) → line_of version bytes.now ≡ Some (CodeCommit line.0 line.1)) }
    ensures only { (version : ℕ) (race : ℕ) (digest : Digest) → line_of version bytes.now ≡ Some (CodeCommit race digest) → result ≡ Some (race, digest) }
{
    if bytes.len() > LONGEST_LINE {
        return None;
    }
    let text = line_text(bytes)?;
    commit_in(text)
}
