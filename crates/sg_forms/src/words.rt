//! The words of a line, read one after another.
ghost use Rattle.std.specs.Prelude.{◌≡◌, ◌<◌, ◌∷◌, [], IfSome, IsSome, IsSomeAnd, MatchOption, None, Some, bytes_eq, codes, false, length, slice_index, take, true};
ghost use Rattle.std.specs.Option.{option_map, option_copied};
ghost use Rattle.sg_lines.specs.Words.{HasNoSpace, decimal_of, key_of, digest_of, code_of};
ghost use Rattle.sg_forms.specs.Reading.{words_in, words_left, name_of, bits_of, first_by, whole};
ghost use Rattle.sg_forms.specs.Said.{Said, said};
ghost use Rattle.sg_forms.specs.inside.Cutting.{first_in};
ghost use Rattle.sg_forms.specs.Zeros.{HasZeros};

use crate::kinds::{read_bits, read_name};
use crate::line::Line;
use sg_commit::{Digest, Key};
use sg_lines::{read_code, read_decimal, read_digest, read_key};
use std::marker::Model;

/// Where the first space of a text stands. Words are mostly short, and then a loop takes less time than `memchr`.
fn space_in(text: &[u8]) -> Option<usize>
    ensures { MatchOption result (HasNoSpace text.now) (λ at.
        (at < length text.now) × (slice_index text.now at ≡ 32) × HasNoSpace (take at text.now)) }
{
    for at in 0..text.len() {
        if text[at] == b' ' {
            return Some(at);
        }
    }
    None
}

/// The first word of a text, and what stands behind the space after it.
#[tactic(auto, using(crate::proofs::Cutting::cut_at_width, crate::proofs::Cutting::cut_whole))]
pub(crate) fn cut(text: &[u8]) -> (&[u8], Option<&[u8]>)
    ensures { words_in text.now ≡ result.0.now ∷ words_left (option_copied result.1) }
{
    match space_in(text) {
        Some(at) => (&text[..at], Some(&text[at + 1..])),
        None => (text, None),
    }
}

/// The first so many bytes of a text, and what stands behind the space after them, where there is a space, or nothing
/// behind them.
#[tactic(auto, using(crate::proofs::Cutting::cut_at_width, crate::proofs::Cutting::cut_whole, crate::proofs::Cutting::first_words))]
#[inline(always)]
fn cut_at(text: &[u8], width: usize) -> Option<(&[u8], Option<&[u8]>)>
    ensures found { IfSome result (λ cut. HasNoSpace cut.0.now → words_in text.now ≡ cut.0.now ∷ words_left (option_copied cut.1)) }
    ensures only { length (first_in text.now) ≡ width → IsSomeAnd result (λ cut. cut.0.now ≡ first_in text.now) }
{
    if text.len() == width {
        return Some((text, None));
    }
    if text.len() < width {
        return None;
    }
    if text[width] != b' ' {
        return None;
    }
    Some((&text[..width], Some(&text[width + 1..])))
}

/// The key that a text begins with, and what stands behind the space after it, where the first word is a key. No byte of
/// it is looked at twice.
#[tactic(auto, using(crate::proofs::Cutting::spelled))]
#[inline(always)]
fn cut_key(text: &[u8]) -> Option<(Key, Option<&[u8]>)>
    ensures { IfSome result (λ found. first_by key_of (words_in text.now) ≡ Some (found.0.0, words_left (option_copied found.1))) }
{
    let (word, rest) = cut_at(text, 32)?;
    let bytes = read_key(word)?;
    Some((Key(bytes), rest))
}

/// The digest that a text begins with, and what stands behind the space after it, where the first word is a digest. No
/// byte of it is looked at twice.
#[tactic(auto, using(crate::proofs::Cutting::spelled))]
#[inline(always)]
fn cut_digest(text: &[u8]) -> Option<(Digest, Option<&[u8]>)>
    ensures { IfSome result (λ found. first_by digest_of (words_in text.now) ≡ Some (found.0.0, words_left (option_copied found.1))) }
{
    let (word, rest) = cut_at(text, 64)?;
    let bytes = read_digest(word)?;
    Some((Digest(bytes), rest))
}

/// The number of one digit that a text begins with, and what stands behind the space after it, where the first word is such
/// a number.
#[tactic(auto, using(crate::proofs::Cutting::counted))]
#[inline(always)]
fn cut_digit(text: &[u8]) -> Option<(u32, Option<&[u8]>)>
    ensures { IfSome result (λ found. first_by decimal_of (words_in text.now) ≡ Some (found.0, words_left (option_copied found.1))) }
{
    let (word, rest) = cut_at(text, 1)?;
    let number = read_decimal(word)?;
    Some((number, rest))
}

/// The two words are the same.
pub(crate) fn is_word(word: &[u8], other: &[u8]) -> bool
    ensures { result ≡ bytes_eq word.now other.now }
{
    word == other
}

/// The end of the longest first words. Each byte is compared by itself: that takes less time than a loop over so few.
fn ends_commit(word: &[u8]) -> bool
    ensures found { result ≡ true → word.now ≡ codes "ommit" }
    ensures only { word.now ≡ codes "ommit" → result ≡ true }
{
    matches!(word, b"ommit")
}

/// The word begins as `row-commit` does.
fn begins_row_commit(word: &[u8]) -> bool
    ensures found { result ≡ true → word.now ≡ codes "row-c" }
    ensures only { word.now ≡ codes "row-c" → result ≡ true }
{
    matches!(word, b"row-c")
}

/// The word is `row-commit`.
#[tactic(auto, using(crate::proofs::Cutting::row_commit_joined))]
#[inline(always)]
fn is_row_commit(word: &[u8]) -> bool
    ensures found { result ≡ true → word.now ≡ codes "row-commit" }
    ensures only { word.now ≡ codes "row-commit" → result ≡ true }
{
    if word.len() != 10 {
        return false;
    }
    if !begins_row_commit(&word[..5]) {
        return false;
    }
    ends_commit(&word[5..])
}

/// The words behind `row-commit`, where that is a text's first word.
#[tactic(auto, using(crate::proofs::Cutting::long_words))]
pub(crate) fn behind_row_commit(text: &[u8]) -> Option<Words<'_>>
    ensures found { IfSome result (λ words. words_in text.now ≡ codes "row-commit" ∷ words) }
    ensures only { first_in text.now ≡ codes "row-commit" → IsSome result }
{
    let (first, rest) = cut_at(text, 10)?;
    if is_row_commit(first) {
        Some(Words::new(rest))
    } else {
        None
    }
}

/// The word begins as `code-commit` does.
fn begins_code_commit(word: &[u8]) -> bool
    ensures found { result ≡ true → word.now ≡ codes "code-c" }
    ensures only { word.now ≡ codes "code-c" → result ≡ true }
{
    matches!(word, b"code-c")
}

/// The word is `code-commit`.
#[tactic(auto, using(crate::proofs::Cutting::code_commit_joined))]
#[inline(always)]
fn is_code_commit(word: &[u8]) -> bool
    ensures found { result ≡ true → word.now ≡ codes "code-commit" }
    ensures only { word.now ≡ codes "code-commit" → result ≡ true }
{
    if word.len() != 11 {
        return false;
    }
    if !begins_code_commit(&word[..6]) {
        return false;
    }
    ends_commit(&word[6..])
}

/// The words behind `code-commit`, where that is a text's first word.
#[tactic(auto, using(crate::proofs::Cutting::long_words))]
pub(crate) fn behind_code_commit(text: &[u8]) -> Option<Words<'_>>
    ensures found { IfSome result (λ words. words_in text.now ≡ codes "code-commit" ∷ words) }
    ensures only { first_in text.now ≡ codes "code-commit" → IsSome result }
{
    let (first, rest) = cut_at(text, 11)?;
    if is_code_commit(first) {
        Some(Words::new(rest))
    } else {
        None
    }
}

/// The words behind `left`, where that is a text's first word.
#[tactic(auto, using(crate::proofs::Cutting::long_words))]
pub(crate) fn behind_left(text: &[u8]) -> Option<Words<'_>>
    ensures found { IfSome result (λ words. words_in text.now ≡ codes "left" ∷ words) }
    ensures only { first_in text.now ≡ codes "left" → IsSome result }
{
    let (first, rest) = cut_at(text, 4)?;
    match first {
        b"left" => Some(Words::new(rest)),
        _ => None,
    }
}

/// The words behind `right`, where that is a text's first word.
#[tactic(auto, using(crate::proofs::Cutting::long_words))]
pub(crate) fn behind_right(text: &[u8]) -> Option<Words<'_>>
    ensures found { IfSome result (λ words. words_in text.now ≡ codes "right" ∷ words) }
    ensures only { first_in text.now ≡ codes "right" → IsSome result }
{
    let (first, rest) = cut_at(text, 5)?;
    match first {
        b"right" => Some(Words::new(rest)),
        _ => None,
    }
}

/// The words behind `both`, where that is a text's first word.
#[tactic(auto, using(crate::proofs::Cutting::long_words))]
pub(crate) fn behind_both(text: &[u8]) -> Option<Words<'_>>
    ensures found { IfSome result (λ words. words_in text.now ≡ codes "both" ∷ words) }
    ensures only { first_in text.now ≡ codes "both" → IsSome result }
{
    let (first, rest) = cut_at(text, 4)?;
    match first {
        b"both" => Some(Words::new(rest)),
        _ => None,
    }
}

/// The words of a line that are still to be read.
#[derive(Drop)]
pub(crate) struct Words<'a> {
    rest: Option<&'a [u8]>,
}

impl<'a> Model for Words<'a> {
    ghost use Rattle.std.specs.Prelude.{List, ℕ};
    ghost use Rattle.std.specs.Option.{option_copied};
    ghost use Rattle.sg_forms.specs.Reading.{words_left};

    ghost Value = { List (List ℕ) };

    ghost view = { λ w. words_left (option_copied w.rest) };
}

impl<'a> Words<'a> {
    /// The words behind a space, where there is one.
    pub(crate) fn new(rest: Option<&'a [u8]>) -> Words<'a>
        ensures { result ≡ words_left (option_copied rest.entry) }
    {
        Words { rest }
    }

    /// Takes the next word.
    pub(crate) fn word(&mut self) -> Option<&'a [u8]>
        ensures { MatchOption result (self.old ≡ []) (λ w. self.old ≡ w.now ∷ self.new) }
    {
        let text = self.rest?;
        let (word, rest) = cut(text);
        self.rest = rest;
        Some(word)
    }

    /// Takes a number.
    #[inline(always)]
    pub(crate) fn number(&mut self) -> Option<u32>
        ensures { option_map (λ number. (number, self.new)) result ≡ first_by decimal_of self.old }
    {
        let text = self.rest?;
        if let Some((number, rest)) = cut_digit(text) {
            self.rest = rest;
            return Some(number);
        }
        let word = self.word()?;
        read_decimal(word)
    }

    /// Takes a key.
    #[inline(always)]
    pub(crate) fn key(&mut self) -> Option<Key>
        ensures { option_map (λ key. (key.0, self.new)) result ≡ first_by key_of self.old }
    {
        let text = self.rest?;
        if let Some((key, rest)) = cut_key(text) {
            self.rest = rest;
            return Some(key);
        }
        let word = self.word()?;
        let bytes = read_key(word)?;
        Some(Key(bytes))
    }

    /// Takes a digest.
    #[inline(always)]
    pub(crate) fn digest(&mut self) -> Option<Digest>
        ensures { option_map (λ digest. (digest.0, self.new)) result ≡ first_by digest_of self.old }
    {
        let text = self.rest?;
        if let Some((digest, rest)) = cut_digest(text) {
            self.rest = rest;
            return Some(digest);
        }
        let word = self.word()?;
        let bytes = read_digest(word)?;
        Some(Digest(bytes))
    }

    /// Takes a code in the spelling of a version.
    pub(crate) fn code(&mut self, version: u32) -> Option<u16>
        ensures { option_map (λ code. (code, self.new)) result ≡ first_by (code_of version) self.old }
    {
        let word = self.word()?;
        read_code(version, word)
    }

    /// Takes a name.
    pub(crate) fn name(&mut self) -> Option<&'a [u8]>
        ensures { option_map (λ name. (name.now, self.new)) result ≡ first_by name_of self.old }
    {
        let word = self.word()?;
        read_name(word)
    }

    /// Takes 1 to 64 bits.
    pub(crate) fn bits(&mut self) -> Option<&'a [u8]>
        ensures { option_map (λ bits. (bits.now, self.new)) result ≡ first_by bits_of self.old }
    {
        let word = self.word()?;
        read_bits(word)
    }

    /// A word is left.
    #[tactic(auto, using(crate::proofs::Cutting::not_whole))]
    pub(crate) fn are_left(&self) -> bool
        ensures some { result ≡ true → (line : Said) → whole line self.now ≡ None }
        ensures none { result ≡ false → (line : Said) → whole line self.now ≡ Some line }
    {
        self.rest.is_some()
    }

    /// The line, where no word is left.
    #[tactic(auto, using(crate::proofs::Cutting::not_whole))]
    pub(crate) fn whole(&self, line: Line<'a>) -> Option<Line<'a>>
        ensures exact { option_map said result ≡ whole (said line.entry) self.now }
        ensures zeros { HasZeros line.entry → IfSome result HasZeros }
    {
        match self.rest {
            Some(_) => None,
            None => Some(line),
        }
    }
}
