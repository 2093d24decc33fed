//! Counts of texts.
ghost use Rattle.std.specs.Prelude.{◌≡◌, ℕ, ◌+◌, ◌-◌, ◌<◌, ◌^◌, if◌then◌else◌, nat_lt, List, length, true, false, IfOk, OnOk};
ghost use Rattle.std.specs.List.{list_all};
ghost use Rattle.std.specs.Str.{bytes_eq, is_utf8};
ghost use Rattle.sg_histories.specs.ValidRows.{count_told};
ghost use Rattle.sg_open.specs.inside.Counts.{all_used as used, left_of};

use sg_plan::{Items, NoMemory, Word};
use std::alloc::Global;
use std::collections::BTreeMap;
use std::str;

/// What is counted of a text.
pub fn left_of(counts: &BTreeMap<String, usize>, text: &str) -> usize
    ensures { result ≡ left_of counts.now text.now }
{
    counts.get(text).copied().unwrap_or(0)
}

/// Counts a text once more.
pub fn count(
    counts: &mut BTreeMap<String, usize>,
    alloc: Global,
    text: &str,
) -> Result<(), NoMemory>
    requires { left_of counts.old text.now + 1 < 2 ^ 64 }
    ensures { OnOk result ((other : List ℕ) → left_of counts.new other ≡ left_of counts.old other + (if bytes_eq text.now other then 1 else 0)) }
{
    let next = left_of(counts, text) + 1;
    let key = String::from_str(alloc, text)?;
    counts.insert(key, next)?;
    Ok(())
}

/// The text of a word.
#[tactic(auto, using(crate::proofs::Counting::is_text))]
pub fn text_in(word: &Word) -> &str
    requires { is_utf8 word.now ≡ true }
    ensures { result.now ≡ word.now }
{
    match str::from_utf8(word.bytes()) {
        Ok(text) => text,
        Err(_) => unreachable!(),
    }
}

/// Counts a text once less, where it is counted.
pub fn use_up(counts: &mut BTreeMap<String, usize>, text: &str) -> bool
    ensures some { result ≡ nat_lt 0 (left_of counts.old text.now) }
    ensures one { result ≡ true → (other : List ℕ) → left_of counts.old other ≡ left_of counts.new other + (if bytes_eq text.now other then 1 else 0) }
{
    match counts.get_mut(text) {
        None => false,
        Some(left) => {
            if *left == 0 {
                return false;
            }
            *left -= 1;
            true
        }
    }
}

/// Counts the text of a word once less, where it is counted.
#[tactic(auto, using(crate::proofs::Counting::no_text))]
pub fn use_word(counts: &mut BTreeMap<String, usize>, word: &Word) -> bool
    requires { is_utf8 word.now ≡ false → left_of counts.old word.now ≡ 0 }
    ensures some { result ≡ nat_lt 0 (left_of counts.old word.now) }
    ensures one { result ≡ true → (other : List ℕ) → left_of counts.old other ≡ left_of counts.new other + (if bytes_eq word.now other then 1 else 0) }
{
    match str::from_utf8(word.bytes()) {
        Ok(text) => use_up(counts, text),
        Err(_) => false,
    }
}

/// Counts each text.
#[tactic(auto, using(crate::proofs::Counting::counting))]
pub fn count_all(alloc: Global, told: &Items<Word>) -> Result<BTreeMap<String, usize>, NoMemory>
    requires utf8 { list_all is_utf8 told.now ≡ true }
    ensures { IfOk result (λ counts. (text : List ℕ) → left_of counts text ≡ count_told text told.now) }
{
    let mut counts = BTreeMap::new(alloc);
    for at in 0..told.len() {
        count(&mut counts, alloc, text_in(told.get(at)))?;
    }
    Ok(counts)
}

/// Nothing is left of these texts.
#[tactic(auto, using(crate::proofs::Counting::counting))]
pub fn all_used(counts: &BTreeMap<String, usize>, told: &Items<Word>) -> bool
    requires { list_all is_utf8 told.now ≡ true }
    ensures { result ≡ used counts.now told.now }
{
    for at in 0..told.len() {
        if left_of(counts, text_in(told.get(at))) != 0 {
            return false;
        }
    }
    true
}
