//! Whether words, races and lists of them are the same.
ghost use Rattle.std.specs.Prelude.{◌≡◌, ◌↔◌, IsTrue, List, ◌+◌};

use crate::items::Items;
use crate::plan::Race;
use crate::word::Word;

/// The words are the same, in the same order.
pub fn same_words(a: &Items<Word>, b: &Items<Word>) -> bool
    ensures { IsTrue result ↔ (a.now ≡ b.now) }
{
    if a.len() != b.len() {
        return false;
    }
    for at in 0..a.len() {
        if !a.get(at).equals(b.get(at)) {
            return false;
        }
    }
    true
}

/// The races are the same in name, candidates and votes.
fn same_race(a: &Race, b: &Race) -> bool
    ensures { IsTrue result ↔ (a.now ≡ b.now) }
{
    if !a.name.equals(&b.name) {
        return false;
    }
    if a.votes != b.votes {
        return false;
    }
    same_words(&a.candidates, &b.candidates)
}

/// The races are the same, in the same order: each in name, candidates and votes.
pub fn same_races(a: &Items<Race>, b: &Items<Race>) -> bool
    ensures { IsTrue result ↔ (a.now ≡ b.now) }
{
    if a.len() != b.len() {
        return false;
    }
    for at in 0..a.len() {
        if !same_race(a.get(at), b.get(at)) {
            return false;
        }
    }
    true
}
