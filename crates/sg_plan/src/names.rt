//! Names of elections, races, candidates and styles.
ghost use Rattle.std.specs.Prelude.{◌≡◌, ◌↔◌, IsTrue};
ghost use Rattle.std.specs.List.{list_all};
ghost use Rattle.sg_plan.specs.Names.{IsName, is_among, is_name_word, is_within, name_keeps};

use crate::limits::LONGEST_NAME;
use crate::word::Word;

/// The byte may stand in a name: a printable ASCII character other than the space.
fn is_name_byte(byte: u8) -> bool
    ensures { result ≡ is_within 0x21 0x7E byte }
{
    (0x21..=0x7E).contains(&byte)
}

/// All bytes may stand in a name.
fn are_name_bytes(word: &[u8]) -> bool
    ensures { result ≡ list_all (is_within 0x21 0x7E) word.now }
{
    word.iter().all(|byte| is_name_byte(*byte))
}

/// The word is a name: 1 to 64 bytes from 0x21 to 0x7E.
#[tactic(auto, using(crate::proofs::NameTests::name_test))]
pub fn is_name(word: &[u8]) -> bool
    ensures name { IsTrue result ↔ IsName word.now }
    ensures test { result ≡ is_name_word word.now }
{
    is_name_by_test(word)
}

/// The test behind `is_name`.
fn is_name_by_test(word: &[u8]) -> bool
    ensures { result ≡ is_name_word word.now }
{
    if !(1..=LONGEST_NAME).contains(&word.len()) {
        return false;
    }
    are_name_bytes(word)
}

/// One of the words is this one.
fn has_word(words: &[Word], word: &[u8]) -> bool
    ensures { result ≡ is_among words.now word.now }
{
    words.iter().any(|other| other.bytes() == word)
}

/// The word is a name, and none of the earlier ones.
pub fn is_new_name(earlier: &[Word], word: &[u8]) -> bool
    ensures { result ≡ name_keeps earlier.now word.now }
{
    is_name(word) && !has_word(earlier, word)
}
