//! A text that is cut into parts at each byte of one value.
ghost use Rattle.std.specs.Prelude.{◌≡◌, ◌∷◌, [], MatchOption, Some, IsTrue, ◌↔◌};
ghost use Rattle.std.specs.Option.{option_map, option_copied};
ghost use Rattle.sg_lines.specs.Parts.{parts_left, parts_of};

use memchr::memchr;
use std::marker::Model;

/// The first part of a text, and what stands behind the separator after it.
#[tactic(auto, using(crate::proofs::Splitting::cut_at, crate::proofs::Splitting::cut_nowhere))]
fn cut(separator: u8, text: &[u8]) -> (&[u8], Option<&[u8]>)
    ensures { parts_of separator text.now ≡ result.0.now ∷ parts_left separator (option_copied result.1) }
{
    match memchr(separator, text) {
        Some(at) => (&text[..at], Some(&text[at + 1..])),
        None => (text, None),
    }
}

/// The parts of a text that are still to be read: what stands between two separators, or before the first, or behind
/// the last. A text has at least one part, and parts may be empty. It takes no memory.
#[derive(Drop)]
pub struct Parts<'a> {
    separator: u8,
    rest: Option<&'a [u8]>,
}

impl<'a> Model for Parts<'a> {
    ghost use Rattle.std.specs.Prelude.{List, ℕ};
    ghost use Rattle.std.specs.Option.{option_copied};
    ghost use Rattle.sg_lines.specs.Parts.{parts_left};

    ghost Value = { List (List ℕ) };

    ghost view = { λ p. parts_left p.separator (option_copied p.rest) };
}

impl<'a> Parts<'a> {
    /// The parts of a text that is cut at each byte `separator`.
    pub fn new(separator: u8, text: &'a [u8]) -> Parts<'a>
        ensures { result ≡ parts_of separator text.now }
    {
        Parts {
            separator,
            rest: Some(text),
        }
    }

    /// Takes the next part, and answers `None` behind the last.
    pub fn part(&mut self) -> Option<&'a [u8]>
        ensures { MatchOption result (self.old ≡ [] × self.new ≡ []) (λ w. self.old ≡ w.now ∷ self.new) }
    {
        let text = self.rest?;
        let (part, rest) = cut(self.separator, text);
        self.rest = rest;
        Some(part)
    }
}
