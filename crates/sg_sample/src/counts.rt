//! What a summary counts.
ghost use Rattle.std.specs.Prelude.{◌≡◌, ◌≤◌, length};
ghost use Rattle.sg_commit.specs.declared.Digest.{Digest};
ghost use Rattle.sg_lines.specs.Words.{encode_lower};
ghost use Rattle.sg_outside.specs.TextLines.{lines_of};
ghost use Rattle.sg_sample.specs.Summary.{count_fates, is_audited, is_cast, is_spoiled};
ghost use Rattle.sg_sample.specs.inside.Judging.{HasTotals};
ghost use Rattle.sg_sample.specs.inside.Sealed.{EndsWith, IsSealed};

use sg_outside::line_end;
use sg_plan::Fate;
use sg_post::Told;

/// A ballot with this fate was cast.
fn is_cast(fate: &Fate) -> bool
    ensures { result ≡ is_cast fate.now }
{
    matches!(fate, Fate::Cast(_))
}

/// A ballot with this fate was spoiled.
fn is_spoiled(fate: &Fate) -> bool
    ensures { result ≡ is_spoiled fate.now }
{
    matches!(fate, Fate::Spoiled)
}

/// A ballot with this fate was audited.
fn is_audited(fate: &Fate) -> bool
    ensures { result ≡ is_audited fate.now }
{
    matches!(fate, Fate::Audited(_))
}

/// How many ballots were cast.
pub(crate) fn count_cast(fates: &[Told]) -> u32
    requires { length fates.now ≤ 9000 }
    ensures { result ≡ count_fates is_cast fates.now }
{
    fates.iter().filter(|told| is_cast(&told.fate)).count() as u32
}

/// How many were spoiled.
pub(crate) fn count_spoiled(fates: &[Told]) -> u32
    requires { length fates.now ≤ 9000 }
    ensures { result ≡ count_fates is_spoiled fates.now }
{
    fates.iter().filter(|told| is_spoiled(&told.fate)).count() as u32
}

/// How many were audited.
pub(crate) fn count_audited(fates: &[Told]) -> u32
    requires { length fates.now ≤ 9000 }
    ensures { result ≡ count_fates is_audited fates.now }
{
    fates.iter().filter(|told| is_audited(&told.fate)).count() as u32
}

/// How many lines a text has.
fn count_all(text: &[u8]) -> usize
    ensures { result ≡ length (lines_of text.now) }
{
    let mut count = 0;
    let mut at = 0;
    while at < text.len() {
        at = line_end(text, at);
        count += 1;
    }
    count
}

/// How many lines a record has that is accepted.
pub(crate) fn count_lines(text: &[u8]) -> u32
    requires { HasTotals text.now }
    ensures { result ≡ length (lines_of text.now) }
{
    sg_grammar::laws::lines_law();
    count_all(text) as u32
}

/// The digits of the digest on the last line, which is a seal.
pub(crate) fn last_digits(text: &[u8]) -> &[u8]
    requires { IsSealed text.now }
    ensures { (digest : Digest) → EndsWith text.now digest → result.now ≡ encode_lower digest.0 }
{
    let end = text.len() - 1;
    &text[end - 64..end]
}
