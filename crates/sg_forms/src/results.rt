//! The lines of results, seals and the draw.
ghost use Rattle.std.specs.Prelude.{◌≡◌, IfSome};
ghost use Rattle.std.specs.Option.{option_map};
ghost use Rattle.sg_forms.specs.Reading.{read_flags, read_places, read_total, read_seal, read_draw};
ghost use Rattle.sg_forms.specs.Said.{said};
ghost use Rattle.sg_forms.specs.Zeros.{HasZeros};

use crate::kinds::read_digits;
use crate::line::Line;
use crate::words::{Words, is_word};

/// `flags R I BITS`
pub(crate) fn flags<'a>(mut words: Words<'a>) -> Option<Line<'a>>
    ensures exact { option_map said result ≡ read_flags words.entry }
    ensures zeros { IfSome result HasZeros }
{
    let race = words.number()?;
    let instance = words.number()?;
    let bits = words.bits()?;
    words.whole(Line::Flags {
        race,
        instance,
        bits,
    })
}

/// `places R BITS`
pub(crate) fn places<'a>(mut words: Words<'a>) -> Option<Line<'a>>
    ensures exact { option_map said result ≡ read_places words.entry }
    ensures zeros { IfSome result HasZeros }
{
    let race = words.number()?;
    let bits = words.bits()?;
    words.whole(Line::Places { race, bits })
}

/// `total R J COUNT`
pub(crate) fn total<'a>(mut words: Words<'a>) -> Option<Line<'a>>
    ensures exact { option_map said result ≡ read_total words.entry }
    ensures zeros { IfSome result HasZeros }
{
    let race = words.number()?;
    let candidate = words.number()?;
    let count = words.number()?;
    words.whole(Line::Total {
        race,
        candidate,
        count,
    })
}

/// `seal N HEX`
pub(crate) fn seal<'a>(mut words: Words<'a>) -> Option<Line<'a>>
    ensures exact { option_map said result ≡ read_seal words.entry }
    ensures zeros { IfSome result HasZeros }
{
    let number = words.number()?;
    let digest = words.digest()?;
    words.whole(Line::Seal { number, digest })
}

/// `draw full` or `draw HEX`
pub(crate) fn draw<'a>(mut words: Words<'a>) -> Option<Line<'a>>
    ensures exact { option_map said result ≡ read_draw words.entry }
    ensures zeros { IfSome result HasZeros }
{
    let word = words.word()?;
    if is_word(word, b"full") {
        return words.whole(Line::DrawFull);
    }
    let digits = read_digits(word)?;
    words.whole(Line::DrawPublic { digits })
}
