//! The lines of ballots: their blocks, and those of disputes.
ghost use Rattle.std.specs.Prelude.{◌≡◌, IfSome};
ghost use Rattle.std.specs.Option.{option_map};
ghost use Rattle.sg_forms.specs.Reading.{one_number, read_code_line, read_paper, read_dispute};
ghost use Rattle.sg_forms.specs.Said.{said};
ghost use Rattle.sg_forms.specs.Said.Said.{Audited, Cast, Over, Spoiled, Voided};
ghost use Rattle.sg_forms.specs.Zeros.{HasZeros};

use crate::kinds::read_claim;
use crate::line::{CodeLine, Line};
use crate::lists::few_codes;
use crate::words::Words;

/// `cast B`
pub(crate) fn cast<'a>(mut words: Words<'a>) -> Option<Line<'a>>
    ensures exact { option_map said result ≡ one_number Cast words.entry }
    ensures zeros { IfSome result HasZeros }
{
    let ballot = words.number()?;
    words.whole(Line::Cast(ballot))
}

/// `spoiled B`
pub(crate) fn spoiled<'a>(mut words: Words<'a>) -> Option<Line<'a>>
    ensures exact { option_map said result ≡ one_number Spoiled words.entry }
    ensures zeros { IfSome result HasZeros }
{
    let ballot = words.number()?;
    words.whole(Line::Spoiled(ballot))
}

/// `audited B`
pub(crate) fn audited<'a>(mut words: Words<'a>) -> Option<Line<'a>>
    ensures exact { option_map said result ≡ one_number Audited words.entry }
    ensures zeros { IfSome result HasZeros }
{
    let ballot = words.number()?;
    words.whole(Line::Audited(ballot))
}

/// `voided B`
pub(crate) fn voided<'a>(mut words: Words<'a>) -> Option<Line<'a>>
    ensures exact { option_map said result ≡ one_number Voided words.entry }
    ensures zeros { IfSome result HasZeros }
{
    let ballot = words.number()?;
    words.whole(Line::Voided(ballot))
}

/// `code R C KEY CODE`
pub(crate) fn code<'a>(version: u32, mut words: Words<'a>) -> Option<Line<'a>>
    ensures exact { option_map said result ≡ read_code_line version words.entry }
    ensures zeros { IfSome result HasZeros }
{
    let race = words.number()?;
    let column = words.number()?;
    let key = words.key()?;
    let code = words.code(version)?;
    words.whole(Line::Code(CodeLine {
        race,
        column,
        key,
        code,
    }))
}

/// `over R`
pub(crate) fn over<'a>(mut words: Words<'a>) -> Option<Line<'a>>
    ensures exact { option_map said result ≡ one_number Over words.entry }
    ensures zeros { IfSome result HasZeros }
{
    let race = words.number()?;
    words.whole(Line::Over(race))
}

/// `paper R CODE ..`
pub(crate) fn paper<'a>(version: u32, mut words: Words<'a>) -> Option<Line<'a>>
    ensures exact { option_map said result ≡ read_paper version words.entry }
    ensures zeros { IfSome result HasZeros }
{
    let race = words.number()?;
    let (codes, count) = few_codes(version, words)?;
    Some(Line::Paper { race, codes, count })
}

/// `dispute B R CODE WORD`
pub(crate) fn dispute<'a>(version: u32, mut words: Words<'a>) -> Option<Line<'a>>
    ensures exact { option_map said result ≡ read_dispute version words.entry }
    ensures zeros { IfSome result HasZeros }
{
    let ballot = words.number()?;
    let race = words.number()?;
    let code = words.code(version)?;
    let answer = words.word()?;
    let word = read_claim(answer)?;
    words.whole(Line::Dispute {
        ballot,
        race,
        code,
        word,
    })
}
