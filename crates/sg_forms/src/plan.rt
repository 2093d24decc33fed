//! The lines of the plan.
ghost use Rattle.std.specs.Prelude.{◌≡◌, IfSome};
ghost use Rattle.std.specs.Option.{option_map};
ghost use Rattle.sg_forms.specs.Reading.{one_name, one_number, read_version, read_race, read_style, read_ballots};
ghost use Rattle.sg_forms.specs.Said.{said};
ghost use Rattle.sg_forms.specs.Said.Said.{Cand, Election, Instances};
ghost use Rattle.sg_forms.specs.Zeros.{HasZeros};

use crate::line::Line;
use crate::lists::few_numbers;
use crate::words::Words;

/// `scantegrity2 V`, V being 1 or 2
pub(crate) fn version<'a>(mut words: Words<'a>) -> Option<Line<'a>>
    ensures exact { option_map said result ≡ read_version words.entry }
    ensures zeros { IfSome result HasZeros }
{
    let number = words.number()?;
    if number != 1 && number != 2 {
        return None;
    }
    words.whole(Line::Version(number))
}

/// `election NAME`
pub(crate) fn election<'a>(mut words: Words<'a>) -> Option<Line<'a>>
    ensures exact { option_map said result ≡ one_name Election words.entry }
    ensures zeros { IfSome result HasZeros }
{
    let name = words.name()?;
    words.whole(Line::Election(name))
}

/// `instances M`
pub(crate) fn instances<'a>(mut words: Words<'a>) -> Option<Line<'a>>
    ensures exact { option_map said result ≡ one_number Instances words.entry }
    ensures zeros { IfSome result HasZeros }
{
    let instances = words.number()?;
    words.whole(Line::Instances(instances))
}

/// `race NAME K W`
pub(crate) fn race<'a>(mut words: Words<'a>) -> Option<Line<'a>>
    ensures exact { option_map said result ≡ read_race words.entry }
    ensures zeros { IfSome result HasZeros }
{
    let name = words.name()?;
    let candidates = words.number()?;
    let votes = words.number()?;
    words.whole(Line::Race {
        name,
        candidates,
        votes,
    })
}

/// `cand NAME`
pub(crate) fn cand<'a>(mut words: Words<'a>) -> Option<Line<'a>>
    ensures exact { option_map said result ≡ one_name Cand words.entry }
    ensures zeros { IfSome result HasZeros }
{
    let name = words.name()?;
    words.whole(Line::Cand(name))
}

/// `style NAME R ..`
pub(crate) fn style<'a>(mut words: Words<'a>) -> Option<Line<'a>>
    ensures exact { option_map said result ≡ read_style words.entry }
    ensures zeros { IfSome result HasZeros }
{
    let name = words.name()?;
    let (races, count) = few_numbers(words)?;
    Some(Line::Style { name, races, count })
}

/// `ballots S COUNT`
pub(crate) fn ballots<'a>(mut words: Words<'a>) -> Option<Line<'a>>
    ensures exact { option_map said result ≡ read_ballots words.entry }
    ensures zeros { IfSome result HasZeros }
{
    let style = words.number()?;
    let count = words.number()?;
    words.whole(Line::Ballots { style, count })
}
