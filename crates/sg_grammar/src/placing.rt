//! A line in the place of the one that is due.
ghost use Rattle.std.specs.Prelude.{◌≡◌, ◌*◌, ◌^◌, ◌<◌, length, take};
ghost use Rattle.std.specs.Option.{option_map};
ghost use Rattle.sg_forms.specs.Said.{said};
ghost use Rattle.sg_grammar.specs.Slots.{HasFittingLine};
ghost use Rattle.sg_grammar.specs.Coordinates.{placed};
ghost use Rattle.sg_grammar.specs.Walk.{place};

use crate::placed::PlacedLine;
use crate::state::{Block, Slot};
use sg_forms::Line;
use sg_plan::limits::{MOST_BITS, MOST_CANDIDATES};

/// How many bits a full line has.
const LINE_BITS: u32 = MOST_BITS as u32;

/// The line in the place of the commitment of this entry's code.
fn place_code_commit<'a>(race: u32, entry: u32, line: &Line<'a>) -> Option<PlacedLine<'a>>
    ensures { option_map placed result ≡ place (Slot.CodeCommit race entry) (said line.now) }
{
    match *line {
        Line::CodeCommit {
            race: named,
            digest,
        } if named == race => Some(PlacedLine::CodeCommit {
            race,
            entry,
            digest,
        }),
        _ => None,
    }
}

/// The line in the place of the commitments of this row.
fn place_row_commit<'a>(
    race: u32,
    instance: u32,
    row: u32,
    line: &Line<'a>,
) -> Option<PlacedLine<'a>>
    ensures { option_map placed result ≡ place (Slot.RowCommit race instance row) (said line.now) }
{
    match *line {
        Line::RowCommit {
            race: named,
            instance: of,
            left,
            right,
        } if named == race && of == instance => Some(PlacedLine::RowCommit {
            race,
            instance,
            row,
            left,
            right,
        }),
        _ => None,
    }
}

/// The line in the place of this seal.
fn place_seal<'a>(number: u32, line: &Line<'a>) -> Option<PlacedLine<'a>>
    ensures { option_map placed result ≡ place (Slot.Seal number) (said line.now) }
{
    match *line {
        Line::Seal {
            number: named,
            digest,
        } if named == number => Some(PlacedLine::Seal { number, digest }),
        _ => None,
    }
}

/// How many codes a paper lists, of which a line has room for as many as candidates.
#[tactic(auto, using(crate::proofs::DueLines::listed))]
fn count_listed(codes: &[u16; MOST_CANDIDATES], count: u32) -> u32
    ensures { result ≡ length (take count codes.now) }
{
    count.min(MOST_CANDIDATES as u32)
}

/// The line in the place of this race's paper, with exactly so many codes.
fn place_paper<'a>(ballot: u32, race: u32, due: u32, line: &Line<'a>) -> Option<PlacedLine<'a>>
    ensures { option_map placed result ≡ place (Slot.Paper ballot race due) (said line.now) }
{
    match *line {
        Line::Paper {
            race: named,
            codes,
            count,
        } if named == race && count_listed(&codes, count) == due => Some(PlacedLine::Paper {
            ballot,
            race,
            codes,
            count,
        }),
        _ => None,
    }
}

/// The line in the place of this column's code.
fn place_code<'a>(
    block: Block,
    ballot: u32,
    race: u32,
    column: u32,
    line: &Line<'a>,
) -> Option<PlacedLine<'a>>
    ensures { option_map placed result ≡ place (Slot.Code block ballot race column) (said line.now) }
{
    match *line {
        Line::Code(code) if code.race == race && code.column == column => Some(PlacedLine::Code {
            block,
            ballot,
            race,
            column,
            code,
        }),
        _ => None,
    }
}

/// The line in the place of these flags.
fn place_flags<'a>(
    race: u32,
    instance: u32,
    number: u32,
    count: u32,
    line: &Line<'a>,
) -> Option<PlacedLine<'a>>
    requires { 64 * number < 2 ^ 32 }
    ensures { option_map placed result ≡ place (Slot.Flags race instance number count) (said line.now) }
{
    match *line {
        Line::Flags {
            race: named,
            instance: of,
            bits,
        } if named == race && of == instance && bits.len() == count as usize => Some(
            PlacedLine::Flags {
                race,
                instance,
                from: LINE_BITS * number,
                bits,
            },
        ),
        _ => None,
    }
}

/// The line in the place of these bits of the places.
fn place_places<'a>(race: u32, number: u32, count: u32, line: &Line<'a>) -> Option<PlacedLine<'a>>
    requires { 64 * number < 2 ^ 32 }
    ensures { option_map placed result ≡ place (Slot.Places race number count) (said line.now) }
{
    match *line {
        Line::Places { race: named, bits } if named == race && bits.len() == count as usize => Some(
            PlacedLine::Places {
                race,
                from: LINE_BITS * number,
                bits,
            },
        ),
        _ => None,
    }
}

/// The line in the place of this candidate's total.
fn place_total<'a>(race: u32, candidate: u32, line: &Line<'a>) -> Option<PlacedLine<'a>>
    ensures { option_map placed result ≡ place (Slot.Total race candidate) (said line.now) }
{
    match *line {
        Line::Total {
            race: named,
            candidate: of,
            count,
        } if named == race && of == candidate => Some(PlacedLine::Total {
            race,
            candidate,
            count,
        }),
        _ => None,
    }
}

/// The line in the place of the draw.
fn place_draw<'a>(line: &Line<'a>) -> Option<PlacedLine<'a>>
    ensures { option_map placed result ≡ place Slot.Draw (said line.now) }
{
    match *line {
        Line::DrawFull => Some(PlacedLine::DrawFull),
        Line::DrawPublic { digits } => Some(PlacedLine::DrawPublic { digits }),
        _ => None,
    }
}

/// The line in the place of the opening of this row.
fn place_row<'a>(race: u32, instance: u32, row: u32, line: &Line<'a>) -> Option<PlacedLine<'a>>
    ensures { option_map placed result ≡ place (Slot.Row race instance row) (said line.now) }
{
    match *line {
        Line::Row(opening) => Some(PlacedLine::Row {
            race,
            instance,
            row,
            opening,
        }),
        _ => None,
    }
}

/// The line in the place of the one that is due, where it may stand there.
#[inline(always)]
pub(crate) fn place_in<'a>(slot: &Slot, line: &Line<'a>) -> Option<PlacedLine<'a>>
    requires { HasFittingLine slot.now }
    ensures { option_map placed result ≡ place slot.now (said line.now) }
{
    match *slot {
        Slot::CodeCommit { race, entry } => place_code_commit(race, entry, line),
        Slot::RowCommit {
            race,
            instance,
            row,
        } => place_row_commit(race, instance, row, line),
        Slot::Seal { number } => place_seal(number, line),
        Slot::Paper {
            ballot,
            race,
            count,
        } => place_paper(ballot, race, count, line),
        Slot::Code {
            block,
            ballot,
            race,
            column,
        } => place_code(block, ballot, race, column, line),
        Slot::Flags {
            race,
            instance,
            line: number,
            count,
        } => place_flags(race, instance, number, count, line),
        Slot::Places {
            race,
            line: number,
            count,
        } => place_places(race, number, count, line),
        Slot::Total { race, candidate } => place_total(race, candidate, line),
        Slot::Draw => place_draw(line),
        Slot::Row {
            race,
            instance,
            row,
        } => place_row(race, instance, row, line),
    }
}
