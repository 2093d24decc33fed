//! Section 2 of a record, written: the ballots, and the results, which are flags, places and totals.
ghost use Rattle.std.specs.Prelude.{◌≡◌, ◌≤◌, ◌<◌, ◌^◌, ◌*◌, ◌∷◌, ◌++◌, [], ℕ, length, map, take, drop, All, true};
ghost use Rattle.std.specs.List.{flat_map};
ghost use Rattle.sg_forms.specs.Said.Said.{Total};
ghost use Rattle.sg_grammar.specs.Due.{each, lines_for};
ghost use Rattle.sg_record.specs.Formed.{is_formed};
ghost use Rattle.sg_record.specs.Lines.{first_lines};
ghost use Rattle.sg_record.specs.Tree.{as_line, bit_sign, block_tree, flag_leaf, flag_tree, indexed, place_leaf, place_tree, race_results_tree, result_tree, total_leaf};
ghost use Rattle.sg_record.specs.Pens.{SealsWhere, Writes};
ghost use Rattle.sg_record.specs.Writing.{text_in};
ghost use Rattle.sg_record.specs.inside.Parts.{HasRaces};

use crate::pen::Pen;
use crate::posts::{Posts, count_races};
use sg_forms::Line;
use sg_outside::{Failed, Sink};
use sg_plan::limits::MOST_BITS;
use sg_plan::{BallotIndex, Items};

/// The sign of a bit.
fn bit_sign(bit: bool) -> u8
    ensures { result ≡ bit_sign bit }
{
    if bit { b'1' } else { b'0' }
}

/// Writes a sign for each bit over the front of `signs`.
fn fill_signs(bits: &[bool], signs: &mut [u8])
    requires { length bits.now ≤ length signs.old }
    ensures { take (length bits.now) signs.new ≡ map bit_sign bits.now }
{
    for at in 0..bits.len() {
        signs[at] = bit_sign(bits[at]);
    }
}

/// How many lines so many bits take.
fn count_lines(bits: usize) -> usize
    ensures { result ≡ lines_for bits }
{
    let full = bits / MOST_BITS;
    if bits % MOST_BITS == 0 {
        full
    } else {
        full + 1
    }
}

/// The bits of a line.
#[tactic(auto, using(crate::proofs::BitLines::on_line))]
fn bits_on(bits: &[bool], line: usize) -> &[bool]
    requires { line < lines_for (length bits.now) }
    ensures is { result.now ≡ take 64 (drop (64 * line) bits.now) }
    ensures some { 1 ≤ length result.now }
    ensures most { length result.now ≤ 64 }
{
    let from = MOST_BITS * line;
    let count = MOST_BITS.min(bits.len() - from);
    &bits[from..from + count]
}

/// Writes a line of flags.
#[tactic(auto, using(crate::proofs::BitLines::few_bits))]
fn put_flag_line<O: Sink>(
    pen: &mut Pen,
    race: u32,
    instance: u32,
    bits: &Items<bool>,
    line: usize,
    out: &mut O,
) -> Result<(), Failed>
    requires line { line < lines_for (length bits.now) }
    ensures { Writes O.written O.faults pen.old out.old pen.new out.new result (flag_leaf as_line race instance bits.now line) }
{
    let on_line = bits_on(bits.as_slice(), line);
    let mut signs = [0; MOST_BITS];
    fill_signs(on_line, &mut signs);
    let flags = Line::Flags {
        race,
        instance,
        bits: &signs[..on_line.len()],
    };
    pen.put_line(&flags, out)
}

/// Writes the flags of the rows of an instance, 64 on a line and the rest on the last.
fn put_flag_lines<O: Sink>(
    pen: &mut Pen,
    race: u32,
    instance: u32,
    bits: &Items<bool>,
    out: &mut O,
) -> Result<(), Failed>
    ensures { Writes O.written O.faults pen.old out.old pen.new out.new result (flag_tree as_line race instance bits.now) }
{
    for line in 0..count_lines(bits.len()) {
        put_flag_line(pen, race, instance, bits, line, out)?;
    }
    Ok(())
}

/// Writes the flags of a race's instances.
fn put_race_flags<O: Sink>(
    pen: &mut Pen,
    race: u32,
    instances: &Items<Items<bool>>,
    out: &mut O,
) -> Result<(), Failed>
    requires few { length instances.now < 2 ^ 32 }
    ensures { Writes O.written O.faults pen.old out.old pen.new out.new result (indexed (flag_tree as_line race) 0 instances.now) }
{
    for instance in 0..instances.len() {
        let bits = instances.get(instance);
        put_flag_lines(pen, race, instance as u32, bits, out)?;
    }
    Ok(())
}

/// Writes a line of places.
#[tactic(auto, using(crate::proofs::BitLines::few_bits))]
fn put_place_line<O: Sink>(
    pen: &mut Pen,
    race: u32,
    bits: &Items<bool>,
    line: usize,
    out: &mut O,
) -> Result<(), Failed>
    requires line { line < lines_for (length bits.now) }
    ensures { Writes O.written O.faults pen.old out.old pen.new out.new result (place_leaf as_line race bits.now line) }
{
    let on_line = bits_on(bits.as_slice(), line);
    let mut signs = [0; MOST_BITS];
    fill_signs(on_line, &mut signs);
    let places = Line::Places {
        race,
        bits: &signs[..on_line.len()],
    };
    pen.put_line(&places, out)
}

/// Writes which places of a race are set, 64 on a line and the rest on the last.
fn put_place_lines<O: Sink>(
    pen: &mut Pen,
    race: u32,
    bits: &Items<bool>,
    out: &mut O,
) -> Result<(), Failed>
    ensures { Writes O.written O.faults pen.old out.old pen.new out.new result (place_tree as_line race bits.now) }
{
    for line in 0..count_lines(bits.len()) {
        put_place_line(pen, race, bits, line, out)?;
    }
    Ok(())
}

/// Writes the total of a candidate.
fn put_total<O: Sink>(
    pen: &mut Pen,
    race: u32,
    candidate: u32,
    count: u32,
    out: &mut O,
) -> Result<(), Failed>
    ensures { Writes O.written O.faults pen.old out.old pen.new out.new result (Total race candidate count ∷ []) }
{
    let total = Line::Total {
        race,
        candidate,
        count,
    };
    pen.put_line(&total, out)
}

/// Writes the votes of each candidate of a race.
fn put_totals<O: Sink>(
    pen: &mut Pen,
    race: u32,
    totals: &Items<u32>,
    out: &mut O,
) -> Result<(), Failed>
    requires few { length totals.now < 2 ^ 32 }
    ensures { Writes O.written O.faults pen.old out.old pen.new out.new result (indexed (total_leaf as_line race) 0 totals.now) }
{
    for candidate in 0..totals.len() {
        let count = totals.get(candidate);
        put_total(pen, race, candidate as u32, *count, out)?;
    }
    Ok(())
}

/// Writes the results of a race.
fn put_race_results<P: Posts, O: Sink>(
    pen: &mut Pen,
    posted: &P,
    race: u32,
    out: &mut O,
) -> Result<(), Failed>
    requires ready { P.is_ready posted.now }
    requires race { race < length (P.posted posted.now).plan.races }
    requires lists { HasRaces (P.posted posted.now) }
    ensures { Writes O.written O.faults pen.old out.old pen.new out.new result (race_results_tree as_line (P.posted posted.now) race) }
{
    let flags = posted.flags().get(race as usize);
    let places = posted.places().get(race as usize);
    let totals = posted.totals().get(race as usize);
    put_race_flags(pen, race, flags, out)?;
    put_place_lines(pen, race, places, out)?;
    put_totals(pen, race, totals, out)
}

/// Writes the results of all races.
fn put_results<P: Posts, O: Sink>(pen: &mut Pen, posted: &P, out: &mut O) -> Result<(), Failed>
    requires ready { P.is_ready posted.now }
    requires formed { is_formed (P.posted posted.now) ≡ true }
    ensures { Writes O.written O.faults pen.old out.old pen.new out.new result (each (race_results_tree as_line (P.posted posted.now)) 0 (length (P.posted posted.now).plan.races)) }
{
    for race in 0..count_races(posted) {
        put_race_results(pen, posted, race, out)?;
    }
    Ok(())
}

/// Writes the blocks of all ballots, the results of all races, and the seal, behind the lines of the first section.
pub(crate) fn put_closed<P: Posts, O: Sink>(
    pen: &mut Pen,
    posted: &P,
    index: &BallotIndex,
    out: &mut O,
) -> Result<(), Failed>
    requires version { pen.old.version ≡ (P.posted posted.now).plan.version }
    requires ready { P.is_ready posted.now }
    requires formed { is_formed (P.posted posted.now) ≡ true }
    requires index { index.now ≡ (P.posted posted.now).plan }
    requires seal { SealsWhere P.wants_seal pen.old.seal (text_in (P.posted posted.now).plan.version (first_lines (P.posted posted.now))) }
    ensures { Writes O.written O.faults pen.old out.old pen.new out.new result (flat_map (block_tree as_line (P.posted posted.now).plan) (P.posted posted.now).ballots ++ result_tree as_line (P.posted posted.now)) }
{
    posted.put_blocks(pen, index, out)?;
    put_results(pen, posted, out)?;
    posted.put_seal(pen, 2, out)
}
