//! The lists of a record, put together from its lines.
ghost use Rattle.std.specs.Prelude.{◌≡◌, ℕ, IfOk, IsSome, OnOk, take};
ghost use Rattle.sg_forms.specs.Reading.{bytes_of_digits};
ghost use Rattle.sg_forms.specs.Said.{Said, said};
ghost use Rattle.sg_grammar.specs.Placed.Placed.{CodeAt};
ghost use Rattle.sg_grammar.specs.Coordinates.{placed};
ghost use Rattle.sg_record.specs.Tree.{cast_at};
ghost use Rattle.sg_record.specs.inside.Gathering.{blank, sealed};
ghost use Rattle.sg_record.specs.inside.Growing.{Adds, IsOfRace, with_plan};

use crate::last::{Addition, begin_fate, push_dispute_code, push_last};
use crate::nested::{empty_lists, empty_tables, push_at, push_bits_at, push_bits_in, push_in};
use crate::record::{BallotBlock, CastLine, DisputeBlock, Record, RowCommit};
use hex::FromHexError;
use sg_commit::Digest;
use sg_forms::{CodeLine, Line, RowOpening};
use sg_grammar::{Block, PlacedLine};
use sg_plan::limits::MOST_CANDIDATES;
use sg_plan::{Draw, Items, NoMemory, Plan, Word};
use std::alloc::Global;

/// The lists of a record while its lines come. Its plan stands apart, where its lines are taken.
#[derive(Debug, Drop)]
pub(crate) struct Lists {
    code_commits: Items<Items<Digest>>,
    row_commits: Items<Items<Items<RowCommit>>>,
    seals: [Digest; 3],
    ballots: Items<BallotBlock>,
    flags: Items<Items<Items<bool>>>,
    places: Items<Items<bool>>,
    totals: Items<Items<u32>>,
    draw: Draw,
    rows: Items<Items<Items<RowOpening>>>,
    disputes: Items<DisputeBlock>,
}

impl Lists {
    /// The lists of no line behind the plan.
    pub(crate) fn blank(alloc: Global, plan: &Plan) -> Result<Lists, NoMemory>
        ensures { IfOk result (λ lists. with_plan plan.now lists ≡ blank plan.now) }
    {
        let races = plan.races.len();
        let instances = plan.instances as usize;
        Ok(Lists {
            code_commits: empty_lists(alloc, races)?,
            row_commits: empty_tables(alloc, races, instances)?,
            seals: [Digest([0; 32]); 3],
            ballots: Items::new(alloc),
            flags: empty_tables(alloc, races, instances)?,
            places: empty_lists(alloc, races)?,
            totals: empty_lists(alloc, races)?,
            draw: Draw::Full,
            rows: empty_tables(alloc, races, instances)?,
            disputes: Items::new(alloc),
        })
    }

    /// The record of these lists and this plan. It takes no memory.
    pub(crate) fn into_record(self, plan: Plan) -> Record
        ensures { result ≡ with_plan plan self }
    {
        let seals = self.seals;
        Record {
            plan,
            code_commits: self.code_commits,
            row_commits: self.row_commits,
            seals,
            ballots: self.ballots,
            flags: self.flags,
            places: self.places,
            totals: self.totals,
            draw: self.draw,
            rows: self.rows,
            disputes: self.disputes,
        }
    }

    /// Adds a line behind the plan, in its place.
    pub(crate) fn add(
        &mut self,
        alloc: Global,
        at: &PlacedLine,
        line: &Line,
    ) -> Result<(), NoMemory>
        ensures { OnOk result (Adds self.old self.new (placed at.now) (said line.now)) }
    {
        match *at {
            PlacedLine::Seal { number, digest } => {
                put_seal(&mut self.seals, number, digest);
                Ok(())
            }
            PlacedLine::Begun { ballot } => {
                let fate = begin_fate(alloc, line);
                self.ballots.push(BallotBlock { ballot, fate })
            }
            PlacedLine::Code { block, code, .. } => self.add_code(alloc, block, code),
            PlacedLine::Paper { codes, count, .. } => {
                let paper = Addition::Paper(first_codes(&codes, count));
                push_last(alloc, &mut self.ballots, paper)
            }
            PlacedLine::DrawFull => {
                self.draw = Draw::Full;
                Ok(())
            }
            PlacedLine::DrawPublic { digits } => {
                self.draw = Draw::Public(word_of(alloc, digits)?);
                Ok(())
            }
            PlacedLine::Dispute {
                ballot,
                race,
                code,
                word,
            } => self.disputes.push(DisputeBlock {
                ballot,
                race,
                code,
                word,
                codes: Items::new(alloc),
            }),
            _ => self.add_of_race(alloc, at),
        }
    }

    /// Adds a line that stands in the list of a race, or of one of its instances, or a line of a cast ballot. Any other
    /// adds nothing.
    fn add_of_race(&mut self, alloc: Global, at: &PlacedLine) -> Result<(), NoMemory>
        ensures { OnOk result (IsOfRace (placed at.now) → (s : Said) → Adds self.old self.new (placed at.now) s) }
    {
        match *at {
            PlacedLine::CodeCommit { race, digest, .. } => {
                push_at(alloc, &mut self.code_commits, race, digest)
            }
            PlacedLine::RowCommit {
                race,
                instance,
                left,
                right,
                ..
            } => {
                let row = RowCommit { left, right };
                push_in(alloc, &mut self.row_commits, race, instance, row)
            }
            PlacedLine::Flags {
                race,
                instance,
                bits,
                ..
            } => push_bits_in(alloc, &mut self.flags, race, instance, bits),
            PlacedLine::Places { race, bits, .. } => {
                push_bits_at(alloc, &mut self.places, race, bits)
            }
            PlacedLine::Total { race, count, .. } => push_at(alloc, &mut self.totals, race, count),
            PlacedLine::Row {
                race,
                instance,
                opening,
                ..
            } => push_in(alloc, &mut self.rows, race, instance, opening),
            _ => self.add_cast(alloc, at),
        }
    }

    /// Adds a line of a cast ballot. Any other adds nothing.
    fn add_cast(&mut self, alloc: Global, at: &PlacedLine) -> Result<(), NoMemory>
        ensures { OnOk result (IsSome (cast_at (placed at.now)) → (s : Said) → Adds self.old self.new (placed at.now) s) }
    {
        match CastLine::at(at) {
            Some(line) => push_last(alloc, &mut self.ballots, Addition::Cast(line)),
            None => Ok(()),
        }
    }

    /// Adds a code to the block that it stands in.
    fn add_code(&mut self, alloc: Global, block: Block, code: CodeLine) -> Result<(), NoMemory>
        ensures { OnOk result ((ballot race column : ℕ) → (s : Said) → Adds self.old self.new (CodeAt block ballot race column code) s) }
    {
        match block {
            Block::Cast => {
                let line = CastLine::Code(code);
                push_last(alloc, &mut self.ballots, Addition::Cast(line))
            }
            Block::Audited => push_last(alloc, &mut self.ballots, Addition::Code(code)),
            Block::Dispute => push_dispute_code(alloc, &mut self.disputes, code),
        }
    }
}

/// The first so many codes: all, where there are fewer.
fn first_codes(codes: &[u16; MOST_CANDIDATES], count: u32) -> &[u16]
    ensures { result.now ≡ take count codes.now }
{
    let count = count as usize;
    if count >= codes.len() {
        return codes;
    }
    &codes[..count]
}

/// Puts the digest in the place of a section's seal. Sections are numbered from 1.
fn put_seal(seals: &mut [Digest; 3], number: u32, digest: Digest)
    ensures { seals.new ≡ sealed seals.old number digest }
{
    let number = number as usize;
    if number == 0 || number > seals.len() {
        return;
    }
    seals[number - 1] = digest;
}

/// The public bytes that these hexadecimal digits spell.
fn word_of(alloc: Global, digits: &[u8]) -> Result<Word, NoMemory>
    ensures { IfOk result (λ word. word ≡ bytes_of_digits digits.now) }
{
    let mut word = Word::new(alloc);
    match hex::decode(alloc, digits) {
        Ok(bytes) => word.extend(&bytes)?,
        Err(FromHexError::OutOfMemory) => return Err(NoMemory),
        Err(_) => {}
    }
    Ok(word)
}
