//! What is made ready before an act is kept: all that takes memory.
ghost use Rattle.std.specs.Prelude.{◌≡◌, ◌<◌, ◌^◌, pos, IfOk};
ghost use Rattle.sg_keeper.specs.Rows.{IsAscii, IsAsciiChange, IsAsciiRow};
ghost use Rattle.sg_desks.specs.ActTexts.{HasCodes, act_text};
ghost use Rattle.sg_histories.specs.KeptRows.{row_of_act};
ghost use Rattle.sg_office.specs.inside.Ready.{act_change, part_of};

use crate::slots::scanner_at;
use sg_acts::{Act, Stamp};
use sg_desks::{draw_text, marks_text, paper_text};
use sg_histories::{Claim, Slot};
use sg_keeper::{BallotRow, Change, ChangeRow, ClaimRow, DoneRow, StageRow, VoidRow};
use sg_plan::{Fate, Items, NoMemory, Stage, Word, copy_paper};
use std::alloc::Global;

/// What an accepted act changes, beside the rows.
#[derive(Debug, Drop)]
pub enum Part {
    /// What is known of a ballot.
    Ballot(u32, Slot),
    /// How far the election has come.
    Stage(Stage),
    /// One more claim.
    Claim(Claim),
}

/// What an accepted act changes, and what is kept of it.
#[derive(Debug, Drop)]
pub struct Ready {
    /// What changes beside the rows.
    pub part: Part,
    /// What the keeper is given, and of it the row of the act for the office's own list.
    pub change: Change,
}

/// The row of an act that was done.
fn done_row(stamp: &Stamp, text: Word) -> DoneRow
    ensures { result ≡ record { station = pos stamp.now.station; number = pos stamp.now.number; act = text } }
{
    DoneRow {
        station: i64::from(stamp.station),
        number: i64::from(stamp.number),
        act: text,
    }
}

/// What an act changes.
pub fn ready_part(
    alloc: Global,
    slots: &Items<Slot>,
    station: u32,
    act: &Act,
) -> Result<Part, NoMemory>
    ensures { IfOk result (λ part. part ≡ part_of slots.now station act.now) }
{
    match act {
        Act::Scan(ballot, marks) => {
            let fate = Fate::Cast(marks.copy(alloc)?);
            Ok(Part::Ballot(*ballot, Slot { fate, station }))
        }
        Act::Spoil(ballot) => {
            let station = scanner_at(slots, *ballot);
            let fate = Fate::Spoiled;
            Ok(Part::Ballot(*ballot, Slot { fate, station }))
        }
        Act::Audit(ballot, paper) => {
            let station = scanner_at(slots, *ballot);
            let fate = Fate::Audited(copy_paper(paper, alloc)?);
            Ok(Part::Ballot(*ballot, Slot { fate, station }))
        }
        Act::Close => Ok(Part::Stage(Stage::Closed)),
        Act::Draw(draw) => Ok(Part::Stage(Stage::Drawn(draw.copy(alloc)?))),
        Act::Claim(ballot, race, code) => Ok(Part::Claim(Claim {
            ballot: *ballot,
            race: *race,
            code: *code,
        })),
        Act::Void(ballot) => {
            let station = scanner_at(slots, *ballot);
            let fate = Fate::Voided;
            Ok(Part::Ballot(*ballot, Slot { fate, station }))
        }
    }
}

/// The row of a ballot that an act gives a fate.
fn ballot_row(ballot: u32, fate: i64, detail: Word) -> ChangeRow
    ensures { result ≡ ChangeRow.Ballot (record { ballot = pos ballot; fate = fate; detail = detail }) }
{
    ChangeRow::Ballot(BallotRow {
        ballot: i64::from(ballot),
        fate,
        detail,
    })
}

/// The row of an act, where so many claims are kept.
fn ready_row(alloc: Global, version: u32, claims: u32, act: &Act) -> Result<ChangeRow, NoMemory>
    requires codes { HasCodes version act.now }
    ensures row { IfOk result (λ row. row ≡ row_of_act version claims act.now) }
    ensures ascii { IfOk result (λ row. IsAsciiRow row) }
{
    match act {
        Act::Scan(ballot, marks) => Ok(ballot_row(*ballot, 1, marks_text(alloc, marks)?)),
        Act::Spoil(ballot) => Ok(ballot_row(*ballot, 2, Word::new(alloc))),
        Act::Audit(ballot, paper) => Ok(ballot_row(*ballot, 3, paper_text(alloc, version, paper)?)),
        Act::Close => Ok(ChangeRow::Stage(StageRow {
            step: 1,
            detail: Word::new(alloc),
        })),
        Act::Draw(draw) => {
            let detail = draw_text(alloc, draw)?;
            Ok(ChangeRow::Stage(StageRow { step: 2, detail }))
        }
        Act::Claim(ballot, race, code) => Ok(ChangeRow::Claim(ClaimRow {
            claim: i64::from(claims) + 1,
            ballot: i64::from(*ballot),
            race: i64::from(*race),
            code: i64::from(*code),
        })),
        Act::Void(ballot) => Ok(ChangeRow::Void(VoidRow {
            ballot: i64::from(*ballot),
        })),
    }
}

/// What an act adds to the rows, where so many claims are kept.
pub fn ready_change(
    alloc: Global,
    version: u32,
    claims: u32,
    stamp: &Stamp,
    act: &Act,
    text: Word,
) -> Result<Change, NoMemory>
    requires codes { HasCodes version act.now }
    requires text { text ≡ act_text version act.now }
    requires ascii { IsAscii text }
    ensures change { IfOk result (λ change. change ≡ act_change version claims stamp.now act.now) }
    ensures ascii { IfOk result IsAsciiChange }
{
    let row = ready_row(alloc, version, claims, act)?;
    let done = done_row(stamp, text);
    Ok(Change { row, done })
}
