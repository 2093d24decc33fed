//! The rows of stages.
ghost use Rattle.std.specs.Prelude.{◌≡◌, ◌&&◌, ◌==◌, ◌++◌, ◌≤◌, pos, map, true, None, Some, [], length, take, IfOk, IfErr};
ghost use Rattle.std.specs.List.{list_all};
ghost use Rattle.std.specs.Ordering.{int_eq};
ghost use Rattle.std.specs.Str.{is_utf8};
ghost use Rattle.sg_plan.specs.Limits.{first_bad};
ghost use Rattle.sg_desks.specs.ActReading.{act_in};
ghost use Rattle.sg_histories.specs.ValidRows.{at_table, stage_keeps, stage_text};
ghost use Rattle.sg_open.specs.inside.Finding.{IsDamage, stage_told};
ghost use Rattle.sg_open.specs.inside.Telling.{act_draw, draw_told, fit_draw as fit_draw_of};

use crate::fault::{OpenFault, bad_row};
use crate::texts::{close_text, draw_text};
use sg_acts::Act;
use sg_desks::act_of;
use sg_keeper::StageRow;
use sg_plan::limits::MOST_PUBLIC_BYTES;
use sg_plan::{Draw, Items, NoMemory, Plan, Stage, Word};
use std::alloc::Global;

/// What the row of the draw tells.
#[derive(Debug, Drop)]
pub struct DrawTold {
    /// The text of the act.
    pub text: Word,
    /// How the sides are drawn.
    pub drawn: Draw,
}

/// The draw, where its public bytes are 1 to 4,096.
fn fit_draw(drawn: Draw) -> Option<Draw>
    ensures { result ≡ fit_draw_of drawn }
{
    match drawn {
        Draw::Full => Some(Draw::Full),
        Draw::Public(bytes) => {
            if bytes.len() < 1 {
                return None;
            }
            if bytes.len() > MOST_PUBLIC_BYTES {
                return None;
            }
            Some(Draw::Public(bytes))
        }
    }
}

/// The draw of an act, where it fits.
fn draw_of_act(act: Act) -> Option<Draw>
    ensures { result ≡ act_draw act }
{
    match act {
        Act::Draw(drawn) => fit_draw(drawn),
        Act::Scan(_, _) => None,
        Act::Spoil(_) => None,
        Act::Audit(_, _) => None,
        Act::Close => None,
        Act::Claim(_, _, _) => None,
        Act::Void(_) => None,
    }
}

/// What a row tells that should be of the draw.
fn tell_draw(alloc: Global, version: u32, row: &StageRow) -> Result<Option<DrawTold>, NoMemory>
    ensures { IfOk result (λ found. found ≡ draw_told version row.now) }
{
    if row.step != 2 {
        return Ok(None);
    }
    let text = draw_text(alloc, &row.detail)?;
    let Some(act) = act_of(alloc, version, text.bytes())? else {
        return Ok(None);
    };
    match draw_of_act(act) {
        Some(drawn) => Ok(Some(DrawTold { text, drawn })),
        None => Ok(None),
    }
}

/// The row is of the close.
fn is_close(row: &StageRow) -> bool
    ensures { result ≡ (int_eq row.now.step (pos 1) && length row.now.detail == 0) }
{
    row.step == 1 && row.detail.len() == 0
}

/// How far an election with these rows of stages is. Their texts are put behind those that are told.
pub fn read_stages(
    alloc: Global,
    plan: &Plan,
    rows: &Items<StageRow>,
    told: &mut Items<Word>,
) -> Result<Stage, OpenFault>
    requires utf8 { list_all is_utf8 told.old ≡ true }
    ensures good { IfOk result (λ stage. first_bad (stage_keeps plan.now (act_in plan.now.version)) [] rows.now ≡ None) }
    ensures stage { IfOk result (λ stage. stage ≡ stage_told plan.now.version rows.now) }
    ensures told { IfOk result (λ stage. told.new ≡ told.old ++ map stage_text rows.now) }
    ensures utf8 { IfOk result (λ stage. list_all is_utf8 told.new ≡ true) }
    ensures fault { IfErr result (λ fault. IsDamage fault (at_table 3 (first_bad (stage_keeps plan.now (act_in plan.now.version)) [] rows.now))) }
{
    if rows.len() == 0 {
        return Ok(Stage::Voting);
    }
    if !is_close(rows.get(0)) {
        return Err(bad_row(3, 0));
    }
    told.push(close_text(alloc)?)?;
    if rows.len() == 1 {
        return Ok(Stage::Closed);
    }
    let Some(draw) = tell_draw(alloc, plan.version, rows.get(1))? else {
        return Err(bad_row(3, 1));
    };
    told.push(draw.text)?;
    if rows.len() > 2 {
        return Err(bad_row(3, 2));
    }
    Ok(Stage::Drawn(draw.drawn))
}
