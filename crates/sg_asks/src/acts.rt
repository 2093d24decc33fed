//! What the forms of an ask say, but for who asks.
ghost use Rattle.std.specs.Prelude.{◌≡◌, codes};
ghost use Rattle.serde_json.specs.View.{view, items_view};
ghost use Rattle.sg_asks.specs.Asks.{audit_in, ballot_in, claim_in, draw_in, draw_of_text, mark_in, pair_in, paper_in, scan_in, stamp_in};
ghost use Rattle.sg_asks.specs.Members.{code_in, member_by};
ghost use Rattle.sg_asks.specs.inside.Reading.{Reads};

use crate::kinds::{Kind, member};
use crate::papers::{code_of, paper_of};
use crate::unread::Unread;
use serde_json::Value;
use sg_acts::{Act, Stamp};
use sg_lines::hex_bytes;
use sg_plan::{Draw, Mark, Paper};
use std::alloc::Global;

/// Who asks.
#[tactic(auto, unfolding(crate::specs::Asks::stamp_in))]
pub(crate) fn stamp_of(alloc: Global, value: &Value) -> Result<Stamp, Unread>
    ensures { Reads result (stamp_in (view value.now)) }
{
    let station = member(alloc, value, "station")?;
    let secret = member(alloc, value, "secret")?;
    let number = member(alloc, value, "ref")?;
    Ok(Stamp {
        station,
        secret,
        number,
    })
}

/// A mark, from a list of exactly two numbers.
fn pair_of(alloc: Global, list: &[Value]) -> Result<Mark, Unread>
    ensures { Reads result (pair_in (items_view list.now)) }
{
    let [first, second] = list else {
        return Err(Unread::Shape);
    };
    let race = u32::read(alloc, first)?;
    let candidate = u32::read(alloc, second)?;
    Ok(Mark { race, candidate })
}

/// A mark.
#[tactic(auto, unfolding(crate::specs::Asks::mark_in))]
fn mark_of(alloc: Global, value: &Value) -> Result<Mark, Unread>
    ensures { Reads result (mark_in (view value.now)) }
{
    match value {
        Value::Array(list) => pair_of(alloc, list.as_slice()),
        _ => Err(Unread::Shape),
    }
}

impl Kind for Mark {
    ghost kind = { mark_in };

    fn read(alloc: Global, value: &Value) -> Result<Mark, Unread> {
        mark_of(alloc, value)
    }
}

/// A scan.
pub(crate) fn scan_of(alloc: Global, value: &Value) -> Result<Act, Unread>
    ensures { Reads result (scan_in (view value.now)) }
{
    let ballot = member(alloc, value, "ballot")?;
    let marks = member(alloc, value, "marks")?;
    Ok(Act::Scan(ballot, marks))
}

/// The paper of an audit.
fn paper_at(alloc: Global, version: u32, value: &Value) -> Result<Paper, Unread>
    ensures { Reads result (member_by (paper_in version) (codes "paper") (view value.now)) }
{
    match value.get("paper") {
        Some(found) => paper_of(alloc, version, found),
        None => Err(Unread::Shape),
    }
}

/// An audit.
pub(crate) fn audit_of(alloc: Global, version: u32, value: &Value) -> Result<Act, Unread>
    ensures { Reads result (audit_in version (view value.now)) }
{
    let ballot = member(alloc, value, "ballot")?;
    let paper = paper_at(alloc, version, value)?;
    Ok(Act::Audit(ballot, paper))
}

/// `full`, or the digits of public bytes.
fn draw_of_text(alloc: Global, text: &[u8]) -> Result<Draw, Unread>
    ensures { Reads result (draw_of_text text.now) }
{
    match text {
        b"full" => Ok(Draw::Full),
        _ => match hex_bytes(alloc, text)? {
            Some(bytes) => Ok(Draw::Public(bytes)),
            None => Err(Unread::Shape),
        },
    }
}

/// A draw.
#[tactic(auto, unfolding(crate::specs::Asks::draw_in))]
fn draw_of(alloc: Global, value: &Value) -> Result<Draw, Unread>
    ensures { Reads result (draw_in (view value.now)) }
{
    match value.as_str() {
        Some(text) => draw_of_text(alloc, text.as_bytes()),
        None => Err(Unread::Shape),
    }
}

impl Kind for Draw {
    ghost kind = { draw_in };

    fn read(alloc: Global, value: &Value) -> Result<Draw, Unread> {
        draw_of(alloc, value)
    }
}

/// The code of a claim.
fn code_at(version: u32, value: &Value) -> Result<u16, Unread>
    ensures { Reads result (member_by (code_in version) (codes "code") (view value.now)) }
{
    match value.get("code") {
        Some(found) => code_of(version, found),
        None => Err(Unread::Shape),
    }
}

/// A claim.
pub(crate) fn claim_of(alloc: Global, version: u32, value: &Value) -> Result<Act, Unread>
    ensures { Reads result (claim_in version (view value.now)) }
{
    let ballot = member(alloc, value, "ballot")?;
    let race = member(alloc, value, "race")?;
    let code = code_at(version, value)?;
    Ok(Act::Claim(ballot, race, code))
}
