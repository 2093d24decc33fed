//! Codes and papers in a JSON value, in the spelling of a version of the record.
ghost use Rattle.std.specs.Prelude.{◌≡◌};
ghost use Rattle.serde_json.specs.View.{view, items_view};
ghost use Rattle.sg_asks.specs.Asks.{codes_in, paper_in};
ghost use Rattle.sg_asks.specs.Members.{code_in, each_by};
ghost use Rattle.sg_asks.specs.inside.Reading.{Reads};

use crate::kinds::item;
use crate::unread::Unread;
use serde_json::Value;
use sg_lines::read_code;
use sg_plan::{Items, Paper};
use std::alloc::Global;

/// A code of the version.
#[tactic(auto, unfolding(crate::specs::Members::code_in))]
pub(crate) fn code_of(version: u32, value: &Value) -> Result<u16, Unread>
    ensures { Reads result (code_in version (view value.now)) }
{
    match value.as_str() {
        Some(text) => read_code(version, text.as_bytes()).ok_or(Unread::Shape),
        None => Err(Unread::Shape),
    }
}

/// Each item as a code.
fn each_code(alloc: Global, version: u32, list: &[Value]) -> Result<Items<u16>, Unread>
    ensures { Reads result (each_by (code_in version) (items_view list.now)) }
{
    let mut items = Items::new(alloc);
    for at in 0..list.len() {
        items.push(code_of(version, item(list, at))?)?;
    }
    Ok(items)
}

/// A list of codes.
#[tactic(auto, unfolding(crate::specs::Asks::codes_in))]
fn codes_of(alloc: Global, version: u32, value: &Value) -> Result<Items<u16>, Unread>
    ensures { Reads result (codes_in version (view value.now)) }
{
    match value {
        Value::Array(list) => each_code(alloc, version, list.as_slice()),
        _ => Err(Unread::Shape),
    }
}

/// Each item as a list of codes.
fn each_codes(alloc: Global, version: u32, list: &[Value]) -> Result<Items<Items<u16>>, Unread>
    ensures { Reads result (each_by (codes_in version) (items_view list.now)) }
{
    let mut items = Items::new(alloc);
    for at in 0..list.len() {
        items.push(codes_of(alloc, version, item(list, at))?)?;
    }
    Ok(items)
}

/// A paper.
#[tactic(auto, unfolding(crate::specs::Asks::paper_in))]
pub(crate) fn paper_of(alloc: Global, version: u32, value: &Value) -> Result<Paper, Unread>
    ensures { Reads result (paper_in version (view value.now)) }
{
    match value {
        Value::Array(list) => each_codes(alloc, version, list.as_slice()),
        _ => Err(Unread::Shape),
    }
}
