//! Asks as JSON.
ghost use Rattle.std.specs.Prelude.{◌≡◌, IfOk};
ghost use Rattle.serde_json.specs.View.{view};
ghost use Rattle.sg_asks.specs.Asks.{IsAsked, ask_in, ask_of_form, ask_to_do, ask_to_see, asked};
ghost use Rattle.sg_asks.specs.Codes.{HasCodes};
ghost use Rattle.sg_asks.specs.inside.Reading.{Reads};

use crate::acts::{audit_of, claim_of, scan_of, stamp_of};
use crate::forms::{Form, form_of};
use crate::kinds::{has_members, member};
use crate::reading::value_of;
use crate::unread::Unread;
use serde_json::Value;
use sg_acts::{Act, Ask, Look};
use std::alloc::Global;

/// Why bytes are no ask.
#[derive(Clone, Copy, Debug, PartialEq, Eq)]
pub enum AskFault {
    /// They are no UTF-8, or no JSON of depth at most 127.
    NotJson,
    /// The value has none of the nine forms of an ask.
    Shape,
    /// Memory was wanted.
    NoMemory,
}

/// The ask for an act, in an object of so many members.
fn do_act(alloc: Global, value: &Value, count: usize, act: Act) -> Result<Ask, Unread>
    ensures { Reads result (ask_to_do count (view value.now) act) }
{
    if !has_members(value, count) {
        return Err(Unread::Shape);
    }
    let stamp = stamp_of(alloc, value)?;
    Ok(Ask::Do(stamp, act))
}

/// The ask for a look, in an object of so many members.
fn see(value: &Value, count: usize, look: Look) -> Result<Ask, Unread>
    ensures { Reads result (ask_to_see count (view value.now) look) }
{
    if !has_members(value, count) {
        return Err(Unread::Shape);
    }
    Ok(Ask::See(look))
}

/// What an ask of this form says.
#[tactic(auto, unfolding(crate::specs::Asks::ask_of_form))]
fn ask_of_form(alloc: Global, version: u32, value: &Value, form: Form) -> Result<Ask, Unread>
    ensures { Reads result (ask_of_form version (view value.now) form) }
{
    match form {
        Form::Scan => do_act(alloc, value, 6, scan_of(alloc, value)?),
        Form::Spoil => do_act(alloc, value, 5, Act::Spoil(member(alloc, value, "ballot")?)),
        Form::Void => do_act(alloc, value, 5, Act::Void(member(alloc, value, "ballot")?)),
        Form::Audit => do_act(alloc, value, 6, audit_of(alloc, version, value)?),
        Form::Close => do_act(alloc, value, 4, Act::Close),
        Form::Draw => do_act(alloc, value, 5, Act::Draw(member(alloc, value, "draw")?)),
        Form::Claim => do_act(alloc, value, 7, claim_of(alloc, version, value)?),
        Form::Receipt => see(value, 2, Look::Receipt(member(alloc, value, "ballot")?)),
        Form::Totals => see(value, 1, Look::Totals),
    }
}

/// The ask that a JSON value is.
#[tactic(auto, unfolding(crate::specs::Asks::ask_in))]
fn ask_in(alloc: Global, version: u32, value: &Value) -> Result<Ask, Unread>
    ensures { Reads result (ask_in version (view value.now)) }
{
    match form_of(value) {
        Some(form) => ask_of_form(alloc, version, value, form),
        None => Err(Unread::Shape),
    }
}

/// The ask that the bytes are, by what is said alone.
#[tactic(auto, unfolding(crate::specs::Asks::asked))]
fn read_ask(alloc: Global, version: u32, bytes: &[u8]) -> Result<Ask, AskFault>
    ensures { IsAsked result (asked version bytes.now) }
{
    let Ok(found) = value_of(alloc, bytes) else {
        return Err(AskFault::NoMemory);
    };
    let Some(value) = found else {
        return Err(AskFault::NotJson);
    };
    match ask_in(alloc, version, &value) {
        Ok(ask) => Ok(ask),
        Err(Unread::Shape) => Err(AskFault::Shape),
        Err(Unread::NoMemory) => Err(AskFault::NoMemory),
    }
}

/// Reads an ask: a JSON object of one of nine forms, in UTF-8. Codes are those of the version of the record, 1 or 2;
/// in any other version no text is a code.
///
/// An object has exactly the members of its form, in any order; of a name that comes twice the last value stands.
/// Numbers are whole, from 0 to 4,294,967,295, without fraction and exponent. The first of the faults is answered.
pub fn ask_of(alloc: Global, version: u32, bytes: &[u8]) -> Result<Ask, AskFault>
    ensures said { IsAsked result (asked version bytes.now) }
    ensures codes { IfOk result (HasCodes version) }
{
    read_ask(alloc, version, bytes)
}
