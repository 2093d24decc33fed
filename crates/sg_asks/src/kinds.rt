//! What stands in a JSON value, read by its kind.
ghost use Rattle.std.specs.Prelude.{◌≡◌, ℕ, ◌∷◌, ◌<◌, ◌+◌, List, Option, length, drop};
ghost use Rattle.serde_json.specs.Data.{Data};
ghost use Rattle.serde_json.specs.View.{view, items_view};
ghost use Rattle.sg_asks.specs.Members.{each_by, has_members, list_by, member_by, number_in, secret_in, text_in};
ghost use Rattle.sg_asks.specs.inside.Reading.{Reads};

use crate::unread::Unread;
use serde_json::Value;
use sg_lines::read_key;
use sg_plan::{Items, Word};
use std::alloc::Global;

/// What a JSON value may be read as.
pub(crate) trait Kind: Drop {
    ghost kind: { Data → Option Self };

    /// Reads the value.
    fn read(alloc: Global, value: &Value) -> Result<Self, Unread>
        ensures { Reads result (kind (view value.now)) };
}

/// A whole number of 32 bits.
#[tactic(auto, unfolding(crate::specs::Members::number_in))]
fn number_of(value: &Value) -> Result<u32, Unread>
    ensures { Reads result (number_in (view value.now)) }
{
    match value.as_u64() {
        Some(number) if number < 4_294_967_296 => Ok(number as u32),
        _ => Err(Unread::Shape),
    }
}

impl Kind for u32 {
    ghost kind = { number_in };

    fn read(_: Global, value: &Value) -> Result<u32, Unread> {
        number_of(value)
    }
}

/// A secret: 32 lower-case hexadecimal digits.
#[tactic(auto, unfolding(crate::specs::Members::secret_in))]
fn secret_of(value: &Value) -> Result<[u8; 16], Unread>
    ensures { Reads result (secret_in (view value.now)) }
{
    match value.as_str() {
        Some(text) => read_key(text.as_bytes()).ok_or(Unread::Shape),
        None => Err(Unread::Shape),
    }
}

impl Kind for [u8; 16] {
    ghost kind = { secret_in };

    fn read(_: Global, value: &Value) -> Result<[u8; 16], Unread> {
        secret_of(value)
    }
}

impl Kind for Word {
    ghost kind = { text_in };

    fn read(alloc: Global, value: &Value) -> Result<Word, Unread> {
        let Some(text) = value.as_str() else {
            return Err(Unread::Shape);
        };
        let mut word = Word::new(alloc);
        word.extend(text.as_bytes())?;
        Ok(word)
    }
}

/// The item at `at`.
pub(crate) fn item(list: &[Value], at: usize) -> &Value
    requires { at < length list.now }
    ensures { drop at list.now ≡ result.now ∷ drop (at + 1) list.now }
{
    &list[at]
}

/// Each item, read by its kind.
fn each<T: Kind>(alloc: Global, list: &[Value]) -> Result<Items<T>, Unread>
    ensures { Reads result (each_by T.kind (items_view list.now)) }
{
    let mut items = Items::new(alloc);
    for at in 0..list.len() {
        items.push(T::read(alloc, item(list, at))?)?;
    }
    Ok(items)
}

impl<T: Kind> Kind for Items<T> {
    ghost kind = { list_by T.kind };

    fn read(alloc: Global, value: &Value) -> Result<Items<T>, Unread> {
        match value {
            Value::Array(list) => each(alloc, list.as_slice()),
            _ => Err(Unread::Shape),
        }
    }
}

/// The member of that name, read by its kind.
pub(crate) fn member<T: Kind>(alloc: Global, value: &Value, name: &str) -> Result<T, Unread>
    ensures { Reads result (member_by T.kind name.now (view value.now)) }
{
    match value.get(name) {
        Some(found) => T::read(alloc, found),
        None => Err(Unread::Shape),
    }
}

/// The value is an object of so many members.
#[tactic(auto, unfolding(crate::specs::Members::has_members))]
pub(crate) fn has_members(value: &Value, count: usize) -> bool
    ensures { result ≡ has_members count (view value.now) }
{
    match value {
        Value::Object(members) => members.len() == count,
        _ => false,
    }
}
