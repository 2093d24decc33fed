//! The JSON reading of bytes.
ghost use Rattle.std.specs.Prelude.{◌≡◌, None, IfOk, option_map};
ghost use Rattle.serde_json.specs.View.{view};
ghost use Rattle.serde_json.specs.Errors.{IsMemory};
ghost use Rattle.sg_asks.specs.Json.{json_of};

use serde_json::{Error, Value};
use sg_plan::NoMemory;
use std::alloc::Global;
use std::str;

/// The value that the whole of the bytes is, where they are UTF-8 and JSON of depth at most 127.
#[tactic(auto, unfolding(crate::specs::Json::json_of))]
pub(crate) fn value_of(alloc: Global, bytes: &[u8]) -> Result<Option<Value>, NoMemory>
    ensures { IfOk result (λ found. option_map view found ≡ json_of bytes.now) }
{
    let Ok(text) = str::from_utf8(bytes) else {
        return Ok(None);
    };
    match Value::from_str(alloc, text) {
        Ok(value) => Ok(Some(value)),
        Err(error) => none_unless_memory(&error),
    }
}

/// Nothing, unless the error is want of memory.
fn none_unless_memory(error: &Error) -> Result<Option<Value>, NoMemory>
    ensures { IfOk result (λ found. (found ≡ None) × (IsMemory error.now → ⊥)) }
{
    if error.is_memory() {
        return Err(NoMemory);
    }
    Ok(None)
}
