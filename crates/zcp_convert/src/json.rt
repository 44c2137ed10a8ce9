//! Values in JSON.

ghost use Rattle.std.specs.Prelude.{◌≡◌, ◌≤◌, false, IfOk};
ghost use Rattle.serde_json.specs.Data.{depth};
ghost use Rattle.serde_json.specs.Read.{max_depth};
ghost use Rattle.serde_json.specs.View.{view};
ghost use Rattle.serde_json.specs.Written.{has_float, compact_text};
ghost use Rattle.zcp_convert.specs.Converting.{IsConverted, json_map, text_json, plain_of, short_enough, json_of};

use crate::{ConvertError, ReturnedType};
use lua_values::{Heap, Value};
use serde_json::Value as Json;
use std::alloc::Global;
use std::str;
use zp_calls::JsonText;

/// The greatest number of bytes of the JSON text of what a program returns.
pub const MOST_TEXT: u64 = 131_072;

/// A text in JSON.
#[tactic(auto, using(zp_props::proofs::Texts::utf8_holds, zp_props::proofs::Texts::utf8_fails))]
fn text_value(alloc: Global, bytes: &[u8]) -> Result<Json, ConvertError>
    ensures { IsConverted (text_json bytes.now) (json_map view result) }
{
    match str::from_utf8(bytes) {
        Ok(text) => Ok(Json::try_from_str(alloc, text)?),
        Err(_) => Err(ConvertError::NotUtf8),
    }
}

/// A value in JSON.
fn plain_value(alloc: Global, value: &Value) -> Result<Json, ConvertError>
    ensures plain { IsConverted (plain_of value.now) (json_map view result) }
    ensures whole { IfOk result (λ json. has_float (view json) ≡ false) }
    ensures flat { IfOk result (λ json. depth (view json) ≤ max_depth) }
{
    match value {
        Value::Nil => Ok(Json::Null),
        Value::Bool(b) => Ok(Json::from(*b)),
        Value::Int(i) => Ok(Json::from(*i)),
        Value::Text(text) => text_value(alloc, text.as_slice()),
        Value::Table(_) => Err(ConvertError::NoPlainValue(ReturnedType::Table)),
        Value::Thread(_) => Err(ConvertError::NoPlainValue(ReturnedType::Thread)),
        Value::Closure(_) | Value::Builtin(_) | Value::Iter(_) => {
            Err(ConvertError::NoPlainValue(ReturnedType::Function))
        }
    }
}

/// The text of a JSON value, where it is short enough to be returned.
fn short_text(alloc: Global, json: &Json) -> Result<JsonText, ConvertError>
    requires whole { has_float (view json.now) ≡ false }
    requires flat { depth (view json.now) ≤ max_depth }
    ensures { IsConverted (short_enough (compact_text (view json.now))) result }
{
    let text = JsonText::of(alloc, json)?;
    let count = text.text().len() as u64;
    if MOST_TEXT < count {
        return Err(ConvertError::TooLarge(count));
    }
    Ok(text)
}

/// The JSON text of a value that a program returns: `null` for nil, and a truth value, a number or a text in UTF-8 as it is.
/// No other value has one; its text has at most 131,072 bytes.
pub fn to_json(alloc: Global, _heap: &Heap, value: &Value) -> Result<JsonText, ConvertError>
    ensures { IsConverted (json_of value.now) result }
{
    let json = plain_value(alloc, value)?;
    short_text(alloc, &json)
}
