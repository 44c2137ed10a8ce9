//! Replies as JSON.

ghost use Rattle.std.specs.Prelude.{◌≡◌, All, IfOk, IfSome, take};
ghost use Rattle.std.specs.Option.{option_map_or};
ghost use Rattle.std.specs.Str.{IsUtf8};
ghost use Rattle.serde_json.specs.Data.{null, string};
ghost use Rattle.serde_json.specs.View.{view};
ghost use Rattle.zp_calls.specs.Replies.{IsPrintable};
ghost use Rattle.zp_props.specs.Settings.{IsValue};
ghost use Rattle.zc_reply.specs.Journal.{array_of};
ghost use Rattle.zc_reply.specs.Records.{value_data};
ghost use Rattle.zc_reply.specs.Replies.{reply_data, verdict_data, names_data, property_data};

use crate::json::{ToJson, array_of};
use crate::record::setting_value;
use serde_json::{Value, json};
use std::alloc::{AllocError, Global};
use zp_calls::Reply;
use zp_names::{Bytes, Sequence, Texts, Verdict};
use zp_props::PropValue;

/// How many details a reply shows.
const MOST_DETAILS: usize = 256;

/// The details that a reply shows.
#[tactic(auto, using(std::proofs::lemmas::List::take_min))]
fn shown(details: &[Bytes]) -> &[Bytes]
    ensures { result.now ≡ take 256 details.now }
{
    &details[..MOST_DETAILS.min(details.len())]
}

fn verdict_value(alloc: Global, verdict: &Verdict) -> Result<Value, AllocError>
    requires { All IsUtf8 verdict.now.details }
    ensures { IfOk result (λ v. view v ≡ verdict_data verdict.now.errno verdict.now.details) }
{
    let details = verdict.details.as_slice();
    if details.is_empty() {
        return json!(in alloc; {"errno": verdict.errno});
    }
    let shown = array_of(alloc, shown(details))?;
    json!(in alloc; {"details": shown, "errno": verdict.errno})
}

fn names_value(alloc: Global, names: &Texts) -> Result<Value, AllocError>
    requires { All IsUtf8 names.now }
    ensures { IfOk result (λ v. view v ≡ names_data names.now) }
{
    let names = array_of(alloc, names.as_slice())?;
    json!(in alloc; {"errno": 0u32, "names": names})
}

/// A text, or null.
fn text_or_null(alloc: Global, text: &Option<Bytes>) -> Result<Value, AllocError>
    requires { IfSome text.now IsUtf8 }
    ensures { IfOk result (λ v. view v ≡ option_map_or string text.now null) }
{
    match text {
        Some(text) => text.to_json(alloc),
        None => Ok(Value::Null),
    }
}

/// The value of a property, or null.
fn value_or_null(alloc: Global, value: &Option<PropValue>) -> Result<Value, AllocError>
    requires { IfSome value.now IsValue }
    ensures { IfOk result (λ v. view v ≡ option_map_or value_data value.now null) }
{
    match value {
        Some(value) => setting_value(alloc, value),
        None => Ok(Value::Null),
    }
}

fn property_value(
    alloc: Global,
    value: &Option<PropValue>,
    source: &Option<Bytes>,
) -> Result<Value, AllocError>
    requires value { IfSome value.now IsValue }
    requires source { IfSome source.now IsUtf8 }
    ensures { IfOk result (λ v. view v ≡ property_data value.now source.now) }
{
    let source = text_or_null(alloc, source)?;
    let value = value_or_null(alloc, value)?;
    json!(in alloc; {"errno": 0u32, "source": source, "value": value})
}

impl ToJson for Reply {
    ghost as_data = { reply_data };

    ghost can_print = { IsPrintable };

    fn to_json(&self, alloc: Global) -> Result<Value, AllocError> {
        match self {
            Reply::Errno(verdict) => verdict_value(alloc, verdict),
            Reply::Names(names) => names_value(alloc, names),
            Reply::Prop { value, source } => property_value(alloc, value, source),
            Reply::Exists(there) => json!(in alloc; {"errno": 0u32, "exists": *there}),
        }
    }
}

impl ToJson for Sequence<Reply> {
    ghost as_data = { array_of reply_data };

    ghost can_print = { All IsPrintable };

    fn to_json(&self, alloc: Global) -> Result<Value, AllocError> {
        array_of(alloc, self.as_slice())
    }
}
