//! JSON texts.

ghost use Rattle.std.specs.Prelude.{◌≡◌, ◌≤◌, false, Some, IfOk};
ghost use Rattle.serde_json.specs.Data.{depth};
ghost use Rattle.serde_json.specs.Read.{read, max_depth};
ghost use Rattle.serde_json.specs.View.{view};
ghost use Rattle.serde_json.specs.Written.{has_float, compact_text};
ghost use Rattle.zp_calls.specs.JsonTexts.{IsJsonText};

use serde_json::Value;
use std::alloc::Global;
use std::marker::Model;
use zc_io::NoMemory;

/// The compact JSON text (RFC 8259) of a value whose numbers are whole. Contracts see it as its bytes.
#[derive(Debug, Drop)]
pub struct JsonText {
    text: String,
}

impl Model for JsonText {
    ghost use Rattle.std.specs.Prelude.{List, ℕ, string_bytes};
    ghost use Rattle.zp_calls.specs.JsonTexts.{IsJsonText};

    ghost Value = { List ℕ };

    ghost view = { λ a. string_bytes a.text };

    ghost invariant = { λ a. IsJsonText (string_bytes a.text) };
}

impl JsonText {
    /// The text of a value.
    pub fn of(alloc: Global, value: &Value) -> Result<JsonText, NoMemory>
        requires whole { has_float (view value.now) ≡ false }
        requires depth { depth (view value.now) ≤ max_depth }
        ensures { IfOk result (λ text. text ≡ compact_text (view value.now)) }
    {
        let text = value.to_string(alloc)?;
        Ok(JsonText { text })
    }

    /// The text.
    pub fn text(&self) -> &str
        ensures text { result.now ≡ self.now }
        ensures json { IsJsonText self.now }
    {
        self.text.as_str()
    }

    /// The value that the text tells.
    pub fn value(&self, alloc: Global) -> Result<Value, NoMemory>
        ensures value { IfOk result (λ value. read self.now ≡ Some (view value)) }
        ensures json { IsJsonText self.now }
    {
        match Value::from_str(alloc, self.text.as_str()) {
            Ok(value) => Ok(value),
            Err(_) => Err(NoMemory),
        }
    }
}
