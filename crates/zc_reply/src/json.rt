//! JSON values of lists and of texts.

ghost use Rattle.std.specs.Prelude.{◌≡◌, All, IfOk};
ghost use Rattle.std.specs.Str.{IsUtf8};
ghost use Rattle.serde_json.specs.Data.{Data, string};
ghost use Rattle.serde_json.specs.View.{view};
ghost use Rattle.zc_reply.specs.Journal.{array_of};

use serde_json::Value;
use std::alloc::{AllocError, Global};
use std::str;
use zp_names::Bytes;

/// What has a JSON value.
pub(crate) trait ToJson {
    /// The value.
    ghost as_data: { Self → Data };

    /// Whether it has one: JSON texts are UTF-8 (RFC 8259, section 8.1).
    ghost can_print: { Self → Type 0 };

    fn to_json(&self, alloc: Global) -> Result<Value, AllocError>
        requires { can_print self.now }
        ensures { IfOk result (λ v. view v ≡ as_data self.now) };
}

/// The array of the values of these.
pub(crate) fn array_of<T: ToJson>(alloc: Global, items: &[T]) -> Result<Value, AllocError>
    requires { All T.can_print items.now }
    ensures { IfOk result (λ v. view v ≡ array_of T.as_data items.now) }
{
    let mut values = Vec::new(alloc);
    for item in items {
        values.push(item.to_json(alloc)?)?;
    }
    Ok(Value::Array(values))
}

/// These bytes as a text.
pub(crate) fn text_of(bytes: &[u8]) -> &str
    requires { IsUtf8 bytes.now }
    ensures { result.now ≡ bytes.now }
{
    str::from_utf8(bytes).unwrap()
}

impl ToJson for Bytes {
    ghost as_data = { string };

    ghost can_print = { IsUtf8 };

    fn to_json(&self, alloc: Global) -> Result<Value, AllocError> {
        Value::try_from_str(alloc, text_of(self.as_slice()))
    }
}
