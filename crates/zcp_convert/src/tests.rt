//! Values are told where there is memory.

ghost use Rattle.std.specs.Prelude.{◌≡◌, ◌<◌};

use crate::to_json;
use lua_values::{Heap, LuaText, Value};
use std::alloc::Global;
use std::test::Fail;
use zc_budget::Budget;

/// The JSON text of a value, or a text that no value has.
fn told(alloc: Global, value: &Value) -> Result<String, Fail> {
    let heap = Heap::new(alloc, Budget::new(100, 1_000))?;
    match to_json(alloc, &heap, value) {
        Ok(text) => Ok(String::from_str(alloc, text.text())?),
        Err(_) => Ok(String::from_str(alloc, "refused")?),
    }
}

#[test]
fn texts_are_told(rt: HostRuntime) -> Result<(), Fail> {
    let alloc = rt.alloc();
    let text = Value::Text(LuaText::from_slice(alloc, b"a\"b")?);
    let json = told(alloc, &text)?;
    assert!(rt; json.as_str() == "\"a\\\"b\"");
    Ok(())
}

#[test]
fn other_values_are_told(rt: HostRuntime) -> Result<(), Fail> {
    let alloc = rt.alloc();
    let nil = told(alloc, &Value::Nil)?;
    assert!(rt; nil.as_str() == "null");
    let truth = told(alloc, &Value::Bool(true))?;
    assert!(rt; truth.as_str() == "true");
    let number = told(alloc, &Value::Int(-5))?;
    assert!(rt; number.as_str() == "-5");
    Ok(())
}
