//! Arguments, and what they are.

ghost use Rattle.std.specs.Prelude.{◌≡◌, ◌++◌, ◌<◌, ◌∷◌, [], drop, length, All, IfOk, IfSome, slice_get};
ghost use Rattle.lua_meaning.specs.Values.{is_nil, first};
ghost use Rattle.lua_values.specs.Ids.{Ids, IsOf};
ghost use Rattle.lua_test_host.specs.FewFunctions.{table_of, plain_text_in, second, text_left};

use lua_values::{IterState, LuaText, TableId, Value, ValueList};
use std::alloc::Global;
use zc_io::NoMemory;

/// Whether a value is nil.
fn is_nil(value: &Value) -> bool
    ensures { result ≡ is_nil value.now }
{
    match value {
        Value::Nil => true,
        _ => false,
    }
}

/// The number of a table.
fn table_of(value: &Value) -> Option<TableId>
    ensures { result ≡ table_of value.now }
{
    match value {
        Value::Table(table) => Some(*table),
        _ => None,
    }
}

/// The bytes of a text.
fn text_of(value: &Value) -> Result<Option<LuaText>, NoMemory>
    ensures { IfOk result (λ text. text ≡ plain_text_in value.now) }
{
    match value {
        Value::Text(text) => Ok(Some(text.clone()?)),
        _ => Ok(None),
    }
}

/// Whether there is no first argument, or nil.
pub(crate) fn has_nil(args: &[Value]) -> bool
    ensures { result ≡ is_nil (first args.now) }
{
    match args.first() {
        None => true,
        Some(value) => is_nil(value),
    }
}

/// The table that the first argument is.
pub(crate) fn first_table(args: &[Value]) -> Option<TableId>
    ensures table { result ≡ table_of (first args.now) }
    ensures own { (ids : Ids) → All (IsOf ids) args.now → IfSome result (λ t. t < ids.tables) }
{
    match args.first() {
        None => None,
        Some(value) => table_of(value),
    }
}

/// The arguments behind the first.
fn others(args: &[Value]) -> &[Value]
    ensures others { result.now ≡ drop 1 args.now }
    ensures own { (ids : Ids) → All (IsOf ids) args.now → All (IsOf ids) result.now }
{
    &args[1.min(args.len())..]
}

/// The table that the second argument is.
pub(crate) fn second_table(args: &[Value]) -> Option<TableId>
    ensures table { result ≡ table_of (second args.now) }
    ensures own { (ids : Ids) → All (IsOf ids) args.now → IfSome result (λ t. t < ids.tables) }
{
    first_table(others(args))
}

/// The text that the first argument is.
pub(crate) fn first_text(args: &[Value]) -> Result<Option<LuaText>, NoMemory>
    ensures { IfOk result (λ text. text ≡ plain_text_in (first args.now)) }
{
    match args.first() {
        None => Ok(None),
        Some(value) => Ok(text_of(value)?),
    }
}

/// The first argument, or nil.
pub(crate) fn first_value(args: &[Value]) -> Result<Value, NoMemory>
    ensures value { IfOk result (λ v. v ≡ first args.now) }
    ensures own { (ids : Ids) → All (IsOf ids) args.now → IfOk result (IsOf ids) }
{
    match args.first() {
        None => Ok(Value::Nil),
        Some(value) => Ok(value.clone()?),
    }
}

/// Copies of the arguments behind the first.
pub(crate) fn other_values(alloc: Global, args: &[Value]) -> Result<ValueList, NoMemory>
    ensures values { IfOk result (λ list. list ≡ drop 1 args.now) }
    ensures own { (ids : Ids) → All (IsOf ids) args.now → IfOk result (λ list. All (IsOf ids) list) }
{
    Ok(ValueList::from_slice(alloc, others(args))?)
}

/// Copies of the arguments, twice.
pub(crate) fn twice(alloc: Global, args: &[Value]) -> Result<ValueList, NoMemory>
    ensures values { IfOk result (λ list. list ≡ args.now ++ args.now) }
    ensures own { (ids : Ids) → All (IsOf ids) args.now → IfOk result (λ list. All (IsOf ids) list) }
{
    let mut list = ValueList::from_slice(alloc, args)?;
    list.append(ValueList::from_slice(alloc, args)?)?;
    Ok(list)
}
