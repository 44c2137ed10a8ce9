//! Arguments by their places, from 0.

ghost use Rattle.std.specs.Prelude.{◌≡◌, ◌<◌, ◌≤◌, All, IfOk, IfSome, length};
ghost use Rattle.std.specs.Option.{option_copied};
ghost use Rattle.lua_values.specs.Ids.{ids_of, IsOf};
ghost use Rattle.lua_arguments.specs.Arguments.{argument, table_argument, thread_argument, function_argument, number_argument, text_argument, is_given, number_or, text_or, number_within};

use itoa::Buffer;
use lua_ops::to_int;
use lua_values::{Heap, LuaText, TableId, ThreadId, Value};
use std::alloc::{AllocError, Global};

/// The argument at a place, nil among them.
pub fn argument<'a>(_heap: &Heap, args: &'a [Value], place: usize) -> Option<&'a Value>
    requires { All (IsOf (ids_of _heap.now)) args.now }
    ensures value { option_copied result ≡ argument args.now place }
    ensures own { IfSome (option_copied result) (IsOf (ids_of _heap.now)) }
{
    args.get(place)
}

/// The argument at a place, where it is a table.
pub fn table_argument(heap: &Heap, args: &[Value], place: usize) -> Option<TableId>
    requires { All (IsOf (ids_of heap.now)) args.now }
    ensures value { result ≡ table_argument args.now place }
    ensures own { IfSome result (λ t. t < length heap.now.tables) }
{
    match argument(heap, args, place) {
        Some(Value::Table(table)) => Some(*table),
        _ => None,
    }
}

/// The argument at a place, where it is a coroutine.
pub fn thread_argument(heap: &Heap, args: &[Value], place: usize) -> Option<ThreadId>
    requires { All (IsOf (ids_of heap.now)) args.now }
    ensures value { result ≡ thread_argument args.now place }
    ensures own { IfSome result (λ i. i ≤ heap.now.threads) }
{
    match argument(heap, args, place) {
        Some(Value::Thread(thread)) => Some(*thread),
        _ => None,
    }
}

/// The argument at a place, where it is a function.
pub fn function_argument<'a>(heap: &Heap, args: &'a [Value], place: usize) -> Option<&'a Value>
    requires { All (IsOf (ids_of heap.now)) args.now }
    ensures value { option_copied result ≡ function_argument args.now place }
    ensures own { IfSome (option_copied result) (IsOf (ids_of heap.now)) }
{
    match argument(heap, args, place) {
        Some(function @ (Value::Closure(_) | Value::Builtin(_) | Value::Iter(_))) => Some(function),
        _ => None,
    }
}

/// The number that the argument at a place counts as.
pub fn number_argument(args: &[Value], place: usize) -> Option<i64>
    ensures { result ≡ number_argument args.now place }
{
    match args.get(place) {
        Some(value) => to_int(value),
        None => None,
    }
}

/// The text that the argument at a place counts as. A number counts as the text of its digits.
pub fn text_argument(
    alloc: Global,
    args: &[Value],
    place: usize,
) -> Result<Option<LuaText>, AllocError>
    ensures { IfOk result (λ text. text ≡ text_argument args.now place) }
{
    match args.get(place) {
        Some(Value::Text(text)) => Ok(Some(text.clone()?)),
        Some(Value::Int(number)) => {
            let mut buffer = Buffer::new();
            let text = buffer.format(*number).as_bytes();
            Ok(Some(LuaText::from_slice(alloc, text)?))
        }
        _ => Ok(None),
    }
}

/// Whether there is an argument at a place that isn't nil.
pub fn is_given(args: &[Value], place: usize) -> bool
    ensures { result ≡ is_given args.now place }
{
    match args.get(place) {
        None => false,
        Some(Value::Nil) => false,
        Some(_) => true,
    }
}

/// The number that an optional argument counts as, or the one that stands for a missing one.
pub fn number_or(default: i64, args: &[Value], place: usize) -> Option<i64>
    ensures { result ≡ number_or default args.now place }
{
    if is_given(args, place) {
        number_argument(args, place)
    } else {
        Some(default)
    }
}

/// The text that an optional argument counts as, or the one that stands for a missing one.
pub fn text_or(
    alloc: Global,
    default: &[u8],
    args: &[Value],
    place: usize,
) -> Result<Option<LuaText>, AllocError>
    ensures { IfOk result (λ text. text ≡ text_or default.now args.now place) }
{
    if is_given(args, place) {
        text_argument(alloc, args, place)
    } else {
        Ok(Some(LuaText::from_slice(alloc, default)?))
    }
}

/// A number, where it is in a range, whose ends are in it.
pub fn number_within(least: i64, most: i64, number: Option<i64>) -> Option<i64>
    ensures { result ≡ number_within least most number }
{
    match number {
        Some(number) if least <= number && number <= most => Some(number),
        _ => None,
    }
}
