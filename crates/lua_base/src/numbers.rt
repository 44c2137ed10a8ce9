//! Texts as numbers to a base.

ghost use Rattle.std.specs.Prelude.{◌≡◌, ◌≤◌, IfSome};
ghost use Rattle.lua_values.specs.Answers.{builtin_answer};
ghost use Rattle.lua_values.specs.Ids.{ids_of};
ghost use Rattle.lua_values.specs.Lending.{with_budget};
ghost use Rattle.lua_coroutines.specs.Hosts.{IsOfHeap};
ghost use Rattle.lua_base.specs.OfValues.{base_in, signed_to_base, number_or_nil, reads_number};

use lua_arguments::{give_value, tick_all};
use lua_ops::number_of;
use lua_values::{BuiltinResult, Heap, Value};

/// A base, from 2 to 36.
pub(crate) fn base_in(number: Option<i64>) -> Option<u64>
    ensures base { result ≡ base_in number }
    ensures range { IfSome result (λ base. (1 ≤ base) × (base ≤ 36)) }
{
    match number {
        None => None,
        Some(number) if number < 2 || number > 36 => None,
        Some(number) => Some(number as u64),
    }
}

/// A sign or none, and a numeral to a base.
pub(crate) fn signed_to_base(base: u64, text: &[u8]) -> Option<i64>
    requires { (1 ≤ base) × (base ≤ 36) }
    ensures { result ≡ signed_to_base base text.now }
{
    if text.starts_with(b"-") {
        return match number_of(base, &text[1..]) {
            Some(number) => Some(-number),
            None => None,
        };
    }
    if text.starts_with(b"+") {
        return number_of(base, &text[1..]);
    }
    number_of(base, text)
}

/// The value of a number, or nil.
fn number_or_nil(number: Option<i64>) -> Value
    ensures { result ≡ number_or_nil number }
{
    match number {
        None => Value::Nil,
        Some(number) => Value::Int(number),
    }
}

/// Pays for the reading of a text, and answers the number.
pub(crate) fn read_number(heap: &mut Heap, text: &[u8], number: Option<i64>) -> BuiltinResult
    ensures answer { IfSome (builtin_answer result) (λ a. reads_number text.now number heap.old ≡ (a, heap.new)) }
    ensures own { IfSome (builtin_answer result) (IsOfHeap (ids_of heap.new)) }
    ensures others { heap.new ≡ with_budget heap.old heap.new.used }
{
    match tick_all(heap, text.len() / 64) {
        Ok(()) => give_value(heap, number_or_nil(number)),
        Err(stop) => BuiltinResult::Stop(stop),
    }
}
