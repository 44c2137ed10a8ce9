//! Basic functions over any values (Lua 5.2 manual, 6.1).

ghost use Rattle.std.specs.Prelude.{◌≡◌, ◌≤◌, ◌<◌, ◌+◌, ◌/◌, All, IfSome, IfOk, length, pos, drop, option_map};
ghost use Rattle.lua_meaning.specs.Values.{truth};
ghost use Rattle.lua_arguments.specs.Answering.{gives_values, raises_value};
ghost use Rattle.lua_values.specs.Answers.{builtin_answer};
ghost use Rattle.lua_values.specs.Ids.{ids_of, IsOf, AreLater};
ghost use Rattle.lua_values.specs.Lending.{with_budget};
ghost use Rattle.lua_coroutines.specs.Hosts.{IsOfHeap};
ghost use Rattle.lua_base.specs.OfValues.{fails_assertion, assert_call, collect_garbage_call, raises_error, error_call, raw_equal_call, select_call, to_number_by_base, to_number_call, to_string_call, tells_text, type_call};
ghost use Rattle.lua_base.specs.BaseCalls.{value_call};

use crate::function::ValueFunction;
use crate::levels::lines_from;
use crate::numbers::{base_in, read_number, signed_to_base};
use crate::selecting::{is_count_mark, selected_by};
use lua_arguments::{
    argument, bad_argument, give_text, give_value, is_given, number_argument, number_or, raise_at,
    raise_text, text_argument,
};
use lua_ops::{OpResult, equal, to_int, to_text, type_name, without_blanks};
use lua_values::{After, Builtin, BuiltinResult, Event, Heap, Lines, Value, ValueList};
use std::sync::ledger::Ledger;
use zc_budget::Steps;

/// The call of a basic function over any values.
pub(crate) fn value_call<L: Ledger>(
    heap: &mut Heap,
    function: ValueFunction,
    args: &[Value],
    lines: Lines,
    steps: &mut Steps<L>,
) -> BuiltinResult
    requires { All (IsOf (ids_of heap.old)) args.now }
    ensures answer { IfSome (builtin_answer result) (λ a. value_call function args.now lines.now heap.old ≡ (a, heap.new)) }
    ensures own { IfSome (builtin_answer result) (IsOfHeap (ids_of heap.new)) }
    ensures others { heap.new ≡ with_budget heap.old heap.new.used }
    ensures steps { steps.new ≤ steps.old + 4 }
{
    match function {
        ValueFunction::Assert => assert_values(heap, args, lines, steps),
        ValueFunction::CollectGarbage => give_value(heap, Value::Int(0)),
        ValueFunction::Error => error(heap, args, lines, steps),
        ValueFunction::RawEqual => raw_equal(heap, args, lines, steps),
        ValueFunction::Select => select(heap, args, lines, steps),
        ValueFunction::ToNumber => to_number(heap, args, lines, steps),
        ValueFunction::ToString => to_string(heap, args, lines, steps),
        ValueFunction::Type => type_of(heap, args, lines, steps),
    }
}

/// Whether a value counts as true.
fn is_true(value: &Value) -> bool
    ensures { result ≡ truth value.now }
{
    match value {
        Value::Nil => false,
        Value::Bool(truth) => *truth,
        _ => true,
    }
}

/// The arguments behind the first.
fn behind_first<'a>(_heap: &Heap, args: &'a [Value]) -> &'a [Value]
    requires { All (IsOf (ids_of _heap.now)) args.now }
    ensures value { result.now ≡ drop 1 args.now }
    ensures own { All (IsOf (ids_of _heap.now)) result.now }
{
    match args {
        [] => args,
        [_, ..] => &args[1..],
    }
}

/// Answers copies of values.
fn give_values(heap: &Heap, values: &[Value]) -> BuiltinResult
    requires { All (IsOf (ids_of heap.now)) values.now }
    ensures answer { IfSome (builtin_answer result) (λ a. gives_values values.now heap.now ≡ (a, heap.now)) }
    ensures own { IfSome (builtin_answer result) (IsOfHeap (ids_of heap.now)) }
{
    match ValueList::from_slice(heap.alloc(), values) {
        Ok(list) => BuiltinResult::Values(list),
        Err(_) => BuiltinResult::NoMemory,
    }
}

/// Raises a copy of a value.
fn raise_value(heap: &Heap, value: &Value) -> BuiltinResult
    requires { IsOf (ids_of heap.now) value.now }
    ensures answer { IfSome (builtin_answer result) (λ a. raises_value value.now heap.now ≡ (a, heap.now)) }
    ensures own { IfSome (builtin_answer result) (IsOfHeap (ids_of heap.now)) }
{
    match value.clone() {
        Ok(value) => BuiltinResult::Raise(value),
        Err(_) => BuiltinResult::NoMemory,
    }
}

/// An assertion that failed, with this message.
fn fail_assertion<L: Ledger>(
    heap: &mut Heap,
    message: &Value,
    steps: &mut Steps<L>,
) -> BuiltinResult
    requires { IsOf (ids_of heap.old) message.now }
    ensures answer { IfSome (builtin_answer result) (λ a. fails_assertion message.now heap.old ≡ (a, heap.new)) }
    ensures own { IfSome (builtin_answer result) (IsOfHeap (ids_of heap.new)) }
    ensures others { heap.new ≡ with_budget heap.old heap.new.used }
    ensures steps { steps.new ≤ steps.old + 1 }
{
    match message {
        Value::Nil => raise_text(heap, b"assertion failed!", steps),
        _ => raise_value(heap, message),
    }
}

/// `assert(v, m)`: all arguments where v is true.
fn assert_values<L: Ledger>(
    heap: &mut Heap,
    args: &[Value],
    lines: Lines,
    steps: &mut Steps<L>,
) -> BuiltinResult
    requires { All (IsOf (ids_of heap.old)) args.now }
    ensures answer { IfSome (builtin_answer result) (λ a. assert_call args.now lines.now heap.old ≡ (a, heap.new)) }
    ensures own { IfSome (builtin_answer result) (IsOfHeap (ids_of heap.new)) }
    ensures others { heap.new ≡ with_budget heap.old heap.new.used }
    ensures steps { steps.new ≤ steps.old + 2 }
{
    let Some(value) = argument(heap, args, 0) else {
        return bad_argument(heap, 1, Builtin::Assert, lines, steps);
    };
    if is_true(value) {
        return give_values(heap, args);
    }
    match argument(heap, args, 1) {
        None => fail_assertion(heap, &Value::Nil, steps),
        Some(message) => fail_assertion(heap, message, steps),
    }
}

/// Raises an error with the line of the call that a level calls up, where it is a text.
fn raise_error<L: Ledger>(
    heap: &mut Heap,
    value: &Value,
    lines: Lines,
    steps: &mut Steps<L>,
) -> BuiltinResult
    requires { IsOf (ids_of heap.old) value.now }
    ensures answer { IfSome (builtin_answer result) (λ a. raises_error value.now lines.now heap.old ≡ (a, heap.new)) }
    ensures own { IfSome (builtin_answer result) (IsOfHeap (ids_of heap.new)) }
    ensures others { heap.new ≡ with_budget heap.old heap.new.used }
    ensures steps { steps.new ≤ steps.old + 1 }
{
    match value {
        Value::Text(text) if !lines.is_empty() => raise_at(heap, text.as_slice(), lines, steps),
        _ => raise_value(heap, value),
    }
}

/// `error(v, level)`.
fn error<L: Ledger>(
    heap: &mut Heap,
    args: &[Value],
    lines: Lines,
    steps: &mut Steps<L>,
) -> BuiltinResult
    requires { All (IsOf (ids_of heap.old)) args.now }
    ensures answer { IfSome (builtin_answer result) (λ a. error_call args.now lines.now heap.old ≡ (a, heap.new)) }
    ensures own { IfSome (builtin_answer result) (IsOfHeap (ids_of heap.new)) }
    ensures others { heap.new ≡ with_budget heap.old heap.new.used }
    ensures steps { steps.new ≤ steps.old + 2 }
{
    let Some(value) = argument(heap, args, 0) else {
        return bad_argument(heap, 1, Builtin::Error, lines, steps);
    };
    match number_or(1, args, 1) {
        None => bad_argument(heap, 2, Builtin::Error, lines, steps),
        Some(level) => raise_error(heap, value, lines_from(level, lines), steps),
    }
}

/// `rawequal(a, b)`.
fn raw_equal<L: Ledger>(
    heap: &mut Heap,
    args: &[Value],
    lines: Lines,
    steps: &mut Steps<L>,
) -> BuiltinResult
    requires { All (IsOf (ids_of heap.old)) args.now }
    ensures answer { IfSome (builtin_answer result) (λ a. raw_equal_call args.now lines.now heap.old ≡ (a, heap.new)) }
    ensures own { IfSome (builtin_answer result) (IsOfHeap (ids_of heap.new)) }
    ensures others { heap.new ≡ with_budget heap.old heap.new.used }
    ensures steps { steps.new ≤ steps.old + 2 }
{
    let Some(a) = argument(heap, args, 0) else {
        return bad_argument(heap, 1, Builtin::RawEqual, lines, steps);
    };
    match argument(heap, args, 1) {
        None => bad_argument(heap, 2, Builtin::RawEqual, lines, steps),
        Some(b) => give_value(heap, Value::Bool(equal(a, b))),
    }
}

/// `select(n, ..)`.
fn select<L: Ledger>(
    heap: &mut Heap,
    args: &[Value],
    lines: Lines,
    steps: &mut Steps<L>,
) -> BuiltinResult
    requires { All (IsOf (ids_of heap.old)) args.now }
    ensures answer { IfSome (builtin_answer result) (λ a. select_call args.now lines.now heap.old ≡ (a, heap.new)) }
    ensures own { IfSome (builtin_answer result) (IsOfHeap (ids_of heap.new)) }
    ensures others { heap.new ≡ with_budget heap.old heap.new.used }
    ensures steps { steps.new ≤ steps.old + 2 }
{
    let others = behind_first(heap, args);
    if is_count_mark(args.get(0)) {
        return give_value(heap, Value::Int(others.len() as i64));
    }
    match selected_by(number_argument(args, 0), others) {
        None => bad_argument(heap, 1, Builtin::Select, lines, steps),
        Some(values) => give_values(heap, values),
    }
}

/// `tonumber(v, base)` with a base.
fn to_number_by_base<L: Ledger>(
    heap: &mut Heap,
    args: &[Value],
    lines: Lines,
    steps: &mut Steps<L>,
) -> BuiltinResult
    requires { All (IsOf (ids_of heap.old)) args.now }
    ensures answer { IfSome (builtin_answer result) (λ a. to_number_by_base args.now lines.now heap.old ≡ (a, heap.new)) }
    ensures own { IfSome (builtin_answer result) (IsOfHeap (ids_of heap.new)) }
    ensures others { heap.new ≡ with_budget heap.old heap.new.used }
    ensures steps { steps.new ≤ steps.old + 2 }
{
    let text = match text_argument(heap.alloc(), args, 0) {
        Err(_) => return BuiltinResult::NoMemory,
        Ok(None) => return bad_argument(heap, 1, Builtin::ToNumber, lines, steps),
        Ok(Some(text)) => text,
    };
    match base_in(number_argument(args, 1)) {
        None => bad_argument(heap, 2, Builtin::ToNumber, lines, steps),
        Some(base) => {
            let number = signed_to_base(base, without_blanks(text.as_slice()));
            read_number(heap, text.as_slice(), number)
        }
    }
}

/// `tonumber(v, base)`.
fn to_number<L: Ledger>(
    heap: &mut Heap,
    args: &[Value],
    lines: Lines,
    steps: &mut Steps<L>,
) -> BuiltinResult
    requires { All (IsOf (ids_of heap.old)) args.now }
    ensures answer { IfSome (builtin_answer result) (λ a. to_number_call args.now lines.now heap.old ≡ (a, heap.new)) }
    ensures own { IfSome (builtin_answer result) (IsOfHeap (ids_of heap.new)) }
    ensures others { heap.new ≡ with_budget heap.old heap.new.used }
    ensures steps { steps.new ≤ steps.old + 2 }
{
    if is_given(args, 1) {
        return to_number_by_base(heap, args, lines, steps);
    }
    let Some(value) = argument(heap, args, 0) else {
        return bad_argument(heap, 1, Builtin::ToNumber, lines, steps);
    };
    match text_argument(heap.alloc(), args, 0) {
        Err(_) => BuiltinResult::NoMemory,
        Ok(None) => read_number(heap, b"", to_int(value)),
        Ok(Some(text)) => read_number(heap, text.as_slice(), to_int(value)),
    }
}

/// The text of a value, by a metamethod where there is one.
fn tell_text<L: Ledger>(
    heap: &mut Heap,
    metamethod: Value,
    value: &Value,
    steps: &mut Steps<L>,
) -> BuiltinResult
    requires metamethod { IsOf (ids_of heap.old) metamethod }
    requires value { IsOf (ids_of heap.old) value.now }
    ensures answer { IfSome (builtin_answer result) (λ a. tells_text metamethod value.now heap.old ≡ (a, heap.new)) }
    ensures own { IfSome (builtin_answer result) (IsOfHeap (ids_of heap.new)) }
    ensures others { heap.new ≡ with_budget heap.old heap.new.used }
    ensures steps { steps.new ≤ steps.old + 1 }
{
    if let Value::Nil = metamethod {
        return match to_text(heap, value, steps) {
            OpResult::Done(text) => give_value(heap, text),
            OpResult::Stop(stop) => BuiltinResult::Stop(stop),
            _ => BuiltinResult::NoMemory,
        };
    }
    match value.clone() {
        Err(_) => BuiltinResult::NoMemory,
        Ok(value) => BuiltinResult::CallThen {
            function: metamethod,
            args: ValueList::of_one(heap.alloc(), value),
            after: After::OneText,
        },
    }
}

/// `tostring(v)`.
fn to_string<L: Ledger>(
    heap: &mut Heap,
    args: &[Value],
    lines: Lines,
    steps: &mut Steps<L>,
) -> BuiltinResult
    requires { All (IsOf (ids_of heap.old)) args.now }
    ensures answer { IfSome (builtin_answer result) (λ a. to_string_call args.now lines.now heap.old ≡ (a, heap.new)) }
    ensures own { IfSome (builtin_answer result) (IsOfHeap (ids_of heap.new)) }
    ensures others { heap.new ≡ with_budget heap.old heap.new.used }
    ensures steps { steps.new ≤ steps.old + 2 }
{
    let Some(value) = argument(heap, args, 0) else {
        return bad_argument(heap, 1, Builtin::ToString, lines, steps);
    };
    match heap.metamethod(value, Event::ToString, steps) {
        Err(_) => BuiltinResult::NoMemory,
        Ok(metamethod) => tell_text(heap, metamethod, value, steps),
    }
}

/// `type(v)`.
fn type_of<L: Ledger>(
    heap: &mut Heap,
    args: &[Value],
    lines: Lines,
    steps: &mut Steps<L>,
) -> BuiltinResult
    requires { All (IsOf (ids_of heap.old)) args.now }
    ensures answer { IfSome (builtin_answer result) (λ a. type_call args.now lines.now heap.old ≡ (a, heap.new)) }
    ensures own { IfSome (builtin_answer result) (IsOfHeap (ids_of heap.new)) }
    ensures others { heap.new ≡ with_budget heap.old heap.new.used }
    ensures steps { steps.new ≤ steps.old + 2 }
{
    match argument(heap, args, 0) {
        None => bad_argument(heap, 1, Builtin::Type, lines, steps),
        Some(value) => give_text(heap, type_name(value).as_bytes(), steps),
    }
}
