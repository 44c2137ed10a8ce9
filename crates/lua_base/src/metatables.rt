//! Metatables (Lua 5.2 manual, 2.4).

ghost use Rattle.std.specs.Prelude.{◌≡◌, ◌≤◌, ◌<◌, ◌+◌, All, IfSome, length};
ghost use Rattle.lua_values.specs.Answers.{builtin_answer};
ghost use Rattle.lua_values.specs.Ids.{ids_of, IsOf, AreLater};
ghost use Rattle.lua_values.specs.Lending.{with_budget};
ghost use Rattle.lua_coroutines.specs.Hosts.{IsOfHeap};
ghost use Rattle.lua_arguments.specs.Answering.{gives_value};
ghost use Rattle.lua_arguments.specs.Arguments.{argument};
ghost use Rattle.lua_base.specs.OfTables.{shown_metatable, get_metatable_call, metatable_in, sets_metatable, set_metatable_call};

use lua_arguments::{argument, bad_argument, give_value, raise_at, table_argument};
use lua_values::{Builtin, BuiltinResult, Event, Heap, Lines, TableId, Value};
use std::sync::ledger::Ledger;
use zc_budget::Steps;

/// `getmetatable(v)`.
pub(crate) fn get_metatable<L: Ledger>(
    heap: &mut Heap,
    args: &[Value],
    lines: Lines,
    steps: &mut Steps<L>,
) -> BuiltinResult
    requires { All (IsOf (ids_of heap.old)) args.now }
    ensures answer { IfSome (builtin_answer result) (λ a. get_metatable_call args.now lines.now heap.old ≡ (a, heap.new)) }
    ensures own { IfSome (builtin_answer result) (IsOfHeap (ids_of heap.new)) }
    ensures others { heap.new ≡ with_budget heap.old heap.new.used }
    ensures steps { steps.new ≤ steps.old + 3 }
{
    let Some(value) = argument(heap, args, 0) else {
        return bad_argument(heap, 1, Builtin::GetMetatable, lines, steps);
    };
    let meta = heap.meta(value, steps);
    match heap.metamethod(value, Event::Metatable, steps) {
        Ok(protected) => give_shown(heap, protected, meta),
        Err(_) => BuiltinResult::NoMemory,
    }
}

/// Answers what is shown as a metatable.
fn give_shown(heap: &Heap, protected: Value, meta: Option<TableId>) -> BuiltinResult
    requires protected { IsOf (ids_of heap.now) protected }
    requires meta { IfSome meta (λ m. m < length heap.now.tables) }
    ensures answer { IfSome (builtin_answer result) (λ a. gives_value (shown_metatable protected meta) heap.now ≡ (a, heap.now)) }
    ensures own { IfSome (builtin_answer result) (IsOfHeap (ids_of heap.now)) }
{
    match protected {
        Value::Nil => match meta {
            None => give_value(heap, Value::Nil),
            Some(meta) => give_value(heap, Value::Table(meta)),
        },
        _ => give_value(heap, protected),
    }
}

/// The metatable that an argument stands for: a table, or nil for none.
fn metatable_in(heap: &Heap, args: &[Value]) -> Option<Option<TableId>>
    requires { All (IsOf (ids_of heap.now)) args.now }
    ensures value { result ≡ metatable_in (argument args.now 1) }
    ensures own { IfSome result (λ meta. IfSome meta (λ m. m < length heap.now.tables)) }
{
    match argument(heap, args, 1) {
        Some(Value::Nil) => Some(None),
        Some(Value::Table(meta)) => Some(Some(*meta)),
        _ => None,
    }
}

/// `setmetatable(t, m)`.
#[tactic(auto, using(crate::proofs::Later::later_used))]
pub(crate) fn set_metatable<L: Ledger>(
    heap: &mut Heap,
    args: &[Value],
    lines: Lines,
    steps: &mut Steps<L>,
) -> BuiltinResult
    requires { All (IsOf (ids_of heap.old)) args.now }
    ensures answer { IfSome (builtin_answer result) (λ a. set_metatable_call args.now lines.now heap.old ≡ (a, heap.new)) }
    ensures own { IfSome (builtin_answer result) (IsOfHeap (ids_of heap.new)) }
    ensures keeps { AreLater (ids_of heap.old) (ids_of heap.new) }
    ensures steps { steps.new ≤ steps.old + 2 }
{
    let Some(table) = table_argument(heap, args, 0) else {
        return bad_argument(heap, 1, Builtin::SetMetatable, lines, steps);
    };
    let Some(meta) = metatable_in(heap, args) else {
        return bad_argument(heap, 2, Builtin::SetMetatable, lines, steps);
    };
    match heap.metamethod(&Value::Table(table), Event::Metatable, steps) {
        Err(_) => BuiltinResult::NoMemory,
        Ok(Value::Nil) => {
            heap.set_meta(table, meta, steps);
            give_value(heap, Value::Table(table))
        }
        Ok(_) => raise_at(heap, b"cannot change a protected metatable", lines, steps),
    }
}
