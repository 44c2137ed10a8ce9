//! The call of a basic function, or of one of `coroutine`.

ghost use Rattle.std.specs.Prelude.{◌≡◌, ◌≤◌, ◌+◌, All, IfSome, length};
ghost use Rattle.lua_values.specs.Answers.{builtin_answer};
ghost use Rattle.lua_values.specs.Ids.{ids_of, IsOf, AreLater};
ghost use Rattle.lua_coroutines.specs.Hosts.{IsOfHeap};
ghost use Rattle.lua_base.specs.BaseCalls.{base_call};

use crate::coroutines::coroutine_call;
use crate::function::BaseFunction;
use crate::tables::table_call;
use crate::values::value_call;
use lua_coroutines::CoTable;
use lua_values::{BuiltinResult, Heap, Lines, Value};
use std::sync::ledger::Ledger;
use zc_budget::Steps;

/// The call of a basic function, or of one of `coroutine`, with these arguments. `lines` are the
/// line of the node at work and, behind it, those at which the other calls in progress were made.
#[tactic(auto, using(crate::proofs::Later::later_used))]
pub fn base_call<L: Ledger>(
    heap: &mut Heap,
    coroutines: &CoTable,
    function: BaseFunction,
    args: &[Value],
    lines: Lines,
    steps: &mut Steps<L>,
) -> BuiltinResult
    requires args { All (IsOf (ids_of heap.old)) args.now }
    requires coroutines { length coroutines.now.threads ≡ heap.old.threads + 1 }
    ensures answer { IfSome (builtin_answer result) (λ a. base_call function coroutines.now args.now lines.now heap.old ≡ (a, heap.new)) }
    ensures own { IfSome (builtin_answer result) (IsOfHeap (ids_of heap.new)) }
    ensures keeps { AreLater (ids_of heap.old) (ids_of heap.new) }
    ensures steps { steps.new ≤ steps.old + 4 }
{
    match function {
        BaseFunction::OfValues(function) => value_call(heap, function, args, lines, steps),
        BaseFunction::OfTables(function) => table_call(heap, function, args, lines, steps),
        BaseFunction::OfCoroutines(function) => {
            coroutine_call(heap, coroutines, function, args, lines, steps)
        }
    }
}
