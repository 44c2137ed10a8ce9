//! The functions of `coroutine`, as the main thread sees them (Lua 5.2 manual, 6.2).

ghost use Rattle.std.specs.Prelude.{◌≡◌, ◌≤◌, ◌<◌, ◌+◌, All, IfSome, length};
ghost use Rattle.lua_values.specs.Answers.{builtin_answer};
ghost use Rattle.lua_values.specs.Ids.{ids_of, IsOf};
ghost use Rattle.lua_values.specs.Lending.{with_budget};
ghost use Rattle.lua_coroutines.specs.Hosts.{IsOfHeap};
ghost use Rattle.lua_base.specs.OfCoroutines.{makes_coroutine, refuses_to_resume, resume_call, yield_call, running_call, status_text, status_call};
ghost use Rattle.lua_base.specs.BaseCalls.{coroutine_call};

use crate::function::CoroutineFunction;
use lua_arguments::{bad_argument, give_text, raise_at, thread_argument};
use lua_coroutines::CoTable;
use lua_meaning::CoStatus;
use lua_values::{Builtin, BuiltinResult, Heap, HeapFault, Lines, Value, ValueList};
use std::sync::ledger::Ledger;
use zc_budget::Steps;

/// The call of a function of `coroutine`.
pub(crate) fn coroutine_call<L: Ledger>(
    heap: &mut Heap,
    coroutines: &CoTable,
    function: CoroutineFunction,
    args: &[Value],
    lines: Lines,
    steps: &mut Steps<L>,
) -> BuiltinResult
    requires args { All (IsOf (ids_of heap.old)) args.now }
    requires coroutines { length coroutines.now.threads ≡ heap.old.threads + 1 }
    ensures answer { IfSome (builtin_answer result) (λ a. coroutine_call function coroutines.now args.now lines.now heap.old ≡ (a, heap.new)) }
    ensures own { IfSome (builtin_answer result) (IsOfHeap (ids_of heap.new)) }
    ensures others { heap.new ≡ with_budget heap.old heap.new.used }
    ensures steps { steps.new ≤ steps.old + 1 }
{
    match function {
        CoroutineFunction::Create => refuse_to_make(heap, lines, steps),
        CoroutineFunction::Wrap => refuse_to_make(heap, lines, steps),
        CoroutineFunction::Resume => resume(heap, args, lines, steps),
        CoroutineFunction::Yield => {
            raise_at(
                heap,
                b"attempt to yield from outside a coroutine",
                lines,
                steps,
            )
        }
        CoroutineFunction::Running => running(heap, coroutines),
        CoroutineFunction::Status => status(heap, coroutines, args, lines, steps),
    }
}

/// No coroutine is made yet.
fn refuse_to_make<L: Ledger>(heap: &mut Heap, lines: Lines, steps: &mut Steps<L>) -> BuiltinResult
    ensures answer { IfSome (builtin_answer result) (λ a. makes_coroutine lines.now heap.old ≡ (a, heap.new)) }
    ensures own { IfSome (builtin_answer result) (IsOfHeap (ids_of heap.new)) }
    ensures others { heap.new ≡ with_budget heap.old heap.new.used }
    ensures steps { steps.new ≤ steps.old + 1 }
{
    raise_at(heap, b"coroutines are not built yet", lines, steps)
}

/// Answers false, and why a coroutine isn't resumed.
fn refuse_to_resume<L: Ledger>(heap: &mut Heap, steps: &mut Steps<L>) -> BuiltinResult
    ensures answer { IfSome (builtin_answer result) (λ a. refuses_to_resume heap.old ≡ (a, heap.new)) }
    ensures own { IfSome (builtin_answer result) (IsOfHeap (ids_of heap.new)) }
    ensures others { heap.new ≡ with_budget heap.old heap.new.used }
    ensures steps { steps.new ≤ steps.old + 1 }
{
    match heap.new_text(b"cannot resume non-suspended coroutine", steps) {
        Ok(text) => {
            BuiltinResult::Values(ValueList::of_two(heap.alloc(), Value::Bool(false), text))
        }
        Err(HeapFault::Stop(stop)) => BuiltinResult::Stop(stop),
        Err(_) => BuiltinResult::NoMemory,
    }
}

/// `coroutine.resume(c, ..)`.
fn resume<L: Ledger>(
    heap: &mut Heap,
    args: &[Value],
    lines: Lines,
    steps: &mut Steps<L>,
) -> BuiltinResult
    requires { All (IsOf (ids_of heap.old)) args.now }
    ensures answer { IfSome (builtin_answer result) (λ a. resume_call args.now lines.now heap.old ≡ (a, heap.new)) }
    ensures own { IfSome (builtin_answer result) (IsOfHeap (ids_of heap.new)) }
    ensures others { heap.new ≡ with_budget heap.old heap.new.used }
    ensures steps { steps.new ≤ steps.old + 1 }
{
    match thread_argument(heap, args, 0) {
        None => bad_argument(heap, 1, Builtin::CoroutineResume, lines, steps),
        Some(_) => refuse_to_resume(heap, steps),
    }
}

/// `coroutine.running()`.
fn running(heap: &Heap, coroutines: &CoTable) -> BuiltinResult
    requires { length coroutines.now.threads ≡ heap.now.threads + 1 }
    ensures answer { IfSome (builtin_answer result) (λ a. running_call coroutines.now heap.now ≡ (a, heap.now)) }
    ensures own { IfSome (builtin_answer result) (IsOfHeap (ids_of heap.now)) }
{
    let running = coroutines.running();
    let is_main = Value::Bool(running.number() == 0);
    BuiltinResult::Values(ValueList::of_two(heap.alloc(), Value::Thread(running), is_main))
}

/// What `coroutine.status` calls a status.
fn status_text(status: CoStatus) -> &'static str
    ensures { result.now ≡ status_text status }
{
    match status {
        CoStatus::Running => "running",
        CoStatus::Suspended => "suspended",
        CoStatus::Normal => "normal",
        CoStatus::Dead => "dead",
    }
}

/// `coroutine.status(c)`.
fn status<L: Ledger>(
    heap: &mut Heap,
    coroutines: &CoTable,
    args: &[Value],
    lines: Lines,
    steps: &mut Steps<L>,
) -> BuiltinResult
    requires args { All (IsOf (ids_of heap.old)) args.now }
    requires coroutines { length coroutines.now.threads ≡ heap.old.threads + 1 }
    ensures answer { IfSome (builtin_answer result) (λ a. status_call coroutines.now args.now lines.now heap.old ≡ (a, heap.new)) }
    ensures own { IfSome (builtin_answer result) (IsOfHeap (ids_of heap.new)) }
    ensures others { heap.new ≡ with_budget heap.old heap.new.used }
    ensures steps { steps.new ≤ steps.old + 1 }
{
    match thread_argument(heap, args, 0) {
        None => bad_argument(heap, 1, Builtin::CoroutineStatus, lines, steps),
        Some(thread) => {
            let text = status_text(coroutines.status(thread));
            give_text(heap, text.as_bytes(), steps)
        }
    }
}
