//! Arguments that a built-in doesn't take.

ghost use Rattle.std.specs.Prelude.{◌≡◌, ◌≤◌, ◌+◌, IfOk, IfSome};
ghost use Rattle.lua_values.specs.Answers.{builtin_answer};
ghost use Rattle.lua_values.specs.Ids.{ids_of};
ghost use Rattle.lua_values.specs.Lending.{with_budget};
ghost use Rattle.lua_coroutines.specs.Hosts.{IsOfHeap};
ghost use Rattle.lua_arguments.specs.BadArguments.{bad_argument_text, bad_argument};

use crate::answering::raise_at;
use itoa::Buffer;
use lua_values::{Builtin, BuiltinResult, Heap, Lines};
use std::alloc::{AllocError, Global};
use std::sync::ledger::Ledger;
use zc_budget::Steps;

/// The text of the error.
fn bad_argument_text(alloc: Global, number: u32, builtin: Builtin) -> Result<Vec<u8>, AllocError>
    ensures { IfOk result (λ text. text.items ≡ bad_argument_text number builtin) }
{
    let mut buffer = Buffer::new();
    let mut text = Vec::from_slice(alloc, b"bad argument ")?;
    text.extend_from_slice(buffer.format(number).as_bytes())?;
    text.extend_from_slice(b" to ")?;
    text.extend_from_slice(builtin.name().as_bytes())?;
    Ok(text)
}

/// Raises that a built-in doesn't take the argument of this number, from 1 on.
pub fn bad_argument<L: Ledger>(
    heap: &mut Heap,
    number: u32,
    builtin: Builtin,
    lines: Lines,
    steps: &mut Steps<L>,
) -> BuiltinResult
    ensures answer { IfSome (builtin_answer result) (λ a. bad_argument number builtin lines.now heap.old ≡ (a, heap.new)) }
    ensures own { IfSome (builtin_answer result) (IsOfHeap (ids_of heap.new)) }
    ensures others { heap.new ≡ with_budget heap.old heap.new.used }
    ensures steps { steps.new ≤ steps.old + 1 }
{
    let Ok(text) = bad_argument_text(heap.alloc(), number, builtin) else {
        return BuiltinResult::NoMemory;
    };
    raise_at(heap, text.as_slice(), lines, steps)
}
