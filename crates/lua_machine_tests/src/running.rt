//! A run of a text.

ghost use Rattle.std.specs.Prelude.{◌≡◌, ◌<◌, ◌≤◌};
ghost use Rattle.zc_budget.specs.Used.{IsLimit, greatest_instructions, greatest_bytes};

use crate::laws::makes_no_coroutine;
use crate::printed::{put, put_number, put_outcome};
use crate::text::Text;
use lua_machine::Machine;
use lua_scope::{LoadError, Parsed, load};
use lua_test_host::FewFunctions;
use lua_values::{Heap, ValueList};
use std::alloc::{AllocError, Global};
use std::sync::ledger::{Blank, Ledger};
use zc_budget::{Budget, GREATEST_BYTES, GREATEST_INSTRUCTIONS, Steps};

/// What a run may use.
fn budget_of(instructions: u64, memory: u64) -> Budget {
    Budget::new(
        instructions.clamp(1, GREATEST_INSTRUCTIONS),
        memory.clamp(1, GREATEST_BYTES),
    )
}

/// What a heap has used.
fn put_used(alloc: Global, out: &mut Vec<u8>, mut heap: Heap) -> Result<(), AllocError> {
    let (instructions, bytes) = heap.budget().used();
    put_number(alloc, out, "; instructions", instructions)?;
    put_number(alloc, out, ", bytes", bytes)
}

/// How a program ends that begins with this heap, and what it used.
#[tactic(auto, unfolding(lua_values::specs::Start::start_heap))]
fn put_parsed<L: Ledger>(
    alloc: Global,
    out: &mut Vec<u8>,
    parsed: &Parsed,
    budget: Budget,
    steps: &mut Steps<L>,
) -> Result<(), AllocError> {
    let Ok(heap) = Heap::new(alloc, budget) else {
        return Err(AllocError);
    };
    let Ok(mut machine) = Machine::new(heap, FewFunctions {}) else {
        return Err(AllocError);
    };
    makes_no_coroutine();
    let outcome = machine.run(parsed, ValueList::new(alloc), steps);
    let (heap, _host) = machine.into_parts();
    put_outcome(alloc, out, &outcome)?;
    put_used(alloc, out, heap)
}

/// Why a text does not load.
fn put_refusal(alloc: Global, out: &mut Vec<u8>, error: LoadError) -> Result<(), AllocError> {
    let told = format!(in alloc; "refused: {error:?}")?;
    put(out, told.as_str())
}

/// How the run of a text ends, with a count of steps of its own.
pub(crate) fn put_run<L: Ledger>(
    alloc: Global,
    out: &mut Vec<u8>,
    text: Text,
    blank: Blank,
) -> Result<(), AllocError>
    requires name { blank.name ≡ L.name }
    requires parts { blank.parts ≡ L.parts }
    requires some { 0 < blank.parts }
{
    let mut steps: Steps<L> = Steps::new(blank);
    let budget = budget_of(text.instructions, text.memory);
    match load(alloc, text.bytes) {
        Ok(parsed) => put_parsed(alloc, out, &parsed, budget, &mut steps),
        Err(error) => put_refusal(alloc, out, error),
    }
}
