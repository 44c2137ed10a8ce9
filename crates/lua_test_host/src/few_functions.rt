//! The host.

use crate::row::row_of;
use crate::rows::{answer, step};
use lua_coroutines::{CoTable, Host};
use lua_values::{Builtin, BuiltinResult, Heap, IterId, Lines, Value};
use std::sync::ledger::Ledger;
use zc_budget::Steps;

/// A host with few functions, which has no state of its own.
#[derive(Drop)]
pub struct FewFunctions {}

impl Host for FewFunctions {
    ghost use Rattle.std.specs.Prelude.{⊤};
    ghost use Rattle.lua_test_host.specs.FewFunctions.{few_functions};
    ghost use Rattle.lua_test_host.specs.Lawful.{few_lawful};

    ghost World = { ⊤ };

    ghost meaning = { few_functions };

    ghost world = { λ _. tt };

    ghost lawful = { few_lawful };

    fn call<L: Ledger>(
        &mut self,
        heap: &mut Heap,
        _coroutines: &mut CoTable,
        id: Builtin,
        args: &[Value],
        lines: Lines,
        steps: &mut Steps<L>,
    ) -> BuiltinResult {
        answer(heap, row_of(id), args, lines, steps)
    }

    fn step<L: Ledger>(
        &mut self,
        heap: &mut Heap,
        _coroutines: &mut CoTable,
        iter: IterId,
        _args: &[Value],
        _lines: Lines,
        steps: &mut Steps<L>,
    ) -> BuiltinResult {
        step(heap, iter, steps)
    }
}
