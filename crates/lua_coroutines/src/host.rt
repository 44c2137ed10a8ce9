//! What serves the calls of built-ins and of iterator functions.

ghost use Rattle.std.specs.Prelude.{◌≡◌, ◌<◌, ◌+◌, length, All, IfSome};
ghost use Rattle.lua_meaning.specs.Jobs.{HostOf};
ghost use Rattle.lua_values.specs.Answers.{builtin_answer};
ghost use Rattle.lua_values.specs.Ids.{ids_of, IsOf, AreLater};
ghost use Rattle.lua_coroutines.specs.Hosts.{IsLawfulHost, IsOfHeap, state_with};

use crate::threads::CoTable;
use lua_meaning::{Builtin, IterId};
use lua_values::{BuiltinResult, Heap, Lines, Value};
use std::sync::ledger::Ledger;
use zc_budget::Steps;

/// What serves the calls of built-ins and of iterator functions, by its meaning.
///
/// `lines` are the line of the node at work and, behind it, those at which the other calls in
/// progress of the running coroutine were made, innermost first.
pub trait Host {
    /// Its states. No value of it is made.
    ghost World: { Type 0 };

    /// What each call answers, and what it leaves.
    ghost meaning: { HostOf World };

    /// The state it is in.
    ghost world: { Self → World };

    /// A call adds to the heap and to the coroutines, makes no closure, keeps the limits and never
    /// lowers what is used.
    ghost lawful: { IsLawfulHost meaning };

    /// The call of a built-in. After `NoMemory` the program isn't gone on with.
    fn call<L: Ledger>(
        &mut self,
        heap: &mut Heap,
        coroutines: &mut CoTable,
        id: Builtin,
        args: &[Value],
        lines: Lines,
        steps: &mut Steps<L>,
    ) -> BuiltinResult
        requires args { All (IsOf (ids_of heap.old)) args.now }
        requires coroutines { length coroutines.old.threads ≡ heap.old.threads + 1 }
        ensures answer { IfSome (builtin_answer result) (λ a. meaning.call id args.now lines.now (state_with heap.old coroutines.old (world self.old)) ≡ (a, state_with heap.new coroutines.new (world self.new))) }
        ensures own { IfSome (builtin_answer result) (IsOfHeap (ids_of heap.new)) }
        ensures keeps { AreLater (ids_of heap.old) (ids_of heap.new) }
        ensures coroutines { IfSome (builtin_answer result) (λ _. length coroutines.new.threads ≡ heap.new.threads + 1) };

    /// The call of an iterator function. After `NoMemory` the program isn't gone on with.
    fn step<L: Ledger>(
        &mut self,
        heap: &mut Heap,
        coroutines: &mut CoTable,
        iter: IterId,
        args: &[Value],
        lines: Lines,
        steps: &mut Steps<L>,
    ) -> BuiltinResult
        requires iter { iter < length heap.old.iters }
        requires args { All (IsOf (ids_of heap.old)) args.now }
        requires coroutines { length coroutines.old.threads ≡ heap.old.threads + 1 }
        ensures answer { IfSome (builtin_answer result) (λ a. meaning.step iter args.now lines.now (state_with heap.old coroutines.old (world self.old)) ≡ (a, state_with heap.new coroutines.new (world self.new))) }
        ensures own { IfSome (builtin_answer result) (IsOfHeap (ids_of heap.new)) }
        ensures keeps { AreLater (ids_of heap.old) (ids_of heap.new) }
        ensures coroutines { IfSome (builtin_answer result) (λ _. length coroutines.new.threads ≡ heap.new.threads + 1) };
}
