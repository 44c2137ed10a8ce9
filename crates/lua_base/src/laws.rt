//! Laws. Each function does nothing, and its contract is the law.

ghost use Rattle.std.specs.Prelude.{ℕ, List};
ghost use Rattle.lua_meaning.specs.declared.value.Value.{Value};
ghost use Rattle.lua_coroutines.specs.Threads.{ThreadsOf};
ghost use Rattle.lua_arguments.specs.Extending.{OnlyAdds};
ghost use Rattle.lua_base.specs.declared.function.BaseFunction.{BaseFunction};
ghost use Rattle.lua_base.specs.BaseCalls.{base_call};

/// A call only adds to the heap, keeps the limits, gives nothing back that was used, makes neither a
/// closure nor a coroutine, and lets no coroutine run.
pub fn calls_only_add()
    ensures { (f : BaseFunction) → (coroutines : ThreadsOf) → (args : List Value) → (lines : List ℕ) → OnlyAdds (base_call f coroutines args lines) }
{}
