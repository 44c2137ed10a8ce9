//! A law of the host.

ghost use Rattle.lua_runs.specs.Serving.{MakesNoCoroutine};
ghost use Rattle.lua_test_host.specs.FewFunctions.{few_functions};

/// No answer of the host resumes a coroutine, or lets one yield.
#[tactic(auto, using(crate::proofs::Plain::few_plain))]
pub(crate) fn makes_no_coroutine()
    ensures { MakesNoCoroutine few_functions }
{}
