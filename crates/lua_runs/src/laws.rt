//! Laws of runs: how a machine begins, what each step and each call of its host keeps and lowers,
//! and what it comes to. Each function does nothing, and its contract is the law.

ghost use Rattle.std.specs.Prelude.{◌≡◌, ◌<◌, ◌+◌, ℕ, Bool, List, All, length, codes, true, false};
ghost use Rattle.zc_budget.specs.Used.{IsWithin, is_spent};
ghost use Rattle.zc_budget.specs.declared.budget.Stop.TheVariants as stop;
ghost use Rattle.lua_ast.specs.declared.node.LinedNode.{LinedNode as LinedNodeOf};
ghost use Rattle.lua_ast.specs.Decode.{Ordered};
ghost use Rattle.lua_meaning.specs.declared.value.Value.{Value as ValueOf};
ghost use Rattle.lua_meaning.specs.Heap.{HeapOf};
ghost use Rattle.lua_meaning.specs.Store.{Result as ResultOf};
ghost use Rattle.lua_meaning.specs.Code.{Code};
ghost use Rattle.lua_meaning.specs.Jobs.{Answer, HostOf};
ghost use Rattle.lua_meaning.specs.Programs.{program};
ghost use Rattle.lua_meaning.specs.Laws.{IsEnded};
ghost use Rattle.lua_values.specs.Ids.{ids_of, AreLater, AreOwn, IsOf};
ghost use Rattle.lua_coroutines.specs.Threads.{ThreadsOf};
ghost use Rattle.lua_coroutines.specs.Hosts.{IsLawfulHost, IsOfHeap, state_with};
ghost use Rattle.lua_steps.specs.declared.mode.Mode.TheVariants as mode;
ghost use Rattle.lua_steps.specs.Parts.{part};
ghost use Rattle.lua_steps.specs.Configuration.{Configuration, Next, with_heap, with_tick};
ghost use Rattle.lua_steps.specs.Effects.{failing};
ghost use Rattle.lua_steps.specs.Machine.{step};
ghost use Rattle.lua_steps.specs.Keeping.{AreTrees, AreFunctions, is_hosted};
ghost use Rattle.lua_runs.specs.Weights.{work_left};
ghost use Rattle.lua_runs.specs.Endings.{has_ended, IsOutcome};
ghost use Rattle.lua_runs.specs.Serving.{has_no_room, MakesNoCoroutine, host_call, served};
ghost use Rattle.lua_runs.specs.Standing.{beginning, machine_store, IsRunning};

/// Where the parts of each node have lower numbers than the node, as a text's code numbers them, the
/// tree of each node is that of its parts.
pub fn trees_of_ordered_nodes()
    ensures { (nodes : List LinedNodeOf) → Ordered nodes → AreTrees nodes }
{}

/// A machine that begins a program stands for what the program means.
pub fn program_begins<H>()
    ensures { (host : HostOf H) (code : Code) (nodes : List LinedNodeOf) (root : ℕ) (args : List ValueOf) (h : HeapOf) (t : ThreadsOf) (w : H) →
        IsWithin h.used → All (IsOf (ids_of h)) args → length t.threads ≡ h.threads + 1 →
        IsRunning host code nodes t w (program host code (part nodes root) args (machine_store (beginning h root args).1 t w)) (beginning h root args) }
{}

/// A step that the host has no part in leaves the machine running, towards the same outcome, and
/// with less work left.
pub fn steps_go_on<H>()
    ensures runs { (host : HostOf H) (code : Code) (nodes : List LinedNodeOf) (t : ThreadsOf) (w : H) (o : ResultOf H) (y : Next) →
        AreTrees nodes → AreFunctions code nodes → AreOwn y.1.heap → is_hosted y.0 ≡ false →
        IsRunning host code nodes t w o y → IsRunning host code nodes t w o (step nodes code y.0 y.1) }
    ensures lowers { (host : HostOf H) (code : Code) (nodes : List LinedNodeOf) (t : ThreadsOf) (w : H) (o : ResultOf H) (y : Next) →
        AreTrees nodes → AreFunctions code nodes → is_hosted y.0 ≡ false → has_ended y ≡ false →
        IsRunning host code nodes t w o y → work_left nodes (step nodes code y.0 y.1) < work_left nodes y }
{}

/// A call that the host serves leaves the machine running, towards the same outcome: where no
/// instruction is left it stops, where too many calls are in progress it raises an error, and else
/// the host's answer is served.
pub fn host_calls_go_on<H>()
    ensures spent { (host : HostOf H) (code : Code) (nodes : List LinedNodeOf) (t : ThreadsOf) (w : H) (o : ResultOf H)
        (f : ValueOf) (args : List ValueOf) (lines : List ℕ) (own : Bool) (x : Configuration) →
        is_hosted (mode.Call f args lines own) ≡ true → is_spent x.heap.used ≡ true →
        IsRunning host code nodes t w o (mode.Call f args lines own, x) →
        IsRunning host code nodes t w o (mode.Stopped stop.Instructions, x) }
    ensures full { (host : HostOf H) (code : Code) (nodes : List LinedNodeOf) (t : ThreadsOf) (w : H) (o : ResultOf H)
        (f : ValueOf) (args : List ValueOf) (lines : List ℕ) (own : Bool) (x : Configuration) →
        is_hosted (mode.Call f args lines own) ≡ true → is_spent x.heap.used ≡ false → has_no_room lines own x ≡ true →
        IsRunning host code nodes t w o (mode.Call f args lines own, x) →
        IsRunning host code nodes t w o (failing lines (codes "stack overflow") (with_tick x)) }
    ensures served { (host : HostOf H) (code : Code) (nodes : List LinedNodeOf) (t : ThreadsOf) (w : H) (o : ResultOf H)
        (f : ValueOf) (args : List ValueOf) (lines : List ℕ) (own : Bool) (x : Configuration)
        (a : Answer) (h : HeapOf) (t' : ThreadsOf) (w' : H) →
        IsLawfulHost host → MakesNoCoroutine host →
        is_hosted (mode.Call f args lines own) ≡ true → is_spent x.heap.used ≡ false → has_no_room lines own x ≡ false →
        host_call host f args lines (state_with (with_tick x).heap t w) ≡ (a, state_with h t' w') →
        IsWithin h.used → AreLater (ids_of x.heap) (ids_of h) → IsOfHeap (ids_of h) a → length t'.threads ≡ h.threads + 1 →
        IsRunning host code nodes t w o (mode.Call f args lines own, x) →
        IsRunning host code nodes t' w' o (served a lines own (with_heap h (with_tick x))) }
{}

/// Such a call leaves less work.
pub fn host_calls_lower<H>()
    ensures spent { (nodes : List LinedNodeOf) (f : ValueOf) (args : List ValueOf) (lines : List ℕ) (own : Bool) (x : Configuration) →
        work_left nodes (mode.Stopped stop.Instructions, x) < work_left nodes (mode.Call f args lines own, x) }
    ensures full { (nodes : List LinedNodeOf) (f : ValueOf) (args : List ValueOf) (lines : List ℕ) (own : Bool) (x : Configuration) →
        IsWithin x.heap.used → is_spent x.heap.used ≡ false →
        work_left nodes (failing lines (codes "stack overflow") (with_tick x)) < work_left nodes (mode.Call f args lines own, x) }
    ensures served { (host : HostOf H) (nodes : List LinedNodeOf) (t : ThreadsOf) (w : H)
        (f : ValueOf) (args : List ValueOf) (lines : List ℕ) (own : Bool) (x : Configuration)
        (a : Answer) (h : HeapOf) (t' : ThreadsOf) (w' : H) →
        IsLawfulHost host → is_hosted (mode.Call f args lines own) ≡ true →
        host_call host f args lines (state_with (with_tick x).heap t w) ≡ (a, state_with h t' w') → IsWithin h.used →
        work_left nodes (served a lines own (with_heap h (with_tick x))) < work_left nodes (mode.Call f args lines own, x) }
{}

/// A machine that has come to its end has come to the outcome for which it stands, and that is never
/// for want of fuel.
pub fn runs_end<H>()
    ensures outcome { (host : HostOf H) (code : Code) (nodes : List LinedNodeOf) (t : ThreadsOf) (w : H) (o : ResultOf H) (y : Next) →
        IsRunning host code nodes t w o y → has_ended y ≡ true → IsOutcome y.0 (machine_store y.1 t w) o }
    ensures fuel { (host : HostOf H) (code : Code) (nodes : List LinedNodeOf) (t : ThreadsOf) (w : H) (o : ResultOf H) (y : Next) →
        IsRunning host code nodes t w o y → has_ended y ≡ true → IsEnded o }
{}
