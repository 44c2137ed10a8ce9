//! Laws of the calls. Each function does nothing, and its contract is the law.

ghost use Rattle.std.specs.Prelude.{ℕ, List};
ghost use Rattle.lua_meaning.specs.declared.value.Value.{Value as ValueOf};
ghost use Rattle.lua_meaning.specs.Heap.{HeapOf};
ghost use Rattle.zp_tree.specs.Tree.{Tree};
ghost use Rattle.zp_tree.specs.WellFormed.{IsWellFormed};
ghost use Rattle.zcp_calls.specs.declared.syncing.SyncCall.{SyncCall as SyncCallOf};
ghost use Rattle.zcp_calls.specs.Answering.{raises};
ghost use Rattle.zcp_calls.specs.Existing.{exists_call};
ghost use Rattle.zcp_calls.specs.Syncing.{sync_call};
ghost use Rattle.zcp_calls.specs.Paying.{CallEnds};

/// A call takes nothing of a program but bytes, within its limit, and ends with values, an error or
/// a stop.
#[tactic(auto, using(crate::proofs::Paying::raises_ends, crate::proofs::Paying::sync_ends, crate::proofs::Paying::exists_ends))]
pub fn calls_pay_in_bytes()
    ensures raises { (lines text : List ℕ) (h : HeapOf) → CallEnds h (raises lines text h).0 (raises lines text h).1 }
    ensures syncs { (which : SyncCallOf) (args : List ValueOf) (lines : List ℕ) (txg now : ℕ) (h : HeapOf) (t : Tree) →
        CallEnds h (sync_call which args lines txg now h t).0 (sync_call which args lines txg now h t).1 }
    ensures exists { (args : List ValueOf) (lines : List ℕ) (t : Tree) (h : HeapOf) →
        CallEnds h (exists_call args lines t h).0 (exists_call args lines t h).1 }
{}

/// A call of a function of `zfs.sync` keeps a tree well formed.
pub fn sync_calls_keep_trees_well_formed()
    ensures { (which : SyncCallOf) (args : List ValueOf) (lines : List ℕ) (txg now : ℕ) (h : HeapOf) (t : Tree) →
        IsWellFormed t → IsWellFormed (sync_call which args lines txg now h t).2 }
{}
