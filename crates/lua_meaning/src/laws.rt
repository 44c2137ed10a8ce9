//! Laws of runs that resume no coroutine: the main thread runs, and no coroutine waits to be
//! resumed. Each function does nothing, and its contract is the law.
ghost use Rattle.std.specs.Prelude.{ℕ, ◌+◌, Bool, IsTrue, List};
ghost use Rattle.zc_budget.specs.Used.{Used};
ghost use Rattle.lua_ast.specs.declared.node.BinOp.{BinOp};
ghost use Rattle.lua_ast.specs.declared.node.UnOp.{UnOp};
ghost use Rattle.lua_ast.specs.Tree.{Tree};
ghost use Rattle.lua_meaning.specs.declared.value.Value.{Value as ValueOf};
ghost use Rattle.lua_meaning.specs.Store.{Store, state_of};
ghost use Rattle.lua_meaning.specs.Code.{Code};
ghost use Rattle.lua_meaning.specs.Runs.{used_of};
ghost use Rattle.lua_meaning.specs.Jobs.{Job, HostOf, Resumes};
ghost use Rattle.lua_meaning.specs.Operators.{binary, unary, binary_op, unary_op};
ghost use Rattle.lua_meaning.specs.Indexing.{look, put_at};
ghost use Rattle.lua_meaning.specs.Nodes.{eval};
ghost use Rattle.lua_meaning.specs.Programs.{jobs, program};
ghost use Rattle.lua_meaning.specs.Laws.{Grows, IsFair, KeepsState, IsStart, IsEnded, GrowsIn, EndsWith, StaysIn, ChangesUsedAlone, store_of};

/// The limits stay, the instructions and bytes that are used never fall and never pass them,
/// where no call of the host does otherwise.
pub fn used_grows<H>()
    ensures nodes { (host : HostOf H) (code : Code) (resumes : Resumes H) → IsFair host → (n : ℕ) (t : Tree) →
        GrowsIn (eval code (jobs host code resumes n) t) }
    ensures jobs { (host : HostOf H) (code : Code) (resumes : Resumes H) → IsFair host → (n : ℕ) (job : Job) →
        GrowsIn (jobs host code resumes n job) }
    ensures programs { (host : HostOf H) (code : Code) → IsFair host →
        (root : Tree) (args : List ValueOf) (s : Store H) → IsStart s →
        Grows (used_of s) (used_of (store_of (program host code root args s))) }
{}

/// Only calls of the host change its state: what they all keep of it stays.
pub fn host_state_stays<H>()
    ensures nodes { (host : HostOf H) (code : Code) (resumes : Resumes H) → IsFair host →
        (keeps : H → Bool) → KeepsState keeps host → (n : ℕ) (t : Tree) →
        StaysIn keeps (eval code (jobs host code resumes n) t) }
    ensures jobs { (host : HostOf H) (code : Code) (resumes : Resumes H) → IsFair host →
        (keeps : H → Bool) → KeepsState keeps host → (n : ℕ) (job : Job) →
        StaysIn keeps (jobs host code resumes n job) }
    ensures programs { (host : HostOf H) (code : Code) → IsFair host →
        (keeps : H → Bool) → KeepsState keeps host →
        (root : Tree) (args : List ValueOf) (s : Store H) → IsStart s → IsTrue (keeps (state_of s).host) →
        IsTrue (keeps (state_of (store_of (program host code root args s))).host) }
{}

/// Fuel suffices where it is more than the instructions that are left: a node with what it
/// begins, a job, and a whole program.
pub fn fuel_suffices<H>()
    ensures nodes { (host : HostOf H) (code : Code) (resumes : Resumes H) → IsFair host → (n : ℕ) (t : Tree) →
        EndsWith (n + 1) (eval code (jobs host code resumes n) t) }
    ensures jobs { (host : HostOf H) (code : Code) (resumes : Resumes H) → IsFair host → (n : ℕ) (job : Job) →
        EndsWith n (jobs host code resumes n job) }
    ensures programs { (host : HostOf H) (code : Code) → IsFair host →
        (root : Tree) (args : List ValueOf) (s : Store H) → IsStart s →
        IsEnded (program host code root args s) }
{}

/// The same of operators and of the steps of an index.
pub fn fuel_suffices_for_steps<H>()
    ensures binary_operators { (host : HostOf H) (code : Code) (resumes : Resumes H) → IsFair host → (n : ℕ) →
        (op : BinOp) (a b : ValueOf) (lines : List ℕ) →
        EndsWith (n + 1) (binary (jobs host code resumes n) op a b lines) }
    ensures unary_operators { (host : HostOf H) (code : Code) (resumes : Resumes H) → IsFair host → (n : ℕ) →
        (op : UnOp) (a : ValueOf) (lines : List ℕ) →
        EndsWith (n + 1) (unary (jobs host code resumes n) op a lines) }
    ensures looks { (host : HostOf H) (code : Code) (resumes : Resumes H) → IsFair host → (n : ℕ) →
        (object key : ValueOf) (lines : List ℕ) →
        EndsWith (n + 1) (look (jobs host code resumes n) object key lines) }
    ensures stores { (host : HostOf H) (code : Code) (resumes : Resumes H) → IsFair host → (n : ℕ) →
        (object key value : ValueOf) (lines : List ℕ) →
        EndsWith (n + 1) (put_at (jobs host code resumes n) object key value lines) }
{}

/// An operator by itself changes nothing but what is used.
pub fn operators_change_used_alone()
    ensures binary { (op : BinOp) (a b : ValueOf) (lines : List ℕ) → ChangesUsedAlone (binary_op op a b lines) }
    ensures unary { (op : UnOp) (a : ValueOf) (lines : List ℕ) → ChangesUsedAlone (unary_op op a lines) }
{}
