//! Laws of the pool's rules. Each function's contract is the law, and the function changes nothing.
ghost use Rattle.std.specs.Prelude.{ℕ, List, All};
ghost use Rattle.zp_tree.specs.Tree.{Tree};
ghost use Rattle.zp_tree.specs.WellFormed.{IsWellFormed};
ghost use Rattle.txg_core.specs.declared.event.Entry.{Entry as EntryOf};
ghost use Rattle.txg_core.specs.Serial.{world, given};
ghost use Rattle.txg_core.specs.Laws.{AllCalls};
ghost use Rattle.zp_calls.specs.declared.call.Call.{Call as CallOf};
ghost use Rattle.zp_calls.specs.Names.{HasValidNames};
ghost use Rattle.zp_calls.specs.Replies.{IsPrintable};
ghost use Rattle.pool_object.specs.Pool.{does};
ghost use Rattle.pool_object.specs.Histories.{pool_origin};

use txg_core::{Properties, kept_by_doing};
use zp_calls::{Call, Reply};

/// Doing a call whose names are valid leaves a well-formed tree well formed, and the reply to a
/// call on a well-formed tree holds texts of UTF-8 alone.
pub fn calls_keep_trees_well_formed()
    ensures tree { (now : ℕ) (t : Tree) (c : CallOf) (group : ℕ) →
        IsWellFormed t → HasValidNames c → IsWellFormed (does now t c group).1 }
    ensures reply { (now : ℕ) (t : Tree) (c : CallOf) (group : ℕ) →
        IsWellFormed t → IsPrintable (does now t c group).0 }
{}

/// What is so of calls, trees and replies in a history of a pool.
#[derive(Drop)]
struct OfPools;

impl Properties for OfPools {
    type Call = Call;

    type Reply = Reply;

    ghost use Rattle.zp_tree.specs.Tree.{Tree};
    ghost use Rattle.zp_tree.specs.WellFormed.{IsWellFormed};
    ghost use Rattle.zp_calls.specs.Names.{HasValidNames};
    ghost use Rattle.zp_calls.specs.Replies.{IsPrintable};

    ghost World = { Tree };

    ghost IsCall = { HasValidNames };

    ghost IsWorld = { IsWellFormed };

    ghost IsReply = { IsPrintable };
}

/// Where the calls' names are valid and the first tree is well formed, the tree after every
/// history is well formed, and every reply that a session was given holds texts of UTF-8 alone.
pub fn histories_keep_trees_well_formed()
    ensures world { (now : ℕ) (t : Tree) (counts : List ℕ) (h : List (EntryOf CallOf)) →
        IsWellFormed t → AllCalls HasValidNames h → IsWellFormed (world (pool_origin now t counts) h) }
    ensures replies { (now : ℕ) (t : Tree) (counts : List ℕ) (h : List (EntryOf CallOf)) (s : ℕ) →
        IsWellFormed t → AllCalls HasValidNames h → All IsPrintable (given (pool_origin now t counts) h s) }
{
    calls_keep_trees_well_formed();
    kept_by_doing::<OfPools>();
}
