//! Laws of the output. Each function does nothing, and its contract is the law.
ghost use Rattle.std.specs.Prelude.{◌≡◌, ℕ, List, All};
ghost use Rattle.zp_tree.specs.declared.item.Item.{Item as ItemOf};
ghost use Rattle.txg_core.specs.declared.event.Event.{Event as EventOf};
ghost use Rattle.zp_calls.specs.declared.reply.Reply.{Reply as ReplyOf};
ghost use Rattle.zc_reply.specs.Laws.{IsNumbered};
ghost use Rattle.zc_reply.specs.Output.{output_text};

/// The output tells its journal: two outputs of the same bytes have the same
/// events, where the numbers of sessions have 32 bits.
pub fn output_tells_its_journal()
    ensures { (j k : List EventOf) (r q : List (List ReplyOf)) (s n : ℕ) (t u : List ItemOf) →
        All IsNumbered j → All IsNumbered k → output_text j r s t ≡ output_text k q n u → j ≡ k }
{}
