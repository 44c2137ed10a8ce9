//! Texts, which are lists of bytes (Lua 5.2 manual, 2.1).

ghost use Rattle.std.specs.Prelude.{◌≡◌, List, ℕ, nat_eq, IfOk, IfErr};
ghost use Rattle.std.specs.Rc.{rc_slice_items};
ghost use Rattle.std.specs.Hash as fed;
ghost use Rattle.std.specs.Cmp.Lexicographic.{pointwise, nat_list_eq_equiv};
ghost use Rattle.std.specs.Cmp.{partial_equiv_from_equiv, on_per, on_equiv};
ghost use Rattle.std.specs.Cmp.Rules.{hashing};
ghost use Rattle.std.proofs.Common.{rules};

use std::alloc::{AllocError, Global};
use std::hash::{Hash, Hasher};
use std::marker::Model;
use std::rc::RcSlice;

/// A text of bytes, which its clones share.
#[derive(Drop)]
pub struct LuaText {
    bytes: RcSlice<u8>,
}

impl Model for LuaText {
    ghost Value = { List ℕ };

    ghost view = { λ t. rc_slice_items t.bytes };
}

impl LuaText {
    /// The text of these bytes.
    pub fn from_slice(alloc: Global, bytes: &[u8]) -> Result<LuaText, AllocError>
        ensures { IfOk result (λ t. t ≡ bytes.now) }
    {
        Ok(LuaText {
            bytes: RcSlice::from_slice(alloc, bytes)?,
        })
    }

    /// Its bytes.
    pub fn as_slice(&self) -> &[u8]
        ensures { result.now ≡ self.now }
    {
        self.bytes.as_slice()
    }
}

impl Clone for LuaText {
    ghost is_clone = { λ t copy. copy ≡ t };

    fn clone(&self) -> Result<LuaText, AllocError> {
        Ok(LuaText {
            bytes: self.bytes.clone()?,
        })
    }
}

impl PartialEq for LuaText {
    ghost eq = { λ x y. pointwise nat_eq x y };

    ghost laws = { partial_equiv_from_equiv nat_list_eq_equiv };

    fn eq(&self, other: &LuaText) -> bool {
        self.as_slice() == other.as_slice()
    }
}

impl Eq for LuaText {
    ghost laws = { nat_list_eq_equiv };
}

impl Hash for LuaText {
    ghost hash_input = { λ t. fed.slice fed.u8 t };

    ghost respects_eq = { Prim.search (hashing, rules) };

    fn hash<H: Hasher>(&self, state: &mut H) {
        self.as_slice().hash(state);
    }
}
