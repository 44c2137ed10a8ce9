//! Iterators over lists of the pool.

ghost use Rattle.std.specs.Prelude.{◌≡◌};
ghost use Rattle.lua_values.specs.Iters.{moved_to};

use lua_meaning::{IterState, LuaText};

/// Notes the last name that an iterator over a list gave.
pub fn move_to(state: &mut IterState, last: LuaText)
    ensures { state.new ≡ moved_to last state.old }
{
    if let IterState::List { last: before, .. } = state {
        *before = last;
    }
}
