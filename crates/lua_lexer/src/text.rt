//! What a literal string stands for.

ghost use Rattle.std.specs.Prelude.{◌≡◌, IfOk};
ghost use Rattle.lua_lexer.specs.Values.{text_value};

use crate::bracket::{bracket_level, long_value};
use crate::quoted::quoted_value;
use std::alloc::{AllocError, Global};

/// The bytes that a literal string stands for: those between its long brackets, or those between its quotes with
/// each escape sequence replaced by what it stands for (Lua 5.2 manual, section 3.1).
#[tactic(auto, unfolding(crate::specs::Values::text_value))]
pub fn text_value(alloc: Global, text: &[u8]) -> Result<Vec<u8>, AllocError>
    ensures { IfOk result (λ v. v.items ≡ text_value text.now) }
{
    match bracket_level(text) {
        Some(level) => long_value(alloc, level, text),
        None => quoted_value(alloc, text),
    }
}
