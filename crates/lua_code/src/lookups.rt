//! What a text that loads tells of its names, as its code has it. A number that is no node has nothing.

ghost use Rattle.std.specs.Prelude.{◌≡◌};
ghost use Rattle.lua_code.specs.CodeOf.{code_of};

use lua_ast::NodeId;
use lua_scope::{Parsed, Place};

/// The variable that a Name node means; none where it means a field of the table of globals, and
/// for any other node (Lua 5.2 manual, 3.2).
#[tactic(auto, unfolding(crate::specs::CodeOf::code_of))]
pub fn variable(parsed: &Parsed, id: NodeId) -> Option<u32>
    ensures { result ≡ (code_of parsed.now.chunk).variable id }
{
    if id.index() >= parsed.chunk().len() {
        return None;
    }
    match parsed.place(id) {
        Place::Local(variable) => Some(variable),
        Place::Captured(variable) => Some(variable),
        Place::Global => None,
    }
}

/// The number of the first variable that a node declares; its others follow in order.
#[tactic(auto, unfolding(crate::specs::CodeOf::code_of))]
pub fn first_variable(parsed: &Parsed, id: NodeId) -> u32
    ensures { result ≡ (code_of parsed.now.chunk).first_variable id }
{
    if id.index() < parsed.chunk().len() {
        parsed.first_variable(id)
    } else {
        0
    }
}

/// Whether a function inside the one that declares the variable uses it.
#[tactic(auto, unfolding(crate::specs::CodeOf::code_of))]
pub fn is_captured(parsed: &Parsed, variable: u32) -> bool
    ensures { result ≡ (code_of parsed.now.chunk).is_captured variable }
{
    parsed.is_captured(variable)
}

/// The variables that a Function node captures, rising.
#[tactic(auto, unfolding(crate::specs::CodeOf::code_of))]
pub fn captured(parsed: &Parsed, id: NodeId) -> &[u32]
    ensures { result.now ≡ (code_of parsed.now.chunk).captured id }
{
    if id.index() < parsed.chunk().len() {
        parsed.captured(id)
    } else {
        &[]
    }
}
