//! What kinds of expressions the grammar tells apart (Lua 5.2 manual, section 9).

ghost use Rattle.std.specs.Prelude.{◌≡◌, ℕ};
ghost use Rattle.lua_ast.specs.Tree.{Tree};
ghost use Rattle.lua_ast.specs.Decode.{node_tree};
ghost use Rattle.lua_grammar.specs.Grammar.{is_var, is_call, is_prefix};
ghost use Rattle.lua_grammar.specs.Pushdown.{level_of};

use crate::frame::Operation;
use crate::operators::level;
use lua_ast::Node;

/// Whether it can be assigned to.
pub fn is_var(node: &Node) -> bool
    ensures { (part : ℕ → Tree) (number line : ℕ) → result ≡ is_var (node_tree part number line node.now) }
{
    match node {
        Node::Name { .. } | Node::Index { .. } => true,
        _ => false,
    }
}

/// Whether it is a call, which can be a statement.
pub fn is_call(node: &Node) -> bool
    ensures { (part : ℕ → Tree) (number line : ℕ) → result ≡ is_call (node_tree part number line node.now) }
{
    match node {
        Node::Call { .. } | Node::Method { .. } => true,
        _ => false,
    }
}

/// Whether it can be indexed and called.
pub fn is_prefix(node: &Node) -> bool
    ensures { (part : ℕ → Tree) (number line : ℕ) → result ≡ is_prefix (node_tree part number line node.now) }
{
    match node {
        Node::Name { .. }
        | Node::Paren { .. }
        | Node::Index { .. }
        | Node::Call { .. }
        | Node::Method { .. } => true,
        _ => false,
    }
}

/// The level of an expression.
pub fn level_of(node: &Node) -> u8
    ensures { (part : ℕ → Tree) (number line : ℕ) → result ≡ level_of (node_tree part number line node.now) }
{
    match node {
        Node::Unary { .. } => 7,
        Node::Binary { op, .. } => level(Operation::Value(*op)),
        Node::Logic { op, .. } => level(Operation::Logic(*op)),
        _ => 9,
    }
}
