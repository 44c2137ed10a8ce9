//! The ends of parentheses, indices, arguments, keys and operations.

ghost use Rattle.std.specs.Prelude.{◌<◌, ℕ, List, [], true, false, length, Some, ◌≡◌, IfOk, OnOk, ◌∷◌};
ghost use Rattle.lua_ast.specs.Decode.{list_of, fields_of, AllBelow};
ghost use Rattle.lua_grammar.specs.Pushdown.{InParen, InIndex, InArgs, InKey, close};
ghost use Rattle.lua_parser_state.specs.Shown.{tree_in, stack_in, callee_in, purpose_in, attributes, CalleeBelow, TableBelow, operator_in};
ghost use Rattle.lua_parser_state.specs.Gave.{Gave, terminal_of};
ghost use Rattle.lua_grammar.specs.Operators.{joined};
ghost use Rattle.lua_ast.specs.Postfix.{list_on, Leaves};
ghost use Rattle.lua_parser_state.specs.Order.{callee_on, table_on, Stands, Answers};

use crate::call::call;
use lua_ast::{Ids, Node, NodeId};
use lua_lexer::TokenKind;
use lua_parser_state::{BegunTable, Callee, Frame, Operation, Parser, Refusal, State};
use std::alloc::AllocError;

/// Reads the `)` behind an expression in parentheses, and adds its node.
pub fn close_paren(
    parser: &mut Parser,
    limit: u8,
    line: u32,
    had: NodeId,
    kind: Option<TokenKind>,
) -> Result<State, Refusal>
    requires { had < length parser.old.nodes }
    ensures gave { Gave
        (close (InParen limit line) (tree_in parser.old.nodes had) (stack_in parser.old) (terminal_of kind) (attributes true 0 []))
        (close (InParen limit line) (tree_in parser.old.nodes had) (stack_in parser.old) (terminal_of kind) (attributes false 0 []))
        result parser.new }
    ensures order { Stands (λ below. had ∷ below) parser.old → Answers result parser.new }
{
    match kind {
        Some(TokenKind::CloseParen) => Ok(parser.give(limit, Node::Paren { inner: had }, line)?),
        _ => Err(Refusal::Unexpected),
    }
}

/// Reads the `]` behind an index, and adds the node of what is indexed.
pub fn close_index(
    parser: &mut Parser,
    limit: u8,
    object: NodeId,
    had: NodeId,
    kind: Option<TokenKind>,
) -> Result<State, Refusal>
    requires object { object < length parser.old.nodes }
    requires had { had < length parser.old.nodes }
    ensures gave { Gave
        (close (InIndex limit (tree_in parser.old.nodes object)) (tree_in parser.old.nodes had) (stack_in parser.old) (terminal_of kind) (attributes true 0 []))
        (close (InIndex limit (tree_in parser.old.nodes object)) (tree_in parser.old.nodes had) (stack_in parser.old) (terminal_of kind) (attributes false 0 []))
        result parser.new }
    ensures order { Stands (λ below. had ∷ object ∷ below) parser.old → Answers result parser.new }
{
    match kind {
        Some(TokenKind::CloseBracket) => {
            let line = parser.line(object);
            Ok(parser.give(limit, Node::Index { object, key: had }, line)?)
        }
        _ => Err(Refusal::Unexpected),
    }
}

/// Appends an argument, and reads the `,` or `)` behind it.
#[tactic(auto, using(lua_ast::proofs::Growing::list_of_push, lua_ast::proofs::PlacesBelow::below_push, lua_parser_state::proofs::Ordering::list_on_push))]
pub fn close_args(
    parser: &mut Parser,
    limit: u8,
    callee: Callee,
    mut args: Ids,
    had: NodeId,
    kind: Option<TokenKind>,
) -> Result<State, Refusal>
    requires callee { CalleeBelow (length parser.old.nodes) callee }
    requires args { AllBelow (length parser.old.nodes) args }
    requires had { had < length parser.old.nodes }
    ensures gave { Gave
        (close (InArgs limit (callee_in parser.old.nodes callee) (list_of (tree_in parser.old.nodes) args)) (tree_in parser.old.nodes had) (stack_in parser.old) (terminal_of kind) (attributes true 0 []))
        (close (InArgs limit (callee_in parser.old.nodes callee) (list_of (tree_in parser.old.nodes) args)) (tree_in parser.old.nodes had) (stack_in parser.old) (terminal_of kind) (attributes false 0 []))
        result parser.new }
    ensures order { Stands (λ below. had ∷ list_on args (callee_on callee below)) parser.old → Answers result parser.new }
{
    args.push(had)?;
    match kind {
        Some(TokenKind::CloseParen) => Ok(call(parser, limit, callee, args)?),
        Some(TokenKind::Comma) => {
            parser.push(Frame::InArgs {
                limit,
                callee,
                args,
            })?;
            Ok(State::Need { limit: 0 })
        }
        _ => Err(Refusal::Unexpected),
    }
}

/// Reads the `]` behind a key.
pub fn close_key(
    parser: &mut Parser,
    table: BegunTable,
    had: NodeId,
    kind: Option<TokenKind>,
) -> Result<State, Refusal>
    requires table { TableBelow (length parser.old.nodes) table }
    requires had { had < length parser.old.nodes }
    ensures gave { Gave
        (close (InKey (purpose_in parser.old.nodes table.purpose) table.line (fields_of (tree_in parser.old.nodes) table.fields)) (tree_in parser.old.nodes had) (stack_in parser.old) (terminal_of kind) (attributes true 0 []))
        (close (InKey (purpose_in parser.old.nodes table.purpose) table.line (fields_of (tree_in parser.old.nodes) table.fields)) (tree_in parser.old.nodes had) (stack_in parser.old) (terminal_of kind) (attributes false 0 []))
        result parser.new }
    ensures order { Stands (λ below. had ∷ table_on table below) parser.old → Answers result parser.new }
{
    match kind {
        Some(TokenKind::CloseBracket) => Ok(State::KeyEnd { table, key: had }),
        _ => Err(Refusal::Unexpected),
    }
}

/// Adds the node of a binary operation.
pub fn finish_operation(
    parser: &mut Parser,
    op: Operation,
    left: NodeId,
    right: NodeId,
) -> Result<NodeId, AllocError>
    requires left { left < length parser.old.nodes }
    requires right { right < length parser.old.nodes }
    ensures tree { IfOk result (λ id. tree_in parser.new.nodes id
        ≡ joined (operator_in op) (tree_in parser.old.nodes left) (tree_in parser.old.nodes right)) }
    ensures within { IfOk result (λ id. id < length parser.new.nodes) }
    ensures stack { OnOk result (stack_in parser.new ≡ stack_in parser.old) }
    ensures frames { OnOk result (parser.new.frames ≡ parser.old.frames) }
    ensures order { IfOk result (λ id. (below : List ℕ) →
        Leaves parser.old.nodes (right ∷ left ∷ below) → Leaves parser.new.nodes (id ∷ below)) }
{
    let line = parser.line(left);
    match op {
        Operation::Value(op) => Ok(parser.add(Node::Binary { op, left, right }, line)?),
        Operation::Logic(op) => Ok(parser.add(Node::Logic { op, left, right }, line)?),
    }
}
