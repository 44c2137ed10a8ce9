//! What follows an expression.

ghost use Rattle.std.specs.Prelude.{◌<◌, true, false, length, Some, None, IfOk, ◌∷◌};
ghost use Rattle.lua_grammar.specs.Pushdown.{close, follow, rest, field_name};
ghost use Rattle.lua_grammar.specs.Signs.{token};
ghost use Rattle.lua_ast.specs.Decode.{fields_of};
ghost use Rattle.lua_parser_state.specs.Shown.{tree_in, stack_in, frame_in, purpose_in, attributes, TableBelow, FrameBelow};
ghost use Rattle.lua_parser_state.specs.Gave.{Gave, terminal_of};
ghost use Rattle.lua_parser.specs.Follows.{Folds, IsKept, IsFewer, Follows, FoldsInOrder, FollowsInOrder};
ghost use Rattle.lua_parser_state.specs.Order.{table_on, frame_on, Stands, Answers};

use lua_ast::{AstText, Field, Node, NodeId};
use lua_blocks::close_in_header;
use lua_expressions::{
    close_args, close_index, close_key, close_paren, extend, field_over, finish_operation,
    suffix_at,
};
use lua_lexer::TokenKind;
use lua_parser_state::{BegunTable, Frame, Operation, Parser, Refusal, State};
use lua_statements::close_in_statement;
use std::alloc::AllocError;

/// An expression that was read, where at least the level `limit` is wanted.
#[derive(Clone, Copy, Drop)]
pub struct Operand {
    pub limit: u8,
    pub node: NodeId,
}

/// What was begun, where an expression is over.
#[derive(Drop)]
pub enum Folded {
    /// An operation, of which the expression is the last operand. It is an expression itself.
    Operation(Operand),
    /// Something else.
    Inside(Frame),
    /// Nothing.
    Nothing,
}

/// What comes of a sign behind an expression.
#[derive(Drop)]
pub enum Followed {
    /// It is read.
    Goes(State),
    /// The expression is over, and so is the operation whose last operand it is.
    Over(Operand),
}

/// Reads the token behind an expression that is over, within this frame.
#[tactic(auto, using(crate::proofs::Others::close_in_block))]
pub fn close(
    parser: &mut Parser,
    frame: Frame,
    had: NodeId,
    kind: Option<TokenKind>,
    line: u32,
    slice: &[u8],
) -> Result<State, Refusal>
    requires frame { FrameBelow (length parser.old.nodes) frame }
    requires had { had < length parser.old.nodes }
    ensures gave { Gave
        (close (frame_in parser.old.nodes frame) (tree_in parser.old.nodes had) (stack_in parser.old) (terminal_of kind) (attributes true line slice.now))
        (close (frame_in parser.old.nodes frame) (tree_in parser.old.nodes had) (stack_in parser.old) (terminal_of kind) (attributes false line slice.now))
        result parser.new }
    ensures order { Stands (λ below. had ∷ frame_on frame below) parser.old → Answers result parser.new }
{
    match frame {
        Frame::InParen { limit, line } => close_paren(parser, limit, line, had, kind),
        Frame::InIndex { limit, object } => close_index(parser, limit, object, had, kind),
        Frame::InArgs {
            limit,
            callee,
            args,
        } => close_args(parser, limit, callee, args, had, kind),
        Frame::InItem { table } => field_over(parser, table, Field::Item { value: had }, kind),
        Frame::InNamed { table, name } => {
            field_over(parser, table, Field::Named { name, value: had }, kind)
        }
        Frame::InKey { table } => close_key(parser, table, had, kind),
        Frame::InKeyed { table, key } => {
            field_over(parser, table, Field::Keyed { key, value: had }, kind)
        }
        Frame::InStatement(statement) => {
            close_in_statement(parser, statement, had, kind, line, slice)
        }
        Frame::InHeader(header) => close_in_header(parser, header, had, kind),
        Frame::InUnary { .. } | Frame::InBinary { .. } | Frame::InBlock(_) => {
            Err(Refusal::Unexpected)
        }
    }
}

/// Takes the frame on top off, and adds the node of the operation whose last operand the expression is, if it is one.
fn fold(parser: &mut Parser, had: NodeId) -> Result<Folded, AllocError>
    requires { had < length parser.old.nodes }
    ensures folds { IfOk result (λ folded. Folds (stack_in parser.old) (tree_in parser.old.nodes had) folded parser.new) }
    ensures kept { IfOk result (λ folded. IsKept folded parser.old.nodes parser.new.nodes) }
    ensures fewer { IfOk result (λ folded. IsFewer folded (length parser.old.frames) (length parser.new.frames)) }
    ensures order { IfOk result (λ folded. FoldsInOrder had parser.old folded parser.new) }
{
    let Some(frame) = parser.pop() else {
        return Ok(Folded::Nothing);
    };
    match frame {
        Frame::InUnary { limit, line, op } => {
            let node = parser.add(Node::Unary { op, operand: had }, line)?;
            Ok(Folded::Operation(Operand { limit, node }))
        }
        Frame::InBinary { limit, op, left } => {
            let node = finish_operation(parser, op, left, had)?;
            Ok(Folded::Operation(Operand { limit, node }))
        }
        other => Ok(Folded::Inside(other)),
    }
}

/// Goes on with an expression by this token, or ends it, and with it the operation that it is the last operand of.
fn follow_once(
    parser: &mut Parser,
    limit: u8,
    had: NodeId,
    kind: Option<TokenKind>,
    line: u32,
    slice: &[u8],
) -> Result<Followed, Refusal>
    requires { had < length parser.old.nodes }
    ensures follows { Follows
        (follow (stack_in parser.old) limit (tree_in parser.old.nodes had) (terminal_of kind) (attributes true line slice.now))
        (follow (stack_in parser.old) limit (tree_in parser.old.nodes had) (terminal_of kind) (attributes false line slice.now))
        (terminal_of kind) line slice.now (length parser.old.frames) result parser.new }
    ensures order { FollowsInOrder had parser.old result parser.new }
{
    match suffix_at(parser, limit, had, kind) {
        Some(suffix) => match extend(parser, suffix, limit, had, kind, line, slice) {
            Ok(state) => Ok(Followed::Goes(state)),
            Err(refusal) => Err(refusal),
        },
        None => over(parser, had, kind, line, slice),
    }
}

/// Ends an expression, and with it the operation that it is the last operand of, or else reads the token behind it.
fn over(
    parser: &mut Parser,
    had: NodeId,
    kind: Option<TokenKind>,
    line: u32,
    slice: &[u8],
) -> Result<Followed, Refusal>
    requires { had < length parser.old.nodes }
    ensures follows { Follows
        (rest (stack_in parser.old) (tree_in parser.old.nodes had) (terminal_of kind) (attributes true line slice.now))
        (rest (stack_in parser.old) (tree_in parser.old.nodes had) (terminal_of kind) (attributes false line slice.now))
        (terminal_of kind) line slice.now (length parser.old.frames) result parser.new }
    ensures order { FollowsInOrder had parser.old result parser.new }
{
    match fold(parser, had)? {
        Folded::Operation(operand) => Ok(Followed::Over(operand)),
        Folded::Inside(frame) => match close(parser, frame, had, kind, line, slice) {
            Ok(state) => Ok(Followed::Goes(state)),
            Err(refusal) => Err(refusal),
        },
        Folded::Nothing => Err(Refusal::Unexpected),
    }
}

/// Reads the token behind an expression.
pub fn follow(
    parser: &mut Parser,
    limit: u8,
    had: NodeId,
    kind: Option<TokenKind>,
    line: u32,
    slice: &[u8],
) -> Result<State, Refusal>
    requires { had < length parser.old.nodes }
    ensures gave { Gave
        (follow (stack_in parser.old) limit (tree_in parser.old.nodes had) (terminal_of kind) (attributes true line slice.now))
        (follow (stack_in parser.old) limit (tree_in parser.old.nodes had) (terminal_of kind) (attributes false line slice.now))
        result parser.new }
    ensures order { Stands (λ below. had ∷ below) parser.old → Answers result parser.new }
{
    let mut operand = Operand { limit, node: had };
    'operands: loop {
        match follow_once(parser, operand.limit, operand.node, kind, line, slice) {
            Ok(Followed::Goes(state)) => return Ok(state),
            Ok(Followed::Over(larger)) => operand = larger,
            Err(refusal) => return Err(refusal),
        }
    }
}

/// Reads the token behind a name that begins a field, and stands on the line `own`.
pub fn field_name(
    parser: &mut Parser,
    table: BegunTable,
    own: u32,
    name: AstText,
    kind: TokenKind,
    line: u32,
    slice: &[u8],
) -> Result<State, Refusal>
    requires table { TableBelow (length parser.old.nodes) table }
    ensures gave { Gave
        (field_name (purpose_in parser.old.nodes table.purpose) table.line (fields_of (tree_in parser.old.nodes) table.fields) own name (stack_in parser.old) (token kind) (attributes true line slice.now))
        (field_name (purpose_in parser.old.nodes table.purpose) table.line (fields_of (tree_in parser.old.nodes) table.fields) own name (stack_in parser.old) (token kind) (attributes false line slice.now))
        result parser.new }
    ensures order { Stands (λ below. table_on table below) parser.old → Answers result parser.new }
{
    match kind {
        TokenKind::Assign => {
            parser.push(Frame::InNamed { table, name })?;
            Ok(State::Need { limit: 0 })
        }
        _ => {
            parser.push(Frame::InItem { table })?;
            let had = parser.add(Node::Name { text: name }, own)?;
            follow(parser, 0, had, Some(kind), line, slice)
        }
    }
}
