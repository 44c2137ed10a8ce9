//! Arguments and fields (Lua 5.2 manual, 3.4.8 and 3.4.9).

ghost use Rattle.std.specs.Prelude.{◌<◌, true, false, length, Some, None, ◌∷◌};
ghost use Rattle.lua_ast.specs.Decode.{fields_of, with_field, FieldBelow};
ghost use Rattle.lua_grammar.specs.Signs.{token};
ghost use Rattle.lua_grammar.specs.Pushdown.{args_open, field_next, field_done, key_end};
ghost use Rattle.lua_parser_state.specs.Shown.{tree_in, stack_in, callee_in, purpose_in, attributes, CalleeBelow, TableBelow};
ghost use Rattle.lua_parser_state.specs.Gave.{Gave, IsSmall, terminal_of};
ghost use Rattle.lua_ast.specs.Postfix.{field_on};
ghost use Rattle.lua_parser_state.specs.Order.{callee_on, table_on, Stands, Answers};

use crate::call::{call, field_done, finish_table};
use crate::expression::begin_in;
use lua_ast::{AstText, Field, Ids, NodeId};
use lua_lexer::TokenKind;
use lua_parser_state::{BegunTable, Callee, Frame, Parser, Refusal, State};

/// Reads the first token of the first argument, or `)`.
#[tactic(auto, using(lua_parser_state::proofs::Lists::list_of_none))]
pub fn args_open(
    parser: &mut Parser,
    limit: u8,
    callee: Callee,
    kind: TokenKind,
    line: u32,
    slice: &[u8],
) -> Result<State, Refusal>
    requires callee { CalleeBelow (length parser.old.nodes) callee }
    requires small { IsSmall kind slice.now }
    ensures gave { Gave
        (args_open limit (callee_in parser.old.nodes callee) (stack_in parser.old) (token kind) (attributes true line slice.now))
        (args_open limit (callee_in parser.old.nodes callee) (stack_in parser.old) (token kind) (attributes false line slice.now))
        result parser.new }
    ensures order { Stands (λ below. callee_on callee below) parser.old → Answers result parser.new }
{
    let args = Ids::new(parser.alloc());
    match kind {
        TokenKind::CloseParen => Ok(call(parser, limit, callee, args)?),
        _ => begin_in(
            parser,
            Frame::InArgs {
                limit,
                callee,
                args,
            },
            kind,
            line,
            slice,
        ),
    }
}

/// Reads the first token of a field, or `}`.
pub fn field_next(
    parser: &mut Parser,
    table: BegunTable,
    kind: TokenKind,
    line: u32,
    slice: &[u8],
) -> Result<State, Refusal>
    requires table { TableBelow (length parser.old.nodes) table }
    requires small { IsSmall kind slice.now }
    ensures gave { Gave
        (field_next (purpose_in parser.old.nodes table.purpose) table.line (fields_of (tree_in parser.old.nodes) table.fields) (stack_in parser.old) (token kind) (attributes true line slice.now))
        (field_next (purpose_in parser.old.nodes table.purpose) table.line (fields_of (tree_in parser.old.nodes) table.fields) (stack_in parser.old) (token kind) (attributes false line slice.now))
        result parser.new }
    ensures order { Stands (λ below. table_on table below) parser.old → Answers result parser.new }
{
    match kind {
        TokenKind::CloseBrace => Ok(finish_table(parser, table)?),
        TokenKind::Name => {
            let name = AstText::from_bytes(parser.alloc(), slice)?;
            Ok(State::FieldName {
                table,
                own: line,
                name,
            })
        }
        TokenKind::OpenBracket => parser.enter(Frame::InKey { table }, 0),
        _ => begin_in(parser, Frame::InItem { table }, kind, line, slice),
    }
}

/// Reads the `=` behind a key.
pub fn key_end(
    parser: &mut Parser,
    table: BegunTable,
    key: NodeId,
    kind: TokenKind,
) -> Result<State, Refusal>
    requires table { TableBelow (length parser.old.nodes) table }
    requires key { key < length parser.old.nodes }
    ensures gave { Gave
        (key_end (purpose_in parser.old.nodes table.purpose) table.line (fields_of (tree_in parser.old.nodes) table.fields) (tree_in parser.old.nodes key) (stack_in parser.old) (token kind))
        (key_end (purpose_in parser.old.nodes table.purpose) table.line (fields_of (tree_in parser.old.nodes) table.fields) (tree_in parser.old.nodes key) (stack_in parser.old) (token kind))
        result parser.new }
    ensures order { Stands (λ below. key ∷ table_on table below) parser.old → Answers result parser.new }
{
    match kind {
        TokenKind::Assign => {
            parser.push(Frame::InKeyed { table, key })?;
            Ok(State::Need { limit: 0 })
        }
        _ => Err(Refusal::Unexpected),
    }
}

/// Appends a field to those of its table, and reads the token behind it.
#[tactic(auto, using(lua_ast::proofs::Growing::fields_of_push, lua_ast::proofs::PlacesBelow::fields_below_push, lua_parser_state::proofs::Ordering::fields_on_push))]
pub fn field_over(
    parser: &mut Parser,
    mut table: BegunTable,
    field: Field,
    kind: Option<TokenKind>,
) -> Result<State, Refusal>
    requires table { TableBelow (length parser.old.nodes) table }
    requires field { FieldBelow (length parser.old.nodes) field }
    ensures gave { Gave
        (field_done (purpose_in parser.old.nodes table.purpose) table.line (with_field (tree_in parser.old.nodes) (fields_of (tree_in parser.old.nodes) table.fields) field) (stack_in parser.old) (terminal_of kind))
        (field_done (purpose_in parser.old.nodes table.purpose) table.line (with_field (tree_in parser.old.nodes) (fields_of (tree_in parser.old.nodes) table.fields) field) (stack_in parser.old) (terminal_of kind))
        result parser.new }
    ensures order { Stands (λ below. field_on field (table_on table below)) parser.old → Answers result parser.new }
{
    table.fields.push(field)?;
    match kind {
        Some(kind) => field_done(parser, table, kind),
        None => Err(Refusal::Unexpected),
    }
}
