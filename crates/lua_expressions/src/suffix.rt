//! What may follow an expression (Lua 5.2 manual, 3.2, 3.4.7, 3.4.9 and section 9).

ghost use Rattle.std.specs.Prelude.{◌≡◌, ◌<◌, true, false, length, Some, None, cond, option_map, ◌∷◌};
ghost use Rattle.lua_grammar.specs.Signs.{token};
ghost use Rattle.lua_grammar.specs.Operators.{operator_of};
ghost use Rattle.lua_grammar.specs.Grammar.{is_prefix};
ghost use Rattle.lua_parser_state.specs.Shown.{tree_in, stack_in, operator_in, attributes};
ghost use Rattle.lua_parser_state.specs.Gave.{Gave, terminal_of};
ghost use Rattle.lua_expressions.specs.Suffixes.{IsSuffix, chosen, extended};
ghost use Rattle.lua_parser_state.specs.Order.{Stands, Answers};

use crate::call::args_begin;
use lua_ast::NodeId;
use lua_lexer::TokenKind;
use lua_parser_state::{
    Callee, Frame, Naming, Operation, Parser, Refusal, State, left_level, level, operation,
    right_level,
};

/// What goes on with an expression.
#[derive(Clone, Copy, Drop)]
pub enum Suffix {
    /// `.name`
    Field,
    /// `:name`
    Method,
    /// `[key]`
    Index,
    /// Arguments.
    Arguments,
    /// A binary operator.
    Operator(Operation),
}

/// The operator that goes on with an expression of a level, where at least the level `limit` is wanted.
fn chosen(limit: u8, had_level: u8, kind: TokenKind) -> Option<Operation>
    ensures { option_map operator_in result ≡ chosen limit had_level (operator_of (token kind)) }
{
    match operation(kind) {
        None => None,
        Some(op) => {
            if limit <= level(op) && left_level(op) <= had_level {
                Some(op)
            } else {
                None
            }
        }
    }
}

/// What this token begins behind an expression, if it goes on with it.
pub fn suffix_of(parser: &Parser, limit: u8, had: NodeId, kind: TokenKind) -> Option<Suffix>
    requires { had < length parser.now.nodes }
    ensures { IsSuffix limit (tree_in parser.now.nodes had) (token kind) result }
{
    match kind {
        TokenKind::Dot => behind_prefix(parser, had, Suffix::Field),
        TokenKind::Colon => behind_prefix(parser, had, Suffix::Method),
        TokenKind::OpenBracket => behind_prefix(parser, had, Suffix::Index),
        TokenKind::OpenParen | TokenKind::OpenBrace | TokenKind::Text => {
            behind_prefix(parser, had, Suffix::Arguments)
        }
        _ => {
            let op = chosen(limit, parser.level_of(had), kind)?;
            Some(Suffix::Operator(op))
        }
    }
}

/// The same of a token or the end, with which nothing goes on.
pub fn suffix_at(parser: &Parser, limit: u8, had: NodeId, kind: Option<TokenKind>) -> Option<Suffix>
    requires { had < length parser.now.nodes }
    ensures { IsSuffix limit (tree_in parser.now.nodes had) (terminal_of kind) result }
{
    match kind {
        Some(kind) => suffix_of(parser, limit, had, kind),
        None => None,
    }
}

/// This suffix, if it is behind a prefix.
fn behind_prefix(parser: &Parser, had: NodeId, suffix: Suffix) -> Option<Suffix>
    requires { had < length parser.now.nodes }
    ensures { result ≡ cond (is_prefix (tree_in parser.now.nodes had)) (Some suffix) None }
{
    if parser.is_prefix(had) {
        Some(suffix)
    } else {
        None
    }
}

/// Goes on with an expression by a suffix that begins with this token.
pub fn extend(
    parser: &mut Parser,
    suffix: Suffix,
    limit: u8,
    had: NodeId,
    kind: Option<TokenKind>,
    line: u32,
    slice: &[u8],
) -> Result<State, Refusal>
    requires { had < length parser.old.nodes }
    ensures gave { Gave
        (extended limit (tree_in parser.old.nodes had) (stack_in parser.old) (terminal_of kind) (attributes true line slice.now) suffix)
        (extended limit (tree_in parser.old.nodes had) (stack_in parser.old) (terminal_of kind) (attributes false line slice.now) suffix)
        result parser.new }
    ensures order { Stands (λ below. had ∷ below) parser.old → Answers result parser.new }
{
    match suffix {
        Suffix::Field => {
            let naming = Naming::ForField { limit, object: had };
            Ok(State::NameNext { naming })
        }
        Suffix::Method => {
            let naming = Naming::ForMethod { limit, object: had };
            Ok(State::NameNext { naming })
        }
        Suffix::Index => parser.enter(Frame::InIndex { limit, object: had }, 0),
        Suffix::Arguments => match kind {
            Some(kind) => {
                let callee = Callee::Function { function: had };
                args_begin(parser, limit, callee, kind, line, slice)
            }
            None => Err(Refusal::Unexpected),
        },
        Suffix::Operator(op) => {
            let frame = Frame::InBinary {
                limit,
                op,
                left: had,
            };
            parser.enter(frame, right_level(op))
        }
    }
}
