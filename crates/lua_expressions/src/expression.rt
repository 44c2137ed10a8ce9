//! Expressions (Lua 5.2 manual, 3.4 and section 9).

ghost use Rattle.std.specs.Prelude.{[], true, false, Some, None, ◌∷◌, length};
ghost use Rattle.lua_grammar.specs.Signs.{token};
ghost use Rattle.lua_grammar.specs.Pushdown.{begin, begin_unary};
ghost use Rattle.lua_parser_state.specs.Shown.{stack_in, attributes, frame_in, FrameBelow};
ghost use Rattle.lua_parser_state.specs.Gave.{Gave, IsSmall};
ghost use Rattle.lua_parser_state.specs.Order.{frame_on, Stands, Answers};

use crate::literal::{literal, unary_operator};
use lua_ast::{AstText, Fields, Node, UnOp};
use lua_lexer::TokenKind;
use lua_parser_state::{BegunTable, Frame, Head, Parser, Purpose, Refusal, State};

/// Reads the first token of an expression of at least this level.
#[tactic(auto, unfolding(lua_ast::specs::Decode::fields_of))]
pub fn begin(
    parser: &mut Parser,
    limit: u8,
    kind: TokenKind,
    line: u32,
    slice: &[u8],
) -> Result<State, Refusal>
    requires { IsSmall kind slice.now }
    ensures gave { Gave (begin limit (stack_in parser.old) (token kind) (attributes true line slice.now))
        (begin limit (stack_in parser.old) (token kind) (attributes false line slice.now)) result parser.new }
    ensures order { Stands (λ below. below) parser.old → Answers result parser.new }
{
    match kind {
        TokenKind::Ellipsis => Ok(parser.give(limit, Node::Vararg, line)?),
        TokenKind::Name => {
            let text = AstText::from_bytes(parser.alloc(), slice)?;
            Ok(parser.give(limit, Node::Name { text }, line)?)
        }
        TokenKind::OpenParen => parser.enter(Frame::InParen { limit, line }, 0),
        TokenKind::OpenBrace => {
            let table = BegunTable {
                purpose: Purpose::Value { limit },
                line,
                fields: Fields::new(parser.alloc()),
            };
            parser.deepen(State::FieldNext { table })
        }
        TokenKind::Function => parser.deepen(State::BodyNext {
            head: Head::Anonymous { limit, line },
        }),
        other => match literal(parser.alloc(), other, slice)? {
            Some(value) => Ok(parser.give(limit, Node::Const { value }, line)?),
            None => begin_unary(parser, limit, unary_operator(other), line),
        },
    }
}

/// Puts a unary operator on top, and asks for its operand.
fn begin_unary(
    parser: &mut Parser,
    limit: u8,
    op: Option<UnOp>,
    line: u32,
) -> Result<State, Refusal>
    ensures gave { Gave (begin_unary limit (stack_in parser.old) (attributes true line []) op)
        (begin_unary limit (stack_in parser.old) (attributes false line []) op) result parser.new }
    ensures order { Stands (λ below. below) parser.old → Answers result parser.new }
{
    let Some(op) = op else {
        return Err(Refusal::Unexpected);
    };
    if limit > 7 {
        return Err(Refusal::Unexpected);
    }
    parser.enter(Frame::InUnary { limit, line, op }, 7)
}

/// Puts a frame that opens no level on top, and reads the first token of an expression of any level.
pub fn begin_in(
    parser: &mut Parser,
    frame: Frame,
    kind: TokenKind,
    line: u32,
    slice: &[u8],
) -> Result<State, Refusal>
    requires frame { FrameBelow (length parser.old.nodes) frame }
    requires small { IsSmall kind slice.now }
    ensures gave { Gave
        (begin 0 (frame_in parser.old.nodes frame ∷ stack_in parser.old) (token kind) (attributes true line slice.now))
        (begin 0 (frame_in parser.old.nodes frame ∷ stack_in parser.old) (token kind) (attributes false line slice.now)) result parser.new }
    ensures order { Stands (λ below. frame_on frame below) parser.old → Answers result parser.new }
{
    parser.push(frame)?;
    begin(parser, 0, kind, line, slice)
}
