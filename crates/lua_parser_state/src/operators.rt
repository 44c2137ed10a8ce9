//! Operators and their precedences (Lua 5.2 manual, 3.4.7).

ghost use Rattle.std.specs.Prelude.{◌≡◌, option_map, Some};
ghost use Rattle.lua_grammar.specs.Signs.{token};
ghost use Rattle.lua_grammar.specs.Operators.{operator_of, level, left_of, right_of};
ghost use Rattle.lua_parser_state.specs.Shown.{operator_in};

use crate::frame::Operation;
use lua_ast::{BinOp, LogicOp};
use lua_lexer::TokenKind;

/// The binary operator that a token is.
pub fn operation(kind: TokenKind) -> Option<Operation>
    ensures { option_map operator_in result ≡ operator_of (token kind) }
{
    let op = match kind {
        TokenKind::Or => return Some(Operation::Logic(LogicOp::Or)),
        TokenKind::And => return Some(Operation::Logic(LogicOp::And)),
        TokenKind::Less => BinOp::Less,
        TokenKind::Greater => BinOp::Greater,
        TokenKind::LessEqual => BinOp::LessEq,
        TokenKind::GreaterEqual => BinOp::GreaterEq,
        TokenKind::NotEqual => BinOp::Ne,
        TokenKind::Equal => BinOp::Eq,
        TokenKind::Concat => BinOp::Concat,
        TokenKind::Plus => BinOp::Add,
        TokenKind::Minus => BinOp::Sub,
        TokenKind::Star => BinOp::Mul,
        TokenKind::Slash => BinOp::Div,
        TokenKind::Percent => BinOp::Mod,
        TokenKind::Caret => BinOp::Pow,
        _ => return None,
    };
    Some(Operation::Value(op))
}

/// The level of an operator.
pub fn level(op: Operation) -> u8
    ensures { result ≡ level (operator_in op) }
{
    match op {
        Operation::Logic(LogicOp::Or) => 1,
        Operation::Logic(LogicOp::And) => 2,
        Operation::Value(op) => match op {
            BinOp::Less
            | BinOp::Greater
            | BinOp::LessEq
            | BinOp::GreaterEq
            | BinOp::Ne
            | BinOp::Eq => 3,
            BinOp::Concat => 4,
            BinOp::Add | BinOp::Sub => 5,
            BinOp::Mul | BinOp::Div | BinOp::Mod => 6,
            BinOp::Pow => 8,
        },
    }
}

/// The least level of its left operand.
pub fn left_level(op: Operation) -> u8
    ensures { result ≡ left_of (operator_in op) }
{
    match op {
        Operation::Value(BinOp::Concat) => 5,
        Operation::Value(BinOp::Pow) => 9,
        other => level(other),
    }
}

/// The least level of its right operand.
pub fn right_level(op: Operation) -> u8
    ensures { result ≡ right_of (operator_in op) }
{
    match op {
        Operation::Value(BinOp::Concat) => 4,
        Operation::Value(BinOp::Pow) => 7,
        other => level(other) + 1,
    }
}
