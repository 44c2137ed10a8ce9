//! The constants that tokens stand for.

ghost use Rattle.std.specs.Prelude.{◌≡◌, IfOk};
ghost use Rattle.lua_grammar.specs.Signs.{token};
ghost use Rattle.lua_grammar.specs.Operators.{constant_of, unary_of};
ghost use Rattle.lua_parser_state.specs.Gave.{IsSmall};

use lua_ast::{AstText, Literal, UnOp};
use lua_lexer::{TokenKind, numeral_value, text_value};
use std::alloc::{AllocError, Global};

/// The constant that a token is by itself, if it is one.
#[tactic(auto, unfolding(lua_grammar::specs::Values::numeral_of, lua_grammar::specs::Values::text_of))]
pub fn literal(alloc: Global, kind: TokenKind, slice: &[u8]) -> Result<Option<Literal>, AllocError>
    requires { IsSmall kind slice.now }
    ensures { IfOk result (λ value. value ≡ constant_of (token kind) slice.now) }
{
    match kind {
        TokenKind::Nil => Ok(Some(Literal::Nil)),
        TokenKind::False => Ok(Some(Literal::Bool(false))),
        TokenKind::True => Ok(Some(Literal::Bool(true))),
        TokenKind::Text => {
            let bytes = text_value(alloc, slice)?;
            Ok(Some(Literal::Text(AstText::from_vec(bytes))))
        }
        TokenKind::Numeral => {
            match numeral_value(slice) {
                Some(number) => Ok(Some(Literal::Int(number as i64))),
                None => unreachable!(),
            }
        }
        _ => Ok(None),
    }
}

/// The unary operator that a token is.
pub fn unary_operator(kind: TokenKind) -> Option<UnOp>
    ensures { result ≡ unary_of (token kind) }
{
    match kind {
        TokenKind::Not => Some(UnOp::Not),
        TokenKind::Hash => Some(UnOp::Len),
        TokenKind::Minus => Some(UnOp::Neg),
        _ => None,
    }
}
