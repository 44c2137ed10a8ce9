//! Long brackets: long texts and comments.

ghost use Rattle.std.specs.Prelude.{◌≡◌, ◌<◌, ◌≤◌, ◌+◌, IsTrue, IfOk, IfSome, length};
ghost use Rattle.lua_lexer.specs.Brackets.{bracket_level, closes};
ghost use Rattle.lua_lexer.specs.Scan.{closing, bracket_by, comment_by, IsWithin};
ghost use Rattle.lua_lexer.specs.Values.{without_newline, long_value};

use crate::TokenKind;
use crate::bytes::{before, behind, equals_len, in_line_len};
use crate::piece::{Fault, Piece};
use std::alloc::{AllocError, Global};

/// Whether a long bracket of this level closes at the front.
#[tactic(auto, unfolding(crate::specs::Brackets::closes))]
fn closes(level: usize, text: &[u8]) -> bool
    ensures exact { result ≡ closes level text.now }
    ensures within { IsTrue result → level + 2 ≤ length text.now }
{
    match text {
        [b']', rest @ ..] => {
            let n = equals_len(rest);
            n == level && n < rest.len() && rest[n] == b']'
        }
        _ => false,
    }
}

/// The level of the long bracket that opens at the front, if one does.
#[tactic(auto, unfolding(crate::specs::Brackets::bracket_level))]
pub fn bracket_level(text: &[u8]) -> Option<usize>
    ensures exact { result ≡ bracket_level text.now }
    ensures within { IfSome result (λ n. n + 2 ≤ length text.now) }
{
    match text {
        [b'[', rest @ ..] => {
            let n = equals_len(rest);
            if n < rest.len() && rest[n] == b'[' {
                Some(n)
            } else {
                None
            }
        }
        _ => None,
    }
}

/// How far it is to the first closing bracket of this level.
#[tactic(auto, using(crate::proofs::BracketSteps::closing_found, crate::proofs::BracketSteps::closing_next, crate::proofs::BracketSteps::closing_none))]
fn closing(level: usize, text: &[u8]) -> Option<usize>
    ensures exact { result ≡ closing level text.now }
    ensures within { IfSome result (λ k. k + level + 2 ≤ length text.now) }
{
    for i in 0..text.len() {
        if closes(level, behind(text, i)) {
            return Some(i);
        }
    }
    None
}

/// A text in long brackets, or the symbol `[`.
pub fn bracket(text: &[u8]) -> Piece
    requires { 0 < length text.now }
    ensures exact { result ≡ bracket_by text.now (bracket_level text.now) }
    ensures within { IsWithin (length text.now) result }
{
    match bracket_level(text) {
        Some(n) => match closing(n, behind(text, n + 2)) {
            Some(k) => Piece::Token(TokenKind::Text, k + (n + 2) + (n + 2)),
            None => Piece::Refused(Fault::OpenString, 0),
        },
        None => Piece::Token(TokenKind::OpenBracket, 1),
    }
}

/// A comment, of which the two dashes are taken.
pub fn comment(text: &[u8]) -> Piece
    ensures exact { result ≡ comment_by text.now (bracket_level text.now) }
    ensures within { IsWithin (length text.now + 2) result }
{
    match bracket_level(text) {
        Some(n) => match closing(n, behind(text, n + 2)) {
            Some(k) => Piece::Gap(k + (n + 2) + (n + 2) + 2),
            None => Piece::Refused(Fault::OpenComment, 0),
        },
        None => Piece::Gap(in_line_len(text) + 2),
    }
}

fn without_newline(text: &[u8]) -> &[u8]
    ensures { result.now ≡ without_newline text.now }
{
    match text {
        [b'\n', rest @ ..] => rest,
        _ => text,
    }
}

/// What stands between long brackets of this level, without a newline right behind the first.
pub fn long_value(alloc: Global, level: usize, text: &[u8]) -> Result<Vec<u8>, AllocError>
    requires { level + 2 ≤ length text.now }
    ensures { IfOk result (λ v. v.items ≡ long_value level text.now) }
{
    let rest = behind(text, level + 2);
    let len = rest.len().saturating_sub(level + 2);
    without_newline(before(rest, len)).to_vec(alloc)
}
