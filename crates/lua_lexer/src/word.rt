//! Names and keywords.

ghost use Rattle.std.specs.Prelude.{◌≡◌};
ghost use Rattle.lua_lexer.specs.Scan.{word_kind, late_kind};

use crate::TokenKind;

/// Which keyword a word is, if it is one, and otherwise a name.
#[tactic(auto, unfolding(crate::specs::Scan::word_kind))]
pub fn word_kind(word: &[u8]) -> TokenKind
    ensures { result ≡ word_kind word.now }
{
    if word == b"and".as_slice() {
        TokenKind::And
    } else if word == b"break".as_slice() {
        TokenKind::Break
    } else if word == b"do".as_slice() {
        TokenKind::Do
    } else if word == b"else".as_slice() {
        TokenKind::Else
    } else if word == b"elseif".as_slice() {
        TokenKind::Elseif
    } else if word == b"end".as_slice() {
        TokenKind::End
    } else if word == b"false".as_slice() {
        TokenKind::False
    } else if word == b"for".as_slice() {
        TokenKind::For
    } else if word == b"function".as_slice() {
        TokenKind::Function
    } else if word == b"goto".as_slice() {
        TokenKind::Goto
    } else if word == b"if".as_slice() {
        TokenKind::If
    } else {
        late_kind(word)
    }
}

/// The same, for a word that is none of the keywords from `and` to `if`.
#[tactic(auto, unfolding(crate::specs::Scan::late_kind))]
fn late_kind(word: &[u8]) -> TokenKind
    ensures { result ≡ late_kind word.now }
{
    if word == b"in".as_slice() {
        TokenKind::In
    } else if word == b"local".as_slice() {
        TokenKind::Local
    } else if word == b"nil".as_slice() {
        TokenKind::Nil
    } else if word == b"not".as_slice() {
        TokenKind::Not
    } else if word == b"or".as_slice() {
        TokenKind::Or
    } else if word == b"repeat".as_slice() {
        TokenKind::Repeat
    } else if word == b"return".as_slice() {
        TokenKind::Return
    } else if word == b"then".as_slice() {
        TokenKind::Then
    } else if word == b"true".as_slice() {
        TokenKind::True
    } else if word == b"until".as_slice() {
        TokenKind::Until
    } else if word == b"while".as_slice() {
        TokenKind::While
    } else {
        TokenKind::Name
    }
}
