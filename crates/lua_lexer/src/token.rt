//! Tokens: the words, symbols, texts and numerals that a program's text is made of.

ghost use Rattle.std.specs.Prelude.{◌≡◌, ◌≤◌, length};
ghost use Rattle.lua_lexer.specs.Lexes.{slice_of};

/// What a token is. Keywords and symbols are each a kind of their own (Lua 5.2 manual, section 3.1).
#[derive(Clone, Copy, Debug, PartialEq, Eq, Drop)]
pub enum TokenKind {
    And,
    Break,
    Do,
    Else,
    Elseif,
    End,
    False,
    For,
    Function,
    Goto,
    If,
    In,
    Local,
    Nil,
    Not,
    Or,
    Repeat,
    Return,
    Then,
    True,
    Until,
    While,
    /// `+`
    Plus,
    /// `-`
    Minus,
    /// `*`
    Star,
    /// `/`
    Slash,
    /// `%`
    Percent,
    /// `^`
    Caret,
    /// `#`
    Hash,
    /// `==`
    Equal,
    /// `~=`
    NotEqual,
    /// `<=`
    LessEqual,
    /// `>=`
    GreaterEqual,
    /// `<`
    Less,
    /// `>`
    Greater,
    /// `=`
    Assign,
    /// `(`
    OpenParen,
    /// `)`
    CloseParen,
    /// `{`
    OpenBrace,
    /// `}`
    CloseBrace,
    /// `[`
    OpenBracket,
    /// `]`
    CloseBracket,
    /// `::`
    DoubleColon,
    /// `;`
    Semicolon,
    /// `:`
    Colon,
    /// `,`
    Comma,
    /// `.`
    Dot,
    /// `..`
    Concat,
    /// `...`
    Ellipsis,
    /// A letter or `_`, and then letters, digits and `_`, that are no keyword.
    Name,
    /// A literal string, in quotes or long brackets.
    Text,
    /// A whole number, decimal or hexadecimal.
    Numeral,
}

/// A token, with the place of its bytes in the text.
#[derive(Clone, Copy, Debug, PartialEq, Eq, Drop)]
pub struct Token {
    /// What it is.
    pub kind: TokenKind,
    /// The place of its first byte, from 0.
    pub start: u32,
    /// The place behind its last byte.
    pub end: u32,
    /// The line on which its first byte stands, from 1.
    pub line: u32,
}

impl Token {
    /// Its bytes in the text that it was read from.
    pub fn slice<'a>(&self, text: &'a [u8]) -> &'a [u8]
        requires ordered { self.now.start ≤ self.now.end }
        requires within { self.now.end ≤ length text.now }
        ensures { result.now ≡ slice_of text.now self.now }
    {
        &text[self.start as usize..self.end as usize]
    }
}
