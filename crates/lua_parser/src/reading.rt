//! The parsing of a whole text.

ghost use Rattle.std.specs.Prelude.{◌≡◌, ◌≤◌, ℕ, List, [], true, length, IfOk, IfErr, Err};
ghost use Rattle.lua_lexer.specs.Lexes.{Lexes};
ghost use Rattle.lua_lexer.specs.declared.token.Token.{Token as token_at};
ghost use Rattle.lua_ast.specs.Tree.{Tree};
ghost use Rattle.lua_grammar.specs.Signs.{end};
ghost use Rattle.lua_grammar.specs.Parses.{Parses};
ghost use Rattle.lua_grammar.specs.Pushdown.{step_from};
ghost use Rattle.lua_grammar.specs.Deciding.{reading, reading_at_end};
ghost use Rattle.lua_parser.specs.Parsing.{tree_of, HasTree, IsRefusal, HasReading, AreFit, refusal_at};
ghost use Rattle.lua_ast.specs.Once.{IsEachOnce};
ghost use Rattle.lua_ast.specs.Numbered.{IsNumbered};
ghost use Rattle.lua_parser_state.specs.Order.{state_on, Stands};
ghost use Rattle.lua_parser_state.specs.Shown.{stack_in, state_in, attributes, StateBelow};

use crate::parse_error::ParseError;
use crate::step::{end, step};
use lua_ast::Chunk;
use lua_lexer::Token;
use lua_parser_state::{Parser, Refusal, State};
use std::alloc::Global;

/// The tree of a text of at most 1,048,576 bytes, of which these are the tokens, or its refusal (Lua 5.2 manual, section 9).
pub fn parse(alloc: Global, text: &[u8], tokens: &[Token]) -> Result<Chunk, ParseError>
    requires size { length text.now ≤ 1048576 }
    requires tokens { Lexes text.now tokens.now }
    ensures tree { IfOk result (λ chunk. Parses text.now tokens.now (tree_of chunk)) }
    ensures whole { (t : Tree) → Parses text.now tokens.now t → HasTree t result }
    ensures fails { IfErr result (λ error. IsRefusal text.now tokens.now error) }
    ensures once { IfOk result (λ chunk. IsEachOnce chunk) }
    ensures numbered { IfOk result (λ chunk. IsNumbered chunk) }
{
    lua_lexer::laws::tokens_of_text();
    lua_lexer::laws::values_of_tokens();
    parse_tokens(alloc, text, tokens)
}

/// Parses tokens that lie within the text.
fn parse_tokens(alloc: Global, text: &[u8], tokens: &[Token]) -> Result<Chunk, ParseError>
    requires size { length text.now ≤ 1048576 }
    requires fit { AreFit text.now tokens.now }
    ensures answers { HasReading text.now tokens.now (reading text.now tokens.now) result }
    ensures once { IfOk result (λ chunk. IsEachOnce chunk) }
    ensures numbered { IfOk result (λ chunk. IsNumbered chunk) }
{
    let mut parser = Parser::new(alloc);
    match read(&mut parser, text, tokens) {
        Ok(state) => finish(parser, state, text.len() as u32),
        Err(error) => Err(error),
    }
}

/// Reads all tokens.
fn read(parser: &mut Parser, text: &[u8], tokens: &[Token]) -> Result<State, ParseError>
    requires fit { AreFit text.now tokens.now }
    requires nothing { stack_in parser.old ≡ [] }
    requires order { Stands (λ below. below) parser.old }
    ensures state { IfOk result (λ state. reading text.now tokens.now
        ≡ reading_at_end (step_from (state_in parser.new.nodes (stack_in parser.new) state) end (attributes true 1 []))) }
    ensures below { IfOk result (λ state. StateBelow (length parser.new.nodes) state) }
    ensures refused { IfErr result (λ error. HasReading text.now tokens.now (reading text.now tokens.now) (Err error)) }
    ensures order { IfOk result (λ state. Stands (λ below. state_on state below) parser.new) }
{
    let mut state = State::BlockNext;
    for token in tokens {
        match step(parser, state, token.kind, token.line, token.slice(text)) {
            Ok(next) => state = next,
            Err(refusal) => return Err(refusal_at(refusal, token.start)),
        }
    }
    Ok(state)
}

/// The refusal of a token that begins at this place.
fn refusal_at(refusal: Refusal, start: u32) -> ParseError
    ensures { result ≡ refusal_at refusal start }
{
    match refusal {
        Refusal::NoMemory => ParseError::NoMemory,
        Refusal::Unexpected => ParseError::Unexpected(start),
        Refusal::TooDeep => ParseError::TooDeep(start),
    }
}

/// The chunk of a text of this many bytes, which ends in this state.
fn finish(mut parser: Parser, state: State, len: u32) -> Result<Chunk, ParseError>
    requires below { StateBelow (length parser.nodes) state }
    requires order { Stands (λ below. state_on state below) parser }
    ensures answers { (text : List ℕ) (ts : List token_at) → length text ≡ len → HasReading text ts
        (reading_at_end (step_from (state_in parser.nodes (stack_in parser) state) end (attributes true 1 []))) result }
    ensures once { IfOk result (λ chunk. IsEachOnce chunk) }
    ensures numbered { IfOk result (λ chunk. IsNumbered chunk) }
{
    let last = match end(&mut parser, state) {
        Ok(last) => last,
        Err(Refusal::NoMemory) => return Err(ParseError::NoMemory),
        Err(_) => return Err(ParseError::EndOfText(len)),
    };
    match last {
        State::Done { root } => Ok(parser.chunk(root)),
        _ => Err(ParseError::EndOfText(len)),
    }
}
