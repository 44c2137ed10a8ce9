//! The names behind `local` and `for` (Lua 5.2 manual, 3.3.5 and 3.3.7).

ghost use Rattle.std.specs.Prelude.{◌≡◌, ◌∷◌, [], true, false, length, Some, None, IfOk};
ghost use Rattle.lua_lexer.specs.declared.token.TokenKind.TheVariants.{In};
ghost use Rattle.lua_grammar.specs.Signs.{token};
ghost use Rattle.lua_grammar.specs.Pushdown.{local_next, local_names, for_name, for_names};
ghost use Rattle.lua_parser_state.specs.Shown.{stack_in, begun_in, attributes, BegunBelow};
ghost use Rattle.lua_parser_state.specs.Gave.{Gave, terminal_of};
ghost use Rattle.lua_parser_state.specs.Order.{begun_on, Stands, Answers};

use crate::statement::next_after;
use lua_ast::{AstText, AstTexts, Ids, Node};
use lua_lexer::TokenKind;
use lua_parser_state::{
    Begun, Frame, GenericFor, Naming, OpenHeader, OpenStatement, Parser, Refusal, State,
};
use std::alloc::AllocError;

/// Reads the token behind `local`, which stands on the line `own`.
pub fn local_next(
    parser: &mut Parser,
    own: u32,
    block: Begun,
    kind: TokenKind,
    line: u32,
    slice: &[u8],
) -> Result<State, Refusal>
    requires { BegunBelow (length parser.old.nodes) block }
    ensures gave { Gave
        (local_next own (begun_in parser.old.nodes block) (stack_in parser.old) (token kind) (attributes true line slice.now))
        (local_next own (begun_in parser.old.nodes block) (stack_in parser.old) (token kind) (attributes false line slice.now))
        result parser.new }
    ensures order { Stands (λ below. begun_on block below) parser.old → Answers result parser.new }
{
    match kind {
        TokenKind::Name => {
            let names = one_name(parser, slice)?;
            Ok(State::LocalNames {
                line: own,
                names,
                block,
            })
        }
        TokenKind::Function => {
            let naming = Naming::ForLocalFunction {
                line: own,
                own: line,
                block,
            };
            parser.deepen(State::NameNext { naming })
        }
        _ => Err(Refusal::Unexpected),
    }
}

/// A list of one name.
fn one_name(parser: &Parser, slice: &[u8]) -> Result<AstTexts, AllocError>
    ensures { IfOk result (λ names. names ≡ slice.now ∷ []) }
{
    let mut names = AstTexts::new(parser.alloc());
    let name = AstText::from_bytes(parser.alloc(), slice)?;
    names.push(name)?;
    Ok(names)
}

/// Reads the token behind a name of a `local`, which stands on the line `own`.
#[tactic(auto, using(lua_parser_state::proofs::Lists::list_of_none))]
pub fn local_names(
    parser: &mut Parser,
    own: u32,
    names: AstTexts,
    block: Begun,
    kind: Option<TokenKind>,
    line: u32,
    slice: &[u8],
) -> Result<State, Refusal>
    requires { BegunBelow (length parser.old.nodes) block }
    ensures gave { Gave
        (local_names own names (begun_in parser.old.nodes block) (stack_in parser.old) (terminal_of kind) (attributes true line slice.now))
        (local_names own names (begun_in parser.old.nodes block) (stack_in parser.old) (terminal_of kind) (attributes false line slice.now))
        result parser.new }
    ensures order { Stands (λ below. begun_on block below) parser.old → Answers result parser.new }
{
    let exps = Ids::new(parser.alloc());
    let Some(token) = kind else {
        let node = Node::Local { names, exps };
        return next_after(parser, block, node, own, None, line, slice);
    };
    match token {
        TokenKind::Comma => {
            let naming = Naming::ForLocal {
                line: own,
                names,
                block,
            };
            Ok(State::NameNext { naming })
        }
        TokenKind::Assign => {
            parser.push(Frame::InStatement(OpenStatement::Local {
                line: own,
                names,
                exps,
                block,
            }))?;
            Ok(State::Need { limit: 0 })
        }
        _ => {
            let node = Node::Local { names, exps };
            next_after(parser, block, node, own, Some(token), line, slice)
        }
    }
}

/// Reads the token behind the first name of a `for`.
#[tactic(auto, using(lua_parser_state::proofs::Lists::list_of_none))]
pub fn for_name(
    parser: &mut Parser,
    line: u32,
    name: AstText,
    block: Begun,
    kind: TokenKind,
) -> Result<State, Refusal>
    requires { BegunBelow (length parser.old.nodes) block }
    ensures gave { Gave
        (for_name line name (begun_in parser.old.nodes block) (stack_in parser.old) (token kind))
        (for_name line name (begun_in parser.old.nodes block) (stack_in parser.old) (token kind))
        result parser.new }
    ensures order { Stands (λ below. begun_on block below) parser.old → Answers result parser.new }
{
    match kind {
        TokenKind::Assign => {
            parser.push(Frame::InHeader(OpenHeader::First { line, name, block }))?;
            Ok(State::Need { limit: 0 })
        }
        TokenKind::Comma => {
            let mut names = AstTexts::new(parser.alloc());
            names.push(name)?;
            let naming = Naming::ForVariables { line, names, block };
            Ok(State::NameNext { naming })
        }
        TokenKind::In => {
            let mut names = AstTexts::new(parser.alloc());
            names.push(name)?;
            begin_iterator(parser, line, names, block)
        }
        _ => Err(Refusal::Unexpected),
    }
}

/// Reads the token behind a further name of a `for`.
pub fn for_names(
    parser: &mut Parser,
    line: u32,
    names: AstTexts,
    block: Begun,
    kind: TokenKind,
) -> Result<State, Refusal>
    requires { BegunBelow (length parser.old.nodes) block }
    ensures gave { Gave
        (for_names line names (begun_in parser.old.nodes block) (stack_in parser.old) (token kind))
        (for_names line names (begun_in parser.old.nodes block) (stack_in parser.old) (token kind))
        result parser.new }
    ensures order { Stands (λ below. begun_on block below) parser.old → Answers result parser.new }
{
    match kind {
        TokenKind::Comma => {
            let naming = Naming::ForVariables { line, names, block };
            Ok(State::NameNext { naming })
        }
        TokenKind::In => begin_iterator(parser, line, names, block),
        _ => Err(Refusal::Unexpected),
    }
}

/// Puts a `for` over iterators on top, and asks for the expressions behind `in`.
#[tactic(auto, using(lua_parser_state::proofs::Lists::list_of_none))]
fn begin_iterator(
    parser: &mut Parser,
    line: u32,
    names: AstTexts,
    block: Begun,
) -> Result<State, Refusal>
    requires { BegunBelow (length parser.old.nodes) block }
    ensures gave { Gave
        (for_names line names (begun_in parser.old.nodes block) (stack_in parser.old) (token In))
        (for_names line names (begun_in parser.old.nodes block) (stack_in parser.old) (token In))
        result parser.new }
    ensures order { Stands (λ below. begun_on block below) parser.old → Answers result parser.new }
{
    let exps = Ids::new(parser.alloc());
    parser.push(Frame::InHeader(OpenHeader::Iterator(GenericFor {
        line,
        names,
        exps,
        block,
    })))?;
    Ok(State::Need { limit: 0 })
}
