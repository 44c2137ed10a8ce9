//! The names and the parameters of functions (Lua 5.2 manual, 3.4.10).

ghost use Rattle.std.specs.Prelude.{◌≡◌, ◌<◌, ◌∷◌, [], suc, true, false, length, Some, IfOk};
ghost use Rattle.lua_ast.specs.Tree.{Function};
ghost use Rattle.lua_grammar.specs.Signs.{token};
ghost use Rattle.lua_grammar.specs.Pushdown.{BlockNext, InFunction, depth, body_next, path_next, param_first, param_next, param_names, params_end};
ghost use Rattle.lua_parser_state.specs.Shown.{tree_in, stack_in, state_in, begun_in, head_in, attributes, BegunBelow, HeadBelow, StateBelow};
ghost use Rattle.lua_parser_state.specs.Gave.{Gave, within};
ghost use Rattle.lua_parser_state.specs.Order.{begun_on, head_on, state_on, Stands, Answers};

use lua_ast::{AstText, NodeId};
use lua_lexer::TokenKind;
use lua_parser_state::{Begun, Frame, Head, Naming, OpenBlock, Parser, Refusal, State};
use std::alloc::AllocError;

/// This state, if there is room for two levels more.
#[tactic(auto, using(lua_parser_state::proofs::Rooms::within_room, lua_parser_state::proofs::Rooms::within_deep))]
fn deepen_twice(parser: &Parser, state: State) -> Result<State, Refusal>
    requires { StateBelow (length parser.now.nodes) state }
    ensures gave { Gave (within (suc (suc (depth (stack_in parser.now)))) (state_in parser.now.nodes (stack_in parser.now) state))
        (Some (state_in parser.now.nodes (stack_in parser.now) state)) result parser.now }
    ensures order { Stands (λ below. state_on state below) parser.now → Answers result parser.now }
{
    if parser.depth() >= 199 {
        return Err(Refusal::TooDeep);
    }
    Ok(state)
}

/// Reads the `(` of a function.
pub fn body_next(parser: &mut Parser, head: Head, kind: TokenKind) -> Result<State, Refusal>
    requires { HeadBelow (length parser.old.nodes) head }
    ensures gave { Gave
        (body_next (head_in parser.old.nodes head) (stack_in parser.old) (token kind) (attributes true 0 []))
        (body_next (head_in parser.old.nodes head) (stack_in parser.old) (token kind) (attributes false 0 []))
        result parser.new }
    ensures order { Stands (λ below. head_on head below) parser.old → Answers result parser.new }
{
    match kind {
        TokenKind::OpenParen => deepen_twice(parser, State::ParamFirst { head }),
        _ => Err(Refusal::Unexpected),
    }
}

/// Reads the token behind a name of `function a.b`.
pub fn path_next(
    parser: &mut Parser,
    line: u32,
    path: NodeId,
    block: Begun,
    kind: TokenKind,
) -> Result<State, Refusal>
    requires path { path < length parser.old.nodes }
    requires block { BegunBelow (length parser.old.nodes) block }
    ensures gave { Gave
        (path_next line (tree_in parser.old.nodes path) (begun_in parser.old.nodes block) (stack_in parser.old) (token kind) (attributes true 0 []))
        (path_next line (tree_in parser.old.nodes path) (begun_in parser.old.nodes block) (stack_in parser.old) (token kind) (attributes false 0 []))
        result parser.new }
    ensures order { Stands (λ below. path ∷ begun_on block below) parser.old → Answers result parser.new }
{
    match kind {
        TokenKind::Dot => Ok(State::NameNext {
            naming: Naming::ForFunctionField { line, path, block },
        }),
        TokenKind::Colon => Ok(State::NameNext {
            naming: Naming::ForFunctionMethod { line, path, block },
        }),
        other => body_next(
            parser,
            Head::Assigned {
                line,
                target: path,
                method: false,
                block,
            },
            other,
        ),
    }
}

/// Reads the first parameter, or `)`.
pub fn param_first(
    parser: &mut Parser,
    head: Head,
    kind: TokenKind,
    slice: &[u8],
) -> Result<State, Refusal>
    requires { HeadBelow (length parser.old.nodes) head }
    ensures gave { Gave
        (param_first (head_in parser.old.nodes head) (stack_in parser.old) (token kind) (attributes true 0 slice.now))
        (param_first (head_in parser.old.nodes head) (stack_in parser.old) (token kind) (attributes false 0 slice.now))
        result parser.new }
    ensures order { Stands (λ below. head_on head below) parser.old → Answers result parser.new }
{
    let mut params = Vec::new(parser.alloc());
    match kind {
        TokenKind::CloseParen => Ok(begin_body(parser, head, params, false)?),
        TokenKind::Name => {
            let name = AstText::from_bytes(parser.alloc(), slice)?;
            params.push(name)?;
            Ok(State::ParamNames { head, params })
        }
        TokenKind::Ellipsis => Ok(State::ParamsEnd { head, params }),
        _ => Err(Refusal::Unexpected),
    }
}

/// Reads a parameter behind a comma.
pub fn param_next(
    parser: &mut Parser,
    head: Head,
    mut params: Vec<AstText>,
    kind: TokenKind,
    slice: &[u8],
) -> Result<State, Refusal>
    requires { HeadBelow (length parser.old.nodes) head }
    ensures gave { Gave
        (param_next (head_in parser.old.nodes head) params.items (stack_in parser.old) (token kind) (attributes true 0 slice.now))
        (param_next (head_in parser.old.nodes head) params.items (stack_in parser.old) (token kind) (attributes false 0 slice.now))
        result parser.new }
    ensures order { Stands (λ below. head_on head below) parser.old → Answers result parser.new }
{
    match kind {
        TokenKind::Name => {
            let name = AstText::from_bytes(parser.alloc(), slice)?;
            params.push(name)?;
            Ok(State::ParamNames { head, params })
        }
        TokenKind::Ellipsis => Ok(State::ParamsEnd { head, params }),
        _ => Err(Refusal::Unexpected),
    }
}

/// Reads the token behind a parameter.
pub fn param_names(
    parser: &mut Parser,
    head: Head,
    params: Vec<AstText>,
    kind: TokenKind,
) -> Result<State, Refusal>
    requires { HeadBelow (length parser.old.nodes) head }
    ensures gave { Gave
        (param_names (head_in parser.old.nodes head) params.items (stack_in parser.old) (token kind))
        (param_names (head_in parser.old.nodes head) params.items (stack_in parser.old) (token kind))
        result parser.new }
    ensures order { Stands (λ below. head_on head below) parser.old → Answers result parser.new }
{
    match kind {
        TokenKind::Comma => Ok(State::ParamNext { head, params }),
        TokenKind::CloseParen => Ok(begin_body(parser, head, params, false)?),
        _ => Err(Refusal::Unexpected),
    }
}

/// Reads the `)` behind `...`.
pub fn params_end(
    parser: &mut Parser,
    head: Head,
    params: Vec<AstText>,
    kind: TokenKind,
) -> Result<State, Refusal>
    requires { HeadBelow (length parser.old.nodes) head }
    ensures gave { Gave
        (params_end (head_in parser.old.nodes head) params.items (stack_in parser.old) (token kind))
        (params_end (head_in parser.old.nodes head) params.items (stack_in parser.old) (token kind))
        result parser.new }
    ensures order { Stands (λ below. head_on head below) parser.old → Answers result parser.new }
{
    match kind {
        TokenKind::CloseParen => Ok(begin_body(parser, head, params, true)?),
        _ => Err(Refusal::Unexpected),
    }
}

/// Puts the frame of a function on top, and asks for its block.
fn begin_body(
    parser: &mut Parser,
    head: Head,
    params: Vec<AstText>,
    vararg: bool,
) -> Result<State, AllocError>
    requires { HeadBelow (length parser.old.nodes) head }
    ensures state { IfOk result (λ s. state_in parser.new.nodes (stack_in parser.new) s
        ≡ BlockNext (InFunction (head_in parser.old.nodes head) params.items vararg ∷ stack_in parser.old)) }
    ensures below { IfOk result (λ s. StateBelow (length parser.new.nodes) s) }
    ensures order { Stands (λ below. head_on head below) parser.old → Answers result parser.new }
{
    parser.push(Frame::InBlock(OpenBlock::Function {
        head,
        params,
        vararg,
    }))?;
    Ok(State::BlockNext)
}
