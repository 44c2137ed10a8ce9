//! One step of the parser.

ghost use Rattle.std.specs.Prelude.{[], true, false, length, Some, None};
ghost use Rattle.lua_grammar.specs.Signs.{token, end};
ghost use Rattle.lua_grammar.specs.Pushdown.{begun, next, step_from};
ghost use Rattle.lua_parser_state.specs.Shown.{stack_in, state_in, attributes, StateBelow};
ghost use Rattle.lua_parser_state.specs.Gave.{Gave, IsSmall, terminal_of};
ghost use Rattle.lua_parser_state.specs.Order.{state_on, Stands, Answers};

use crate::follow::{field_name, follow};
use lua_ast::Ids;
use lua_blocks::end_block;
use lua_expressions::{args_begin, args_open, begin, field_next, key_end};
use lua_lexer::TokenKind;
use lua_names::{
    body_next, name_next, param_first, param_names, param_next, params_end, path_next,
};
use lua_parser_state::{Begun, Parser, Refusal, State};
use lua_statements::{
    for_name, for_names, label_end, local_names, local_next, next, return_next, target_next,
};

/// Reads the first token of a block, or the end of one without statements.
#[tactic(auto, using(lua_parser_state::proofs::Lists::list_of_none))]
fn block_next(
    parser: &mut Parser,
    kind: Option<TokenKind>,
    line: u32,
    slice: &[u8],
) -> Result<State, Refusal>
    ensures gave { Gave
        (next (begun line) (stack_in parser.old) (terminal_of kind) (attributes true line slice.now))
        (next (begun line) (stack_in parser.old) (terminal_of kind) (attributes false line slice.now)) result parser.new }
    ensures order { Stands (λ below. below) parser.old → Answers result parser.new }
{
    let stats = Ids::new(parser.alloc());
    next(parser, Begun { line, stats }, kind, line, slice)
}

/// Reads a token.
pub fn step(
    parser: &mut Parser,
    state: State,
    kind: TokenKind,
    here: u32,
    slice: &[u8],
) -> Result<State, Refusal>
    requires state { StateBelow (length parser.old.nodes) state }
    requires small { IsSmall kind slice.now }
    ensures gave { Gave
        (step_from (state_in parser.old.nodes (stack_in parser.old) state) (token kind) (attributes true here slice.now))
        (step_from (state_in parser.old.nodes (stack_in parser.old) state) (token kind) (attributes false here slice.now))
        result parser.new }
    ensures order { Stands (λ below. state_on state below) parser.old → Answers result parser.new }
{
    match state {
        State::Need { limit } => begin(parser, limit, kind, here, slice),
        State::Have { limit, node } => follow(parser, limit, node, Some(kind), here, slice),
        State::NameNext { naming } => name_next(parser, naming, kind, here, slice),
        State::ArgsNext { limit, callee } => args_begin(parser, limit, callee, kind, here, slice),
        State::ArgsOpen { limit, callee } => args_open(parser, limit, callee, kind, here, slice),
        State::FieldNext { table } => field_next(parser, table, kind, here, slice),
        State::FieldName { table, own, name } => {
            field_name(parser, table, own, name, kind, here, slice)
        }
        State::KeyEnd { table, key } => key_end(parser, table, key, kind),
        State::BlockNext => block_next(parser, Some(kind), here, slice),
        State::StatNext { block } => next(parser, block, Some(kind), here, slice),
        State::LabelEnd { line, name, block } => label_end(parser, line, name, block, kind),
        State::LocalNext { line, block } => local_next(parser, line, block, kind, here, slice),
        State::LocalNames { line, names, block } => {
            local_names(parser, line, names, block, Some(kind), here, slice)
        }
        State::LoopName { line, name, block } => for_name(parser, line, name, block, kind),
        State::LoopNames { line, names, block } => for_names(parser, line, names, block, kind),
        State::PathNext { line, path, block } => path_next(parser, line, path, block, kind),
        State::BodyNext { head } => body_next(parser, head, kind),
        State::ParamFirst { head } => param_first(parser, head, kind, slice),
        State::ParamNext { head, params } => param_next(parser, head, params, kind, slice),
        State::ParamNames { head, params } => param_names(parser, head, params, kind),
        State::ParamsEnd { head, params } => params_end(parser, head, params, kind),
        State::TargetNext {
            line,
            targets,
            block,
        } => target_next(parser, line, targets, block, kind, here, slice),
        State::ReturnNext { line, block } => {
            return_next(parser, line, block, Some(kind), here, slice)
        }
        State::BlockEnd { block } => end_block(parser, block, Some(kind)),
        State::Done { .. } => Err(Refusal::Unexpected),
    }
}

/// Reads the end of the text.
pub fn end(parser: &mut Parser, state: State) -> Result<State, Refusal>
    requires { StateBelow (length parser.old.nodes) state }
    ensures gave { Gave
        (step_from (state_in parser.old.nodes (stack_in parser.old) state) end (attributes true 1 []))
        (step_from (state_in parser.old.nodes (stack_in parser.old) state) end (attributes false 1 []))
        result parser.new }
    ensures order { Stands (λ below. state_on state below) parser.old → Answers result parser.new }
{
    match state {
        State::Have { limit, node } => follow(parser, limit, node, None, 1, &[]),
        State::BlockNext => block_next(parser, None, 1, &[]),
        State::StatNext { block } => next(parser, block, None, 1, &[]),
        State::LocalNames { line, names, block } => local_names(
            parser,
            line,
            names,
            block,
            None,
            1,
            &[],
        ),
        State::ReturnNext { line, block } => return_next(parser, line, block, None, 1, &[]),
        State::BlockEnd { block } => end_block(parser, block, None),
        _ => Err(Refusal::Unexpected),
    }
}
