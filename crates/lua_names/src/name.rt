//! What goes on at a name.

ghost use Rattle.std.specs.Prelude.{◌≡◌, ◌<◌, ◌∷◌, ◌++◌, [], true, false, length, IfOk};
ghost use Rattle.lua_grammar.specs.Signs.{token};
ghost use Rattle.lua_grammar.specs.Pushdown.{after_name, name_next, ForFunction};
ghost use Rattle.lua_parser_state.specs.Shown.{tree_in, stack_in, state_in, begun_in, naming_in, attributes, BegunBelow, NamingBelow, StateBelow};
ghost use Rattle.lua_names.specs.Paths.{after_path};
ghost use Rattle.lua_parser_state.specs.Gave.{Gave};
ghost use Rattle.lua_parser_state.specs.Order.{begun_on, naming_on, Stands, Answers};

use lua_ast::{AstText, AstTexts, Node, NodeId};
use lua_lexer::TokenKind;
use lua_parser_state::{Begun, Callee, Head, Naming, Parser, Refusal, State};
use std::alloc::AllocError;

/// These names and one more.
fn with_name(mut names: AstTexts, name: AstText) -> Result<AstTexts, AllocError>
    ensures { IfOk result (λ all. all ≡ names ++ name ∷ []) }
{
    names.push(name)?;
    Ok(names)
}

/// Adds the nodes of a further name of `function a.b`, or of `function a.b:c` with its name `c`.
#[tactic(auto, using(lua_ast::proofs::PlacesBelow::below_more))]
fn after_path_name(
    parser: &mut Parser,
    own: u32,
    object: NodeId,
    method: bool,
    block: Begun,
    line: u32,
    name: AstText,
) -> Result<State, AllocError>
    requires object { object < length parser.old.nodes }
    requires block { BegunBelow (length parser.old.nodes) block }
    ensures state { IfOk result (λ s. state_in parser.new.nodes (stack_in parser.new) s
        ≡ after_path (tree_in parser.old.nodes object) method own (begun_in parser.old.nodes block) (attributes true line name) (stack_in parser.old)) }
    ensures below { IfOk result (λ s. StateBelow (length parser.new.nodes) s) }
    ensures order { Stands (λ below. object ∷ begun_on block below) parser.old → Answers result parser.new }
{
    let path = parser.field(object, line, name)?;
    if method {
        let head = Head::Assigned {
            line: own,
            target: path,
            method: true,
            block,
        };
        Ok(State::BodyNext { head })
    } else {
        Ok(State::PathNext {
            line: own,
            path,
            block,
        })
    }
}

/// Adds the node of the first name of `function a.b`.
#[tactic(auto, using(lua_ast::proofs::PlacesBelow::below_more))]
fn after_first_name(
    parser: &mut Parser,
    own: u32,
    block: Begun,
    line: u32,
    name: AstText,
) -> Result<State, AllocError>
    requires { BegunBelow (length parser.old.nodes) block }
    ensures state { IfOk result (λ s. state_in parser.new.nodes (stack_in parser.new) s
        ≡ after_name (ForFunction own (begun_in parser.old.nodes block)) (stack_in parser.old) (attributes true line name)) }
    ensures below { IfOk result (λ s. StateBelow (length parser.new.nodes) s) }
    ensures order { Stands (λ below. begun_on block below) parser.old → Answers result parser.new }
{
    let path = parser.add(Node::Name { text: name }, line)?;
    Ok(State::PathNext {
        line: own,
        path,
        block,
    })
}

/// Takes a name for what it is wanted for.
fn after_name(
    parser: &mut Parser,
    naming: Naming,
    name_line: u32,
    name: AstText,
) -> Result<State, AllocError>
    requires { NamingBelow (length parser.old.nodes) naming }
    ensures state { IfOk result (λ s. state_in parser.new.nodes (stack_in parser.new) s
        ≡ after_name (naming_in parser.old.nodes naming) (stack_in parser.old) (attributes true name_line name)) }
    ensures below { IfOk result (λ s. StateBelow (length parser.new.nodes) s) }
    ensures order { Stands (λ below. naming_on naming below) parser.old → Answers result parser.new }
{
    match naming {
        Naming::ForField { limit, object } => {
            let node = parser.field(object, name_line, name)?;
            Ok(State::Have { limit, node })
        }
        Naming::ForMethod { limit, object } => {
            let callee = Callee::Method { object, name };
            Ok(State::ArgsNext { limit, callee })
        }
        Naming::ForLabel { line, block } => Ok(State::LabelEnd { line, name, block }),
        Naming::ForGoto { line, block } => {
            let block = parser.statement(block, Node::Goto { label: name }, line)?;
            Ok(State::StatNext { block })
        }
        Naming::ForVariable { line, block } => Ok(State::LoopName { line, name, block }),
        Naming::ForVariables { line, names, block } => {
            let names = with_name(names, name)?;
            Ok(State::LoopNames { line, names, block })
        }
        Naming::ForFunction { line, block } => {
            Ok(after_first_name(parser, line, block, name_line, name)?)
        }
        Naming::ForFunctionField { line, path, block } => {
            Ok(after_path_name(parser, line, path, false, block, name_line, name)?)
        }
        Naming::ForFunctionMethod { line, path, block } => {
            Ok(after_path_name(parser, line, path, true, block, name_line, name)?)
        }
        Naming::ForLocalFunction { line, own, block } => {
            let head = Head::Local {
                line,
                own,
                name,
                block,
            };
            Ok(State::BodyNext { head })
        }
        Naming::ForLocal { line, names, block } => {
            let names = with_name(names, name)?;
            Ok(State::LocalNames { line, names, block })
        }
    }
}

/// Reads a name.
pub fn name_next(
    parser: &mut Parser,
    naming: Naming,
    kind: TokenKind,
    line: u32,
    slice: &[u8],
) -> Result<State, Refusal>
    requires { NamingBelow (length parser.old.nodes) naming }
    ensures gave { Gave
        (name_next (naming_in parser.old.nodes naming) (stack_in parser.old) (token kind) (attributes true line slice.now))
        (name_next (naming_in parser.old.nodes naming) (stack_in parser.old) (token kind) (attributes false line slice.now))
        result parser.new }
    ensures order { Stands (λ below. naming_on naming below) parser.old → Answers result parser.new }
{
    match kind {
        TokenKind::Name => {
            let name = AstText::from_bytes(parser.alloc(), slice)?;
            Ok(after_name(parser, naming, line, name)?)
        }
        _ => Err(Refusal::Unexpected),
    }
}
