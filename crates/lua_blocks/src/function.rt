//! The end of a function (Lua 5.2 manual, 3.4.10).

ghost use Rattle.std.specs.Prelude.{◌≡◌, ◌<◌, ◌++◌, ◌∷◌, [], true, false, length, IfOk};
ghost use Rattle.lua_ast.specs.Tree.{Function, Assign, LocalFunction, none, snoc};
ghost use Rattle.lua_ast.specs.Decode.{PartsBelow, node_tree};
ghost use Rattle.lua_grammar.specs.Pushdown.{StatNext, InFunction, add, end_block, finished, own_line, given_of};
ghost use Rattle.lua_parser_state.specs.Shown.{tree_in, stack_in, state_in, begun_in, head_in, given, attributes, BegunBelow, HeadBelow, StateBelow};
ghost use Rattle.lua_parser_state.specs.Gave.{Gave, terminal_of};
ghost use Rattle.lua_blocks.specs.Ends.{is_method};
ghost use Rattle.lua_ast.specs.Postfix.{parts_on};
ghost use Rattle.lua_parser_state.specs.Order.{begun_on, head_on, Stands, Answers};

use lua_ast::{AstText, AstTexts, Ids, Node, NodeId};
use lua_lexer::TokenKind;
use lua_parser_state::{Begun, Head, Parser, Refusal, State};
use std::alloc::{AllocError, Global};

/// Reads the `end` behind the block of a function.
pub fn close_function(
    parser: &mut Parser,
    head: Head,
    params: Vec<AstText>,
    vararg: bool,
    body: NodeId,
    kind: Option<TokenKind>,
) -> Result<State, Refusal>
    requires head { HeadBelow (length parser.old.nodes) head }
    requires body { body < length parser.old.nodes }
    ensures gave { Gave
        (end_block (InFunction (head_in parser.old.nodes head) params.items vararg ∷ stack_in parser.old) (tree_in parser.old.nodes body) (terminal_of kind) (attributes true 0 []))
        (end_block (InFunction (head_in parser.old.nodes head) params.items vararg ∷ stack_in parser.old) (tree_in parser.old.nodes body) (terminal_of kind) (attributes false 0 []))
        result parser.new }
    ensures order { Stands (λ below. body ∷ head_on head below) parser.old → Answers result parser.new }
{
    match kind {
        Some(TokenKind::End) => Ok(finish_function(parser, head, params, vararg, body)?),
        _ => Err(Refusal::Unexpected),
    }
}

/// Adds the node of a function, and that of the statement that names it.
fn finish_function(
    parser: &mut Parser,
    head: Head,
    params: Vec<AstText>,
    vararg: bool,
    body: NodeId,
) -> Result<State, AllocError>
    requires head { HeadBelow (length parser.old.nodes) head }
    requires body { body < length parser.old.nodes }
    ensures state { IfOk result (λ s. state_in parser.new.nodes (stack_in parser.new) s
        ≡ finished (head_in parser.old.nodes head) (stack_in parser.old)
        (Function 0 (own_line (head_in parser.old.nodes head)) (given_of (head_in parser.old.nodes head) ++ params.items) vararg
        (tree_in parser.old.nodes body))) }
    ensures below { IfOk result (λ s. StateBelow (length parser.new.nodes) s) }
    ensures order { Stands (λ below. body ∷ head_on head below) parser.old → Answers result parser.new }
{
    let params = all_params(parser.alloc(), is_method(&head), params)?;
    let node = Node::Function {
        params,
        vararg,
        block: body,
    };
    match head {
        Head::Anonymous { limit, line } => Ok(parser.give(limit, node, line)?),
        Head::Assigned {
            line,
            target,
            block,
            ..
        } => Ok(assign_function(parser, line, target, node, block)?),
        Head::Local {
            line,
            own,
            name,
            block,
        } => Ok(local_function(parser, line, own, name, node, block)?),
    }
}

/// Whether it is the head of `function a:b()`.
fn is_method(head: &Head) -> bool
    ensures { result ≡ is_method head.now }
{
    match head {
        Head::Assigned { method, .. } => *method,
        _ => false,
    }
}

/// Adds the nodes of `function a.b() .. end`, where this node is the function.
#[tactic(auto, using(lua_parser_state::proofs::Lists::one_of, lua_ast::proofs::PlacesBelow::below_more))]
fn assign_function(
    parser: &mut Parser,
    line: u32,
    target: NodeId,
    node: Node,
    block: Begun,
) -> Result<State, AllocError>
    requires target { target < length parser.old.nodes }
    requires parts { PartsBelow (length parser.old.nodes) node }
    requires block { BegunBelow (length parser.old.nodes) block }
    ensures state { IfOk result (λ s. state_in parser.new.nodes (stack_in parser.new) s
        ≡ StatNext (add (begun_in parser.old.nodes block) (Assign 0 line (snoc none (tree_in parser.old.nodes target))
        (snoc none (node_tree (tree_in parser.old.nodes) 0 line node)))) (stack_in parser.old)) }
    ensures below { IfOk result (λ s. StateBelow (length parser.new.nodes) s) }
    ensures order { Stands (λ below. parts_on node (target ∷ begun_on block below)) parser.old → Answers result parser.new }
{
    let function = parser.add(node, line)?;
    let mut targets = Ids::new(parser.alloc());
    targets.push(target)?;
    let mut exps = Ids::new(parser.alloc());
    exps.push(function)?;
    let block = parser.statement(block, Node::Assign { targets, exps }, line)?;
    Ok(State::StatNext { block })
}

/// Adds the nodes of `local function name() .. end`, where this node is the function.
#[tactic(auto, using(lua_ast::proofs::PlacesBelow::below_more))]
fn local_function(
    parser: &mut Parser,
    line: u32,
    own: u32,
    name: AstText,
    node: Node,
    block: Begun,
) -> Result<State, AllocError>
    requires parts { PartsBelow (length parser.old.nodes) node }
    requires block { BegunBelow (length parser.old.nodes) block }
    ensures state { IfOk result (λ s. state_in parser.new.nodes (stack_in parser.new) s
        ≡ StatNext (add (begun_in parser.old.nodes block) (LocalFunction 0 line name
        (node_tree (tree_in parser.old.nodes) 0 own node))) (stack_in parser.old)) }
    ensures below { IfOk result (λ s. StateBelow (length parser.new.nodes) s) }
    ensures order { Stands (λ below. parts_on node (begun_on block below)) parser.old → Answers result parser.new }
{
    let function = parser.add(node, own)?;
    let block = parser.statement(block, Node::LocalFunction { name, function }, line)?;
    Ok(State::StatNext { block })
}

/// The parameters with the unwritten `self` of a method before them.
#[tactic(auto, unfolding(lua_grammar::specs::Grammar::self_name))]
fn all_params(alloc: Global, method: bool, params: Vec<AstText>) -> Result<AstTexts, AllocError>
    ensures { IfOk result (λ all. all ≡ given method ++ params.items) }
{
    if !method {
        return Ok(AstTexts::from_vec(params));
    }
    let mut all = Vec::new(alloc);
    let name = AstText::from_bytes(alloc, b"self")?;
    all.push(name)?;
    let mut rest = params;
    all.append(&mut rest)?;
    Ok(AstTexts::from_vec(all))
}
