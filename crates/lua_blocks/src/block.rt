//! The end of a block (Lua 5.2 manual, 3.3.1, 3.3.4 and 3.3.5).

ghost use Rattle.std.specs.Prelude.{◌<◌, ◌∷◌, [], true, false, length, Some, None};
ghost use Rattle.lua_ast.specs.Decode.{PartsBelow, node_tree, cases_of};
ghost use Rattle.lua_grammar.specs.Pushdown.{end_block, block_of, InRepeat, InThen, InElse};
ghost use Rattle.lua_parser_state.specs.Shown.{tree_in, stack_in, begun_in, block_in, frame_in, attributes, BegunBelow, CasesBelow, BlockBelow, FrameBelow};
ghost use Rattle.lua_parser_state.specs.declared.frame.OpenBlock.TheVariants.{NumericFor as OverNumbers, GenericFor as OverIterators};
ghost use Rattle.lua_parser_state.specs.Gave.{Gave, terminal_of};
ghost use Rattle.lua_blocks.specs.Ends.{ended, after_cases};
ghost use Rattle.lua_ast.specs.Postfix.{list_on, maybe_on, cases_on, parts_on};
ghost use Rattle.lua_parser_state.specs.Order.{begun_on, block_on, frame_on, Stands, Answers};

use crate::function::close_function;
use lua_ast::{Ids, Node, NodeId};
use lua_lexer::TokenKind;
use lua_parser_state::{
    Begun, Frame, GenericFor, NumericFor, OpenBlock, OpenHeader, OpenStatement, Parser, Refusal,
    State,
};

/// Adds the node of a block, and reads the token behind it.
pub fn end_block(
    parser: &mut Parser,
    block: Begun,
    kind: Option<TokenKind>,
) -> Result<State, Refusal>
    requires { BegunBelow (length parser.old.nodes) block }
    ensures gave { Gave
        (end_block (stack_in parser.old) (block_of (begun_in parser.old.nodes block)) (terminal_of kind) (attributes true 0 []))
        (end_block (stack_in parser.old) (block_of (begun_in parser.old.nodes block)) (terminal_of kind) (attributes false 0 []))
        result parser.new }
    ensures order { Stands (λ below. begun_on block below) parser.old → Answers result parser.new }
{
    let root = parser.block(block)?;
    match parser.pop() {
        Some(frame) => close_block(parser, frame, root, kind),
        None => match kind {
            None => Ok(State::Done { root }),
            Some(_) => Err(Refusal::Unexpected),
        },
    }
}

/// Reads the token behind the block of this frame.
#[tactic(auto, using(crate::proofs::Others::end_in_statement, crate::proofs::Others::end_in_header))]
fn close_block(
    parser: &mut Parser,
    frame: Frame,
    body: NodeId,
    kind: Option<TokenKind>,
) -> Result<State, Refusal>
    requires frame { FrameBelow (length parser.old.nodes) frame }
    requires body { body < length parser.old.nodes }
    ensures gave { Gave
        (end_block (frame_in parser.old.nodes frame ∷ stack_in parser.old) (tree_in parser.old.nodes body) (terminal_of kind) (attributes true 0 []))
        (end_block (frame_in parser.old.nodes frame ∷ stack_in parser.old) (tree_in parser.old.nodes body) (terminal_of kind) (attributes false 0 []))
        result parser.new }
    ensures order { Stands (λ below. body ∷ frame_on frame below) parser.old → Answers result parser.new }
{
    match frame {
        Frame::InBlock(outer) => close_body(parser, outer, body, kind),
        _ => Err(Refusal::Unexpected),
    }
}

/// Reads the token behind the block of a statement or of a function.
fn close_body(
    parser: &mut Parser,
    outer: OpenBlock,
    body: NodeId,
    kind: Option<TokenKind>,
) -> Result<State, Refusal>
    requires outer { BlockBelow (length parser.old.nodes) outer }
    requires body { body < length parser.old.nodes }
    ensures gave { Gave
        (end_block (block_in parser.old.nodes outer ∷ stack_in parser.old) (tree_in parser.old.nodes body) (terminal_of kind) (attributes true 0 []))
        (end_block (block_in parser.old.nodes outer ∷ stack_in parser.old) (tree_in parser.old.nodes body) (terminal_of kind) (attributes false 0 []))
        result parser.new }
    ensures order { Stands (λ below. body ∷ block_on outer below) parser.old → Answers result parser.new }
{
    match outer {
        OpenBlock::Do { line, block } => {
            close_statement(parser, block, Node::Do { block: body }, line, kind)
        }
        OpenBlock::While { line, test, block } => {
            close_statement(parser, block, Node::While { test, block: body }, line, kind)
        }
        OpenBlock::Repeat { line, block } => close_repeat(parser, line, block, body, kind),
        OpenBlock::Then {
            line,
            tests,
            blocks,
            test,
            block,
        } => close_then(parser, line, tests, blocks, test, block, body, kind),
        OpenBlock::Else {
            line,
            tests,
            blocks,
            block,
        } => close_else(parser, line, tests, blocks, block, body, kind),
        OpenBlock::NumericFor(numeric) => close_numeric_for(parser, numeric, body, kind),
        OpenBlock::GenericFor(generic) => close_generic_for(parser, generic, body, kind),
        OpenBlock::Function {
            head,
            params,
            vararg,
        } => close_function(parser, head, params, vararg, body, kind),
    }
}

/// Reads the `until` behind the block of a `repeat`.
fn close_repeat(
    parser: &mut Parser,
    line: u32,
    block: Begun,
    body: NodeId,
    kind: Option<TokenKind>,
) -> Result<State, Refusal>
    requires block { BegunBelow (length parser.old.nodes) block }
    requires body { body < length parser.old.nodes }
    ensures gave { Gave
        (end_block (InRepeat line (begun_in parser.old.nodes block) ∷ stack_in parser.old) (tree_in parser.old.nodes body) (terminal_of kind) (attributes true 0 []))
        (end_block (InRepeat line (begun_in parser.old.nodes block) ∷ stack_in parser.old) (tree_in parser.old.nodes body) (terminal_of kind) (attributes false 0 []))
        result parser.new }
    ensures order { Stands (λ below. body ∷ begun_on block below) parser.old → Answers result parser.new }
{
    match kind {
        Some(TokenKind::Until) => {
            parser.push(Frame::InStatement(OpenStatement::Until { line, body, block }))?;
            Ok(State::Need { limit: 0 })
        }
        _ => Err(Refusal::Unexpected),
    }
}

/// Reads the `end` behind the block of an `else`.
fn close_else(
    parser: &mut Parser,
    line: u32,
    tests: Ids,
    blocks: Ids,
    block: Begun,
    body: NodeId,
    kind: Option<TokenKind>,
) -> Result<State, Refusal>
    requires cases { CasesBelow (length parser.old.nodes) tests blocks }
    requires block { BegunBelow (length parser.old.nodes) block }
    requires body { body < length parser.old.nodes }
    ensures gave { Gave
        (end_block (InElse line (cases_of (tree_in parser.old.nodes) tests blocks) (begun_in parser.old.nodes block) ∷ stack_in parser.old)
        (tree_in parser.old.nodes body) (terminal_of kind) (attributes true 0 []))
        (end_block (InElse line (cases_of (tree_in parser.old.nodes) tests blocks) (begun_in parser.old.nodes block) ∷ stack_in parser.old)
        (tree_in parser.old.nodes body) (terminal_of kind) (attributes false 0 []))
        result parser.new }
    ensures order { Stands (λ below. body ∷ cases_on tests blocks (begun_on block below)) parser.old → Answers result parser.new }
{
    let node = Node::If {
        tests,
        blocks,
        otherwise: Some(body),
    };
    close_statement(parser, block, node, line, kind)
}

/// Reads the `end` behind the block of a `for` over numbers.
fn close_numeric_for(
    parser: &mut Parser,
    numeric: NumericFor,
    body: NodeId,
    kind: Option<TokenKind>,
) -> Result<State, Refusal>
    requires numeric { BlockBelow (length parser.old.nodes) (OverNumbers numeric) }
    requires body { body < length parser.old.nodes }
    ensures gave { Gave
        (end_block (block_in parser.old.nodes (OverNumbers numeric) ∷ stack_in parser.old) (tree_in parser.old.nodes body) (terminal_of kind) (attributes true 0 []))
        (end_block (block_in parser.old.nodes (OverNumbers numeric) ∷ stack_in parser.old) (tree_in parser.old.nodes body) (terminal_of kind) (attributes false 0 []))
        result parser.new }
    ensures order { Stands (λ below. body ∷ maybe_on numeric.step (numeric.last ∷ numeric.first ∷ begun_on numeric.block below)) parser.old → Answers result parser.new }
{
    let NumericFor {
        line,
        name,
        first,
        last,
        step,
        block,
    } = numeric;
    let node = Node::NumFor {
        name,
        first,
        limit: last,
        step,
        block: body,
    };
    close_statement(parser, block, node, line, kind)
}

/// Reads the `end` behind the block of a `for` over iterators.
fn close_generic_for(
    parser: &mut Parser,
    generic: GenericFor,
    body: NodeId,
    kind: Option<TokenKind>,
) -> Result<State, Refusal>
    requires generic { BlockBelow (length parser.old.nodes) (OverIterators generic) }
    requires body { body < length parser.old.nodes }
    ensures gave { Gave
        (end_block (block_in parser.old.nodes (OverIterators generic) ∷ stack_in parser.old) (tree_in parser.old.nodes body) (terminal_of kind) (attributes true 0 []))
        (end_block (block_in parser.old.nodes (OverIterators generic) ∷ stack_in parser.old) (tree_in parser.old.nodes body) (terminal_of kind) (attributes false 0 []))
        result parser.new }
    ensures order { Stands (λ below. body ∷ list_on generic.exps (begun_on generic.block below)) parser.old → Answers result parser.new }
{
    let GenericFor {
        line,
        names,
        exps,
        block,
    } = generic;
    let node = Node::GenFor {
        names,
        exps,
        block: body,
    };
    close_statement(parser, block, node, line, kind)
}

/// Reads the `end` behind a statement with a block, and adds the node of the statement.
fn close_statement(
    parser: &mut Parser,
    block: Begun,
    node: Node,
    line: u32,
    kind: Option<TokenKind>,
) -> Result<State, Refusal>
    requires parts { PartsBelow (length parser.old.nodes) node }
    requires block { BegunBelow (length parser.old.nodes) block }
    ensures gave { Gave
        (ended (begun_in parser.old.nodes block) (node_tree (tree_in parser.old.nodes) 0 line node) (stack_in parser.old) (terminal_of kind))
        (ended (begun_in parser.old.nodes block) (node_tree (tree_in parser.old.nodes) 0 line node) (stack_in parser.old) (terminal_of kind))
        result parser.new }
    ensures order { Stands (λ below. parts_on node (begun_on block below)) parser.old → Answers result parser.new }
{
    match kind {
        Some(TokenKind::End) => {
            let block = parser.statement(block, node, line)?;
            Ok(State::StatNext { block })
        }
        _ => Err(Refusal::Unexpected),
    }
}

/// Appends a case to those of an `if`, and reads the `end`, `elseif` or `else` behind it.
#[tactic(auto, using(lua_ast::proofs::PlacesBelow::below_push, lua_parser_state::proofs::Lists::length_push))]
fn close_then(
    parser: &mut Parser,
    line: u32,
    mut tests: Ids,
    mut blocks: Ids,
    test: NodeId,
    block: Begun,
    body: NodeId,
    kind: Option<TokenKind>,
) -> Result<State, Refusal>
    requires cases { CasesBelow (length parser.old.nodes) tests blocks }
    requires test { test < length parser.old.nodes }
    requires block { BegunBelow (length parser.old.nodes) block }
    requires body { body < length parser.old.nodes }
    ensures gave { Gave
        (end_block (InThen line (cases_of (tree_in parser.old.nodes) tests blocks) (tree_in parser.old.nodes test) (begun_in parser.old.nodes block) ∷ stack_in parser.old)
        (tree_in parser.old.nodes body) (terminal_of kind) (attributes true 0 []))
        (end_block (InThen line (cases_of (tree_in parser.old.nodes) tests blocks) (tree_in parser.old.nodes test) (begun_in parser.old.nodes block) ∷ stack_in parser.old)
        (tree_in parser.old.nodes body) (terminal_of kind) (attributes false 0 []))
        result parser.new }
    ensures order { Stands (λ below. body ∷ test ∷ cases_on tests blocks (begun_on block below)) parser.old → Answers result parser.new }
{
    tests.push(test)?;
    blocks.push(body)?;
    close_cases(parser, line, tests, blocks, block, kind)
}

/// Reads the `end`, `elseif` or `else` behind these cases of an `if`.
fn close_cases(
    parser: &mut Parser,
    line: u32,
    tests: Ids,
    blocks: Ids,
    block: Begun,
    kind: Option<TokenKind>,
) -> Result<State, Refusal>
    requires cases { CasesBelow (length parser.old.nodes) tests blocks }
    requires block { BegunBelow (length parser.old.nodes) block }
    ensures gave { Gave
        (after_cases line (cases_of (tree_in parser.old.nodes) tests blocks) (begun_in parser.old.nodes block) (stack_in parser.old) (terminal_of kind) (attributes true 0 []))
        (after_cases line (cases_of (tree_in parser.old.nodes) tests blocks) (begun_in parser.old.nodes block) (stack_in parser.old) (terminal_of kind) (attributes false 0 []))
        result parser.new }
    ensures order { Stands (λ below. cases_on tests blocks (begun_on block below)) parser.old → Answers result parser.new }
{
    match kind {
        Some(TokenKind::End) => {
            let node = Node::If {
                tests,
                blocks,
                otherwise: None,
            };
            let block = parser.statement(block, node, line)?;
            Ok(State::StatNext { block })
        }
        Some(TokenKind::Elseif) => {
            parser.push(Frame::InHeader(OpenHeader::If {
                line,
                tests,
                blocks,
                block,
            }))?;
            Ok(State::Need { limit: 0 })
        }
        Some(TokenKind::Else) => parser.enter_block(OpenBlock::Else {
            line,
            tests,
            blocks,
            block,
        }),
        _ => Err(Refusal::Unexpected),
    }
}
