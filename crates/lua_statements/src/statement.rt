//! The beginnings of statements (Lua 5.2 manual, 3.3 and section 9).

ghost use Rattle.std.specs.Prelude.{[], ℕ, List, true, false, length, Some, None};
ghost use Rattle.lua_ast.specs.Decode.{PartsBelow, node_tree, list_of, AllBelow};
ghost use Rattle.lua_lexer.specs.declared.token.TokenKind.TheVariants.{In};
ghost use Rattle.lua_grammar.specs.Signs.{token};
ghost use Rattle.lua_grammar.specs.Pushdown.{add, next, end_block, block_of, begin, label_end, target_next, return_next};
ghost use Rattle.lua_parser_state.specs.Shown.{tree_in, stack_in, begun_in, statement_in, attributes, BegunBelow, StatementBelow};
ghost use Rattle.lua_parser_state.specs.Gave.{Gave, IsSmallSign, terminal_of};
ghost use Rattle.lua_statements.specs.Statements.{begin_prefix, next_block};
ghost use Rattle.lua_ast.specs.Postfix.{list_on, parts_on};
ghost use Rattle.lua_parser_state.specs.Order.{begun_on, statement_on, Stands, Answers};

use lua_ast::{AstText, Ids, Node};
use lua_blocks::end_block;
use lua_expressions::begin_in;
use lua_lexer::TokenKind;
use lua_parser_state::{
    Begun, Frame, Naming, OpenBlock, OpenHeader, OpenStatement, Parser, Refusal, State,
};

/// Puts a statement on top, and reads the first token of the prefix that it goes on with: a name or `(`.
#[tactic(auto, using(lua_parser_state::proofs::Nodes::lift_statement))]
pub fn begin_prefix(
    parser: &mut Parser,
    statement: OpenStatement,
    kind: TokenKind,
    line: u32,
    slice: &[u8],
) -> Result<State, Refusal>
    requires { StatementBelow (length parser.old.nodes) statement }
    ensures gave { Gave
        (begin_prefix (statement_in parser.old.nodes statement) (stack_in parser.old) (token kind) (attributes true line slice.now))
        (begin_prefix (statement_in parser.old.nodes statement) (stack_in parser.old) (token kind) (attributes false line slice.now)) result parser.new }
    ensures order { Stands (λ below. statement_on statement below) parser.old → Answers result parser.new }
{
    parser.push(Frame::InStatement(statement))?;
    match kind {
        TokenKind::Name => {
            let text = AstText::from_bytes(parser.alloc(), slice)?;
            Ok(parser.give(10, Node::Name { text }, line)?)
        }
        TokenKind::OpenParen => parser.enter(Frame::InParen { limit: 10, line }, 0),
        _ => Err(Refusal::Unexpected),
    }
}

/// Reads the first token of a statement, or the end of the block.
pub fn next(
    parser: &mut Parser,
    block: Begun,
    kind: Option<TokenKind>,
    line: u32,
    slice: &[u8],
) -> Result<State, Refusal>
    requires { BegunBelow (length parser.old.nodes) block }
    ensures gave { Gave
        (next (begun_in parser.old.nodes block) (stack_in parser.old) (terminal_of kind) (attributes true line slice.now))
        (next (begun_in parser.old.nodes block) (stack_in parser.old) (terminal_of kind) (attributes false line slice.now))
        result parser.new }
    ensures order { Stands (λ below. begun_on block below) parser.old → Answers result parser.new }
{
    match kind {
        Some(kind) => next_token(parser, block, kind, line, slice),
        None => end_block(parser, block, None),
    }
}

/// Reads the first token of a statement, or one that ends the block.
fn next_token(
    parser: &mut Parser,
    block: Begun,
    kind: TokenKind,
    line: u32,
    slice: &[u8],
) -> Result<State, Refusal>
    requires { BegunBelow (length parser.old.nodes) block }
    ensures gave { Gave
        (next (begun_in parser.old.nodes block) (stack_in parser.old) (token kind) (attributes true line slice.now))
        (next (begun_in parser.old.nodes block) (stack_in parser.old) (token kind) (attributes false line slice.now))
        result parser.new }
    ensures order { Stands (λ below. begun_on block below) parser.old → Answers result parser.new }
{
    match kind {
        TokenKind::Semicolon => Ok(State::StatNext { block }),
        TokenKind::Name | TokenKind::OpenParen => {
            begin_prefix(parser, OpenStatement::Prefix { block }, kind, line, slice)
        }
        TokenKind::DoubleColon => {
            let naming = Naming::ForLabel { line, block };
            Ok(State::NameNext { naming })
        }
        TokenKind::Break => {
            let block = parser.statement(block, Node::Break, line)?;
            Ok(State::StatNext { block })
        }
        TokenKind::Goto => {
            let naming = Naming::ForGoto { line, block };
            Ok(State::NameNext { naming })
        }
        TokenKind::For => {
            let naming = Naming::ForVariable { line, block };
            Ok(State::NameNext { naming })
        }
        TokenKind::Function => {
            let naming = Naming::ForFunction { line, block };
            parser.deepen(State::NameNext { naming })
        }
        TokenKind::Local => Ok(State::LocalNext { line, block }),
        TokenKind::Return => Ok(State::ReturnNext { line, block }),
        other => next_block(parser, block, other, line),
    }
}

/// Reads the first token of a statement with a block, or one that ends the block.
#[tactic(auto, using(lua_parser_state::proofs::Lists::cases_of_none))]
fn next_block(
    parser: &mut Parser,
    block: Begun,
    kind: TokenKind,
    line: u32,
) -> Result<State, Refusal>
    requires { BegunBelow (length parser.old.nodes) block }
    ensures gave { (slice : List ℕ) → Gave
        (next_block (begun_in parser.old.nodes block) (stack_in parser.old) (token kind) (attributes true line slice))
        (next_block (begun_in parser.old.nodes block) (stack_in parser.old) (token kind) (attributes false line slice))
        result parser.new }
    ensures order { Stands (λ below. begun_on block below) parser.old → Answers result parser.new }
{
    match kind {
        TokenKind::Do => parser.enter_block(OpenBlock::Do { line, block }),
        TokenKind::While => {
            parser.push(Frame::InHeader(OpenHeader::While { line, block }))?;
            Ok(State::Need { limit: 0 })
        }
        TokenKind::Repeat => parser.enter_block(OpenBlock::Repeat { line, block }),
        TokenKind::If => {
            let header = OpenHeader::If {
                line,
                tests: Ids::new(parser.alloc()),
                blocks: Ids::new(parser.alloc()),
                block,
            };
            parser.push(Frame::InHeader(header))?;
            Ok(State::Need { limit: 0 })
        }
        other => end_block(parser, block, Some(other)),
    }
}

/// Adds the node of a statement, and reads what is behind it.
pub fn next_after(
    parser: &mut Parser,
    block: Begun,
    node: Node,
    own: u32,
    kind: Option<TokenKind>,
    line: u32,
    slice: &[u8],
) -> Result<State, Refusal>
    requires parts { PartsBelow (length parser.old.nodes) node }
    requires block { BegunBelow (length parser.old.nodes) block }
    ensures gave { Gave
        (next (add (begun_in parser.old.nodes block) (node_tree (tree_in parser.old.nodes) 0 own node)) (stack_in parser.old) (terminal_of kind) (attributes true line slice.now))
        (next (add (begun_in parser.old.nodes block) (node_tree (tree_in parser.old.nodes) 0 own node)) (stack_in parser.old) (terminal_of kind) (attributes false line slice.now))
        result parser.new }
    ensures order { Stands (λ below. parts_on node (begun_on block below)) parser.old → Answers result parser.new }
{
    let block = parser.statement(block, node, own)?;
    next(parser, block, kind, line, slice)
}

/// Adds the node of the last statement of a block, and reads what is behind it.
pub fn end_after(
    parser: &mut Parser,
    block: Begun,
    node: Node,
    own: u32,
    kind: Option<TokenKind>,
) -> Result<State, Refusal>
    requires parts { PartsBelow (length parser.old.nodes) node }
    requires block { BegunBelow (length parser.old.nodes) block }
    ensures gave { Gave
        (end_block (stack_in parser.old) (block_of (add (begun_in parser.old.nodes block) (node_tree (tree_in parser.old.nodes) 0 own node))) (terminal_of kind) (attributes true 0 []))
        (end_block (stack_in parser.old) (block_of (add (begun_in parser.old.nodes block) (node_tree (tree_in parser.old.nodes) 0 own node))) (terminal_of kind) (attributes false 0 []))
        result parser.new }
    ensures order { Stands (λ below. parts_on node (begun_on block below)) parser.old → Answers result parser.new }
{
    let block = parser.statement(block, node, own)?;
    end_block(parser, block, kind)
}

/// Reads the second `::` of a label, and adds its node.
pub fn label_end(
    parser: &mut Parser,
    line: u32,
    name: AstText,
    block: Begun,
    kind: TokenKind,
) -> Result<State, Refusal>
    requires { BegunBelow (length parser.old.nodes) block }
    ensures gave { Gave
        (label_end line name (begun_in parser.old.nodes block) (stack_in parser.old) (token kind))
        (label_end line name (begun_in parser.old.nodes block) (stack_in parser.old) (token kind))
        result parser.new }
    ensures order { Stands (λ below. begun_on block below) parser.old → Answers result parser.new }
{
    match kind {
        TokenKind::DoubleColon => {
            let block = parser.statement(block, Node::Label { label: name }, line)?;
            Ok(State::StatNext { block })
        }
        _ => Err(Refusal::Unexpected),
    }
}

/// Reads the first token of a further target of an assignment.
pub fn target_next(
    parser: &mut Parser,
    own: u32,
    targets: Ids,
    block: Begun,
    kind: TokenKind,
    line: u32,
    slice: &[u8],
) -> Result<State, Refusal>
    requires targets { AllBelow (length parser.old.nodes) targets }
    requires block { BegunBelow (length parser.old.nodes) block }
    ensures gave { Gave
        (target_next own (list_of (tree_in parser.old.nodes) targets) (begun_in parser.old.nodes block) (stack_in parser.old) (token kind) (attributes true line slice.now))
        (target_next own (list_of (tree_in parser.old.nodes) targets) (begun_in parser.old.nodes block) (stack_in parser.old) (token kind) (attributes false line slice.now))
        result parser.new }
    ensures order { Stands (λ below. list_on targets (begun_on block below)) parser.old → Answers result parser.new }
{
    let statement = OpenStatement::Target {
        line: own,
        targets,
        block,
    };
    begin_prefix(parser, statement, kind, line, slice)
}

/// Reads the token behind `return`, which stands on the line `own`.
#[tactic(auto, using(lua_parser_state::proofs::Lists::list_of_none))]
pub fn return_next(
    parser: &mut Parser,
    own: u32,
    block: Begun,
    kind: Option<TokenKind>,
    line: u32,
    slice: &[u8],
) -> Result<State, Refusal>
    requires block { BegunBelow (length parser.old.nodes) block }
    requires small { IsSmallSign kind slice.now }
    ensures gave { Gave
        (return_next own (begun_in parser.old.nodes block) (stack_in parser.old) (terminal_of kind) (attributes true line slice.now))
        (return_next own (begun_in parser.old.nodes block) (stack_in parser.old) (terminal_of kind) (attributes false line slice.now))
        result parser.new }
    ensures order { Stands (λ below. begun_on block below) parser.old → Answers result parser.new }
{
    let exps = Ids::new(parser.alloc());
    let Some(token) = kind else {
        return end_after(parser, block, Node::Return { exps }, own, None);
    };
    match token {
        TokenKind::Semicolon => {
            let block = parser.statement(block, Node::Return { exps }, own)?;
            Ok(State::BlockEnd { block })
        }
        TokenKind::End | TokenKind::Else | TokenKind::Elseif | TokenKind::Until => {
            end_after(parser, block, Node::Return { exps }, own, Some(token))
        }
        _ => {
            let statement = OpenStatement::Return {
                line: own,
                exps,
                block,
            };
            begin_in(parser, Frame::InStatement(statement), token, line, slice)
        }
    }
}
