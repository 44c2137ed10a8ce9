//! What goes on where an expression of a statement is over.

ghost use Rattle.std.specs.Prelude.{◌<◌, [], true, false, length, Some, None, ◌∷◌};
ghost use Rattle.lua_ast.specs.Decode.{list_of, AllBelow};
ghost use Rattle.lua_grammar.specs.Pushdown.{InTargets, InLocal, InAssign, InReturn, InStat, InUntil, close};
ghost use Rattle.lua_parser_state.specs.Shown.{tree_in, stack_in, begun_in, statement_in, attributes, BegunBelow, StatementBelow};
ghost use Rattle.lua_parser_state.specs.Gave.{Gave, terminal_of};
ghost use Rattle.lua_statements.specs.Statements.{call_statement};
ghost use Rattle.lua_ast.specs.Postfix.{list_on};
ghost use Rattle.lua_parser_state.specs.Order.{begun_on, statement_on, Stands, Answers};

use crate::statement::{end_after, next_after};
use lua_ast::{AstTexts, Ids, Node, NodeId};
use lua_lexer::TokenKind;
use lua_parser_state::{Begun, Frame, OpenStatement, Parser, Refusal, State};

/// Reads the token behind an expression of a statement.
pub fn close_in_statement(
    parser: &mut Parser,
    statement: OpenStatement,
    had: NodeId,
    kind: Option<TokenKind>,
    line: u32,
    slice: &[u8],
) -> Result<State, Refusal>
    requires statement { StatementBelow (length parser.old.nodes) statement }
    requires had { had < length parser.old.nodes }
    ensures gave { Gave
        (close (statement_in parser.old.nodes statement) (tree_in parser.old.nodes had) (stack_in parser.old) (terminal_of kind) (attributes true line slice.now))
        (close (statement_in parser.old.nodes statement) (tree_in parser.old.nodes had) (stack_in parser.old) (terminal_of kind) (attributes false line slice.now))
        result parser.new }
    ensures order { Stands (λ below. had ∷ statement_on statement below) parser.old → Answers result parser.new }
{
    match statement {
        OpenStatement::Local {
            line: own,
            names,
            exps,
            block,
        } => close_local(parser, own, names, exps, block, had, kind, line, slice),
        OpenStatement::Prefix { block } => close_prefix(parser, block, had, kind, line, slice),
        OpenStatement::Target {
            line,
            targets,
            block,
        } => close_target(parser, line, targets, block, had, kind),
        OpenStatement::Assign {
            line: own,
            targets,
            exps,
            block,
        } => close_assign(parser, own, targets, exps, block, had, kind, line, slice),
        OpenStatement::Return { line, exps, block } => {
            close_return(parser, line, exps, block, had, kind)
        }
        OpenStatement::Until {
            line: own,
            body,
            block,
        } => close_until(parser, own, body, block, had, kind, line, slice),
    }
}

/// Adds the node of a `repeat`, and reads what is behind its test.
fn close_until(
    parser: &mut Parser,
    own: u32,
    body: NodeId,
    block: Begun,
    had: NodeId,
    kind: Option<TokenKind>,
    line: u32,
    slice: &[u8],
) -> Result<State, Refusal>
    requires body { body < length parser.old.nodes }
    requires block { BegunBelow (length parser.old.nodes) block }
    requires had { had < length parser.old.nodes }
    ensures gave { Gave
        (close (InUntil own (tree_in parser.old.nodes body) (begun_in parser.old.nodes block)) (tree_in parser.old.nodes had) (stack_in parser.old) (terminal_of kind) (attributes true line slice.now))
        (close (InUntil own (tree_in parser.old.nodes body) (begun_in parser.old.nodes block)) (tree_in parser.old.nodes had) (stack_in parser.old) (terminal_of kind) (attributes false line slice.now))
        result parser.new }
    ensures order { Stands (λ below. had ∷ body ∷ begun_on block below) parser.old → Answers result parser.new }
{
    let node = Node::Repeat {
        block: body,
        test: had,
    };
    next_after(parser, block, node, own, kind, line, slice)
}

/// Appends an expression to those of a `local`, and reads the token behind it.
#[tactic(auto, using(lua_ast::proofs::Growing::list_of_push, lua_ast::proofs::PlacesBelow::below_push, lua_parser_state::proofs::Ordering::list_on_push))]
fn close_local(
    parser: &mut Parser,
    own: u32,
    names: AstTexts,
    mut exps: Ids,
    block: Begun,
    had: NodeId,
    kind: Option<TokenKind>,
    line: u32,
    slice: &[u8],
) -> Result<State, Refusal>
    requires exps { AllBelow (length parser.old.nodes) exps }
    requires block { BegunBelow (length parser.old.nodes) block }
    requires had { had < length parser.old.nodes }
    ensures gave { Gave
        (close (InLocal own names (list_of (tree_in parser.old.nodes) exps) (begun_in parser.old.nodes block)) (tree_in parser.old.nodes had) (stack_in parser.old) (terminal_of kind) (attributes true line slice.now))
        (close (InLocal own names (list_of (tree_in parser.old.nodes) exps) (begun_in parser.old.nodes block)) (tree_in parser.old.nodes had) (stack_in parser.old) (terminal_of kind) (attributes false line slice.now))
        result parser.new }
    ensures order { Stands (λ below. had ∷ list_on exps (begun_on block below)) parser.old → Answers result parser.new }
{
    exps.push(had)?;
    let Some(token) = kind else {
        let node = Node::Local { names, exps };
        return next_after(parser, block, node, own, None, line, slice);
    };
    match token {
        TokenKind::Comma => {
            parser.push(Frame::InStatement(OpenStatement::Local {
                line: own,
                names,
                exps,
                block,
            }))?;
            Ok(State::Need { limit: 0 })
        }
        _ => {
            let node = Node::Local { names, exps };
            next_after(parser, block, node, own, Some(token), line, slice)
        }
    }
}

/// Appends an expression to those of an assignment, and reads the token behind it.
#[tactic(auto, using(lua_ast::proofs::Growing::list_of_push, lua_ast::proofs::PlacesBelow::below_push, lua_parser_state::proofs::Ordering::list_on_push))]
fn close_assign(
    parser: &mut Parser,
    own: u32,
    targets: Ids,
    mut exps: Ids,
    block: Begun,
    had: NodeId,
    kind: Option<TokenKind>,
    line: u32,
    slice: &[u8],
) -> Result<State, Refusal>
    requires targets { AllBelow (length parser.old.nodes) targets }
    requires exps { AllBelow (length parser.old.nodes) exps }
    requires block { BegunBelow (length parser.old.nodes) block }
    requires had { had < length parser.old.nodes }
    ensures gave { Gave
        (close (InAssign own (list_of (tree_in parser.old.nodes) targets) (list_of (tree_in parser.old.nodes) exps) (begun_in parser.old.nodes block)) (tree_in parser.old.nodes had) (stack_in parser.old) (terminal_of kind) (attributes true line slice.now))
        (close (InAssign own (list_of (tree_in parser.old.nodes) targets) (list_of (tree_in parser.old.nodes) exps) (begun_in parser.old.nodes block)) (tree_in parser.old.nodes had) (stack_in parser.old) (terminal_of kind) (attributes false line slice.now))
        result parser.new }
    ensures order { Stands (λ below. had ∷ list_on exps (list_on targets (begun_on block below))) parser.old → Answers result parser.new }
{
    exps.push(had)?;
    let Some(token) = kind else {
        let node = Node::Assign { targets, exps };
        return next_after(parser, block, node, own, None, line, slice);
    };
    match token {
        TokenKind::Comma => {
            parser.push(Frame::InStatement(OpenStatement::Assign {
                line: own,
                targets,
                exps,
                block,
            }))?;
            Ok(State::Need { limit: 0 })
        }
        _ => {
            let node = Node::Assign { targets, exps };
            next_after(parser, block, node, own, Some(token), line, slice)
        }
    }
}

/// Appends an expression to those of a `return`, and reads the token behind it.
#[tactic(auto, using(lua_ast::proofs::Growing::list_of_push, lua_ast::proofs::PlacesBelow::below_push, lua_parser_state::proofs::Ordering::list_on_push))]
fn close_return(
    parser: &mut Parser,
    own: u32,
    mut exps: Ids,
    block: Begun,
    had: NodeId,
    kind: Option<TokenKind>,
) -> Result<State, Refusal>
    requires exps { AllBelow (length parser.old.nodes) exps }
    requires block { BegunBelow (length parser.old.nodes) block }
    requires had { had < length parser.old.nodes }
    ensures gave { Gave
        (close (InReturn own (list_of (tree_in parser.old.nodes) exps) (begun_in parser.old.nodes block)) (tree_in parser.old.nodes had) (stack_in parser.old) (terminal_of kind) (attributes true 0 []))
        (close (InReturn own (list_of (tree_in parser.old.nodes) exps) (begun_in parser.old.nodes block)) (tree_in parser.old.nodes had) (stack_in parser.old) (terminal_of kind) (attributes false 0 []))
        result parser.new }
    ensures order { Stands (λ below. had ∷ list_on exps (begun_on block below)) parser.old → Answers result parser.new }
{
    exps.push(had)?;
    let Some(token) = kind else {
        return end_after(parser, block, Node::Return { exps }, own, None);
    };
    match token {
        TokenKind::Comma => {
            parser.push(Frame::InStatement(OpenStatement::Return {
                line: own,
                exps,
                block,
            }))?;
            Ok(State::Need { limit: 0 })
        }
        TokenKind::Semicolon => {
            let block = parser.statement(block, Node::Return { exps }, own)?;
            Ok(State::BlockEnd { block })
        }
        _ => end_after(parser, block, Node::Return { exps }, own, Some(token)),
    }
}

/// Reads the token behind the first target of an assignment, or behind a call that is a statement.
#[tactic(auto, using(lua_parser_state::proofs::Lists::one_of, lua_parser_state::proofs::Lists::list_of_none))]
fn close_prefix(
    parser: &mut Parser,
    block: Begun,
    had: NodeId,
    kind: Option<TokenKind>,
    line: u32,
    slice: &[u8],
) -> Result<State, Refusal>
    requires block { BegunBelow (length parser.old.nodes) block }
    requires had { had < length parser.old.nodes }
    ensures gave { Gave
        (close (InStat (begun_in parser.old.nodes block)) (tree_in parser.old.nodes had) (stack_in parser.old) (terminal_of kind) (attributes true line slice.now))
        (close (InStat (begun_in parser.old.nodes block)) (tree_in parser.old.nodes had) (stack_in parser.old) (terminal_of kind) (attributes false line slice.now))
        result parser.new }
    ensures order { Stands (λ below. had ∷ begun_on block below) parser.old → Answers result parser.new }
{
    let own = parser.line(had);
    let Some(token) = kind else {
        return call_statement(parser, block, had, own, None, line, slice);
    };
    match token {
        TokenKind::Assign | TokenKind::Comma => {
            let targets = Ids::new(parser.alloc());
            add_target(parser, own, targets, block, had, token)
        }
        _ => call_statement(parser, block, had, own, Some(token), line, slice),
    }
}

/// Adds the node of a call that is a statement, and reads what is behind it.
fn call_statement(
    parser: &mut Parser,
    block: Begun,
    had: NodeId,
    own: u32,
    kind: Option<TokenKind>,
    line: u32,
    slice: &[u8],
) -> Result<State, Refusal>
    requires block { BegunBelow (length parser.old.nodes) block }
    requires had { had < length parser.old.nodes }
    ensures gave { Gave
        (call_statement own (tree_in parser.old.nodes had) (begun_in parser.old.nodes block) (stack_in parser.old) (terminal_of kind) (attributes true line slice.now))
        (call_statement own (tree_in parser.old.nodes had) (begun_in parser.old.nodes block) (stack_in parser.old) (terminal_of kind) (attributes false line slice.now))
        result parser.new }
    ensures order { Stands (λ below. had ∷ begun_on block below) parser.old → Answers result parser.new }
{
    if !parser.is_call(had) {
        return Err(Refusal::Unexpected);
    }
    next_after(
        parser,
        block,
        Node::CallStat { call: had },
        own,
        kind,
        line,
        slice,
    )
}

/// Reads the `=` or `,` behind a further target of an assignment.
fn close_target(
    parser: &mut Parser,
    own: u32,
    targets: Ids,
    block: Begun,
    had: NodeId,
    kind: Option<TokenKind>,
) -> Result<State, Refusal>
    requires targets { AllBelow (length parser.old.nodes) targets }
    requires block { BegunBelow (length parser.old.nodes) block }
    requires had { had < length parser.old.nodes }
    ensures gave { Gave
        (close (InTargets own (list_of (tree_in parser.old.nodes) targets) (begun_in parser.old.nodes block)) (tree_in parser.old.nodes had) (stack_in parser.old) (terminal_of kind) (attributes true 0 []))
        (close (InTargets own (list_of (tree_in parser.old.nodes) targets) (begun_in parser.old.nodes block)) (tree_in parser.old.nodes had) (stack_in parser.old) (terminal_of kind) (attributes false 0 []))
        result parser.new }
    ensures order { Stands (λ below. had ∷ list_on targets (begun_on block below)) parser.old → Answers result parser.new }
{
    match kind {
        Some(token) => add_target(parser, own, targets, block, had, token),
        None => Err(Refusal::Unexpected),
    }
}

/// Appends a target to those of an assignment, and reads the `=` or `,` behind it.
#[tactic(auto, using(lua_ast::proofs::Growing::list_of_push, lua_ast::proofs::PlacesBelow::below_push, lua_parser_state::proofs::Lists::list_of_none, lua_parser_state::proofs::Ordering::list_on_push))]
fn add_target(
    parser: &mut Parser,
    own: u32,
    mut targets: Ids,
    block: Begun,
    had: NodeId,
    token: TokenKind,
) -> Result<State, Refusal>
    requires targets { AllBelow (length parser.old.nodes) targets }
    requires block { BegunBelow (length parser.old.nodes) block }
    requires had { had < length parser.old.nodes }
    ensures gave { Gave
        (close (InTargets own (list_of (tree_in parser.old.nodes) targets) (begun_in parser.old.nodes block)) (tree_in parser.old.nodes had) (stack_in parser.old) (terminal_of (Some token)) (attributes true 0 []))
        (close (InTargets own (list_of (tree_in parser.old.nodes) targets) (begun_in parser.old.nodes block)) (tree_in parser.old.nodes had) (stack_in parser.old) (terminal_of (Some token)) (attributes false 0 []))
        result parser.new }
    ensures order { Stands (λ below. had ∷ list_on targets (begun_on block below)) parser.old → Answers result parser.new }
{
    if !parser.is_var(had) {
        return Err(Refusal::Unexpected);
    }
    targets.push(had)?;
    match token {
        TokenKind::Assign => {
            parser.push(Frame::InStatement(OpenStatement::Assign {
                line: own,
                targets,
                exps: Ids::new(parser.alloc()),
                block,
            }))?;
            Ok(State::Need { limit: 0 })
        }
        TokenKind::Comma => Ok(State::TargetNext {
            line: own,
            targets,
            block,
        }),
        _ => Err(Refusal::Unexpected),
    }
}
