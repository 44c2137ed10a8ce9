//! What stands before the block of a statement (Lua 5.2 manual, 3.3.4 and 3.3.5).

ghost use Rattle.std.specs.Prelude.{◌<◌, [], ℕ, List, true, false, length, ◌∷◌};
ghost use Rattle.lua_ast.specs.Decode.{cases_of};
ghost use Rattle.lua_grammar.specs.Pushdown.{InWhileTest, InIfTest, InFirst, InLimit, InStep, close};
ghost use Rattle.lua_parser_state.specs.Shown.{tree_in, stack_in, begun_in, header_in, attributes, BegunBelow, CasesBelow, HeaderBelow};
ghost use Rattle.lua_parser_state.specs.declared.frame.OpenHeader.TheVariants.{Iterator};
ghost use Rattle.lua_parser_state.specs.Gave.{Gave, terminal_of};
ghost use Rattle.lua_ast.specs.Postfix.{list_on, cases_on};
ghost use Rattle.lua_parser_state.specs.Order.{begun_on, header_on, Stands, Answers};

use lua_ast::{AstText, Ids, NodeId};
use lua_lexer::TokenKind;
use lua_parser_state::{
    Begun, Frame, GenericFor, NumericFor, OpenBlock, OpenHeader, Parser, Refusal, State,
};

/// Reads the token behind an expression that stands before the block of a statement.
pub fn close_in_header(
    parser: &mut Parser,
    header: OpenHeader,
    had: NodeId,
    kind: Option<TokenKind>,
) -> Result<State, Refusal>
    requires header { HeaderBelow (length parser.old.nodes) header }
    requires had { had < length parser.old.nodes }
    ensures gave { (line : ℕ) (slice : List ℕ) → Gave
        (close (header_in parser.old.nodes header) (tree_in parser.old.nodes had) (stack_in parser.old) (terminal_of kind) (attributes true line slice))
        (close (header_in parser.old.nodes header) (tree_in parser.old.nodes had) (stack_in parser.old) (terminal_of kind) (attributes false line slice))
        result parser.new }
    ensures order { Stands (λ below. had ∷ header_on header below) parser.old → Answers result parser.new }
{
    match header {
        OpenHeader::While { line, block } => close_while(parser, line, block, had, kind),
        OpenHeader::If {
            line,
            tests,
            blocks,
            block,
        } => close_if(parser, line, tests, blocks, block, had, kind),
        OpenHeader::First { line, name, block } => {
            close_first(parser, line, name, block, had, kind)
        }
        OpenHeader::Last {
            line,
            name,
            first,
            block,
        } => close_last(parser, line, name, first, block, had, kind),
        OpenHeader::Step {
            line,
            name,
            first,
            last,
            block,
        } => close_step(parser, line, name, first, last, block, had, kind),
        OpenHeader::Iterator(generic) => close_iterator(parser, generic, had, kind),
    }
}

/// Reads the `do` behind the test of a `while`.
fn close_while(
    parser: &mut Parser,
    line: u32,
    block: Begun,
    had: NodeId,
    kind: Option<TokenKind>,
) -> Result<State, Refusal>
    requires block { BegunBelow (length parser.old.nodes) block }
    requires had { had < length parser.old.nodes }
    ensures gave { Gave
        (close (InWhileTest line (begun_in parser.old.nodes block)) (tree_in parser.old.nodes had) (stack_in parser.old) (terminal_of kind) (attributes true 0 []))
        (close (InWhileTest line (begun_in parser.old.nodes block)) (tree_in parser.old.nodes had) (stack_in parser.old) (terminal_of kind) (attributes false 0 []))
        result parser.new }
    ensures order { Stands (λ below. had ∷ begun_on block below) parser.old → Answers result parser.new }
{
    match kind {
        Some(TokenKind::Do) => parser.enter_block(OpenBlock::While {
            line,
            test: had,
            block,
        }),
        _ => Err(Refusal::Unexpected),
    }
}

/// Reads the `then` behind a test of an `if`.
fn close_if(
    parser: &mut Parser,
    line: u32,
    tests: Ids,
    blocks: Ids,
    block: Begun,
    had: NodeId,
    kind: Option<TokenKind>,
) -> Result<State, Refusal>
    requires cases { CasesBelow (length parser.old.nodes) tests blocks }
    requires block { BegunBelow (length parser.old.nodes) block }
    requires had { had < length parser.old.nodes }
    ensures gave { Gave
        (close (InIfTest line (cases_of (tree_in parser.old.nodes) tests blocks) (begun_in parser.old.nodes block)) (tree_in parser.old.nodes had) (stack_in parser.old) (terminal_of kind) (attributes true 0 []))
        (close (InIfTest line (cases_of (tree_in parser.old.nodes) tests blocks) (begun_in parser.old.nodes block)) (tree_in parser.old.nodes had) (stack_in parser.old) (terminal_of kind) (attributes false 0 []))
        result parser.new }
    ensures order { Stands (λ below. had ∷ cases_on tests blocks (begun_on block below)) parser.old → Answers result parser.new }
{
    match kind {
        Some(TokenKind::Then) => parser.enter_block(OpenBlock::Then {
            line,
            tests,
            blocks,
            test: had,
            block,
        }),
        _ => Err(Refusal::Unexpected),
    }
}

/// Reads the `,` behind the first value of a `for`.
fn close_first(
    parser: &mut Parser,
    line: u32,
    name: AstText,
    block: Begun,
    had: NodeId,
    kind: Option<TokenKind>,
) -> Result<State, Refusal>
    requires block { BegunBelow (length parser.old.nodes) block }
    requires had { had < length parser.old.nodes }
    ensures gave { Gave
        (close (InFirst line name (begun_in parser.old.nodes block)) (tree_in parser.old.nodes had) (stack_in parser.old) (terminal_of kind) (attributes true 0 []))
        (close (InFirst line name (begun_in parser.old.nodes block)) (tree_in parser.old.nodes had) (stack_in parser.old) (terminal_of kind) (attributes false 0 []))
        result parser.new }
    ensures order { Stands (λ below. had ∷ begun_on block below) parser.old → Answers result parser.new }
{
    match kind {
        Some(TokenKind::Comma) => {
            parser.push(Frame::InHeader(OpenHeader::Last {
                line,
                name,
                first: had,
                block,
            }))?;
            Ok(State::Need { limit: 0 })
        }
        _ => Err(Refusal::Unexpected),
    }
}

/// Reads the `,` or `do` behind the last value of a `for`.
fn close_last(
    parser: &mut Parser,
    line: u32,
    name: AstText,
    first: NodeId,
    block: Begun,
    had: NodeId,
    kind: Option<TokenKind>,
) -> Result<State, Refusal>
    requires first { first < length parser.old.nodes }
    requires block { BegunBelow (length parser.old.nodes) block }
    requires had { had < length parser.old.nodes }
    ensures gave { Gave
        (close (InLimit line name (tree_in parser.old.nodes first) (begun_in parser.old.nodes block)) (tree_in parser.old.nodes had) (stack_in parser.old) (terminal_of kind) (attributes true 0 []))
        (close (InLimit line name (tree_in parser.old.nodes first) (begun_in parser.old.nodes block)) (tree_in parser.old.nodes had) (stack_in parser.old) (terminal_of kind) (attributes false 0 []))
        result parser.new }
    ensures order { Stands (λ below. had ∷ first ∷ begun_on block below) parser.old → Answers result parser.new }
{
    match kind {
        Some(TokenKind::Comma) => {
            parser.push(Frame::InHeader(OpenHeader::Step {
                line,
                name,
                first,
                last: had,
                block,
            }))?;
            Ok(State::Need { limit: 0 })
        }
        Some(TokenKind::Do) => parser.enter_block(OpenBlock::NumericFor(NumericFor {
            line,
            name,
            first,
            last: had,
            step: None,
            block,
        })),
        _ => Err(Refusal::Unexpected),
    }
}

/// Reads the `do` behind the step of a `for`.
fn close_step(
    parser: &mut Parser,
    line: u32,
    name: AstText,
    first: NodeId,
    last: NodeId,
    block: Begun,
    had: NodeId,
    kind: Option<TokenKind>,
) -> Result<State, Refusal>
    requires first { first < length parser.old.nodes }
    requires last { last < length parser.old.nodes }
    requires block { BegunBelow (length parser.old.nodes) block }
    requires had { had < length parser.old.nodes }
    ensures gave { Gave
        (close (InStep line name (tree_in parser.old.nodes first) (tree_in parser.old.nodes last) (begun_in parser.old.nodes block)) (tree_in parser.old.nodes had) (stack_in parser.old) (terminal_of kind) (attributes true 0 []))
        (close (InStep line name (tree_in parser.old.nodes first) (tree_in parser.old.nodes last) (begun_in parser.old.nodes block)) (tree_in parser.old.nodes had) (stack_in parser.old) (terminal_of kind) (attributes false 0 []))
        result parser.new }
    ensures order { Stands (λ below. had ∷ last ∷ first ∷ begun_on block below) parser.old → Answers result parser.new }
{
    match kind {
        Some(TokenKind::Do) => parser.enter_block(OpenBlock::NumericFor(NumericFor {
            line,
            name,
            first,
            last,
            step: Some(had),
            block,
        })),
        _ => Err(Refusal::Unexpected),
    }
}

/// Appends an expression to those of a `for` over iterators, and reads the `,` or `do` behind it.
#[tactic(auto, using(lua_ast::proofs::Growing::list_of_push, lua_ast::proofs::PlacesBelow::below_push, lua_parser_state::proofs::Ordering::list_on_push))]
fn close_iterator(
    parser: &mut Parser,
    mut generic: GenericFor,
    had: NodeId,
    kind: Option<TokenKind>,
) -> Result<State, Refusal>
    requires generic { HeaderBelow (length parser.old.nodes) (Iterator generic) }
    requires had { had < length parser.old.nodes }
    ensures gave { Gave
        (close (header_in parser.old.nodes (Iterator generic)) (tree_in parser.old.nodes had) (stack_in parser.old) (terminal_of kind) (attributes true 0 []))
        (close (header_in parser.old.nodes (Iterator generic)) (tree_in parser.old.nodes had) (stack_in parser.old) (terminal_of kind) (attributes false 0 []))
        result parser.new }
    ensures order { Stands (λ below. had ∷ list_on generic.exps (begun_on generic.block below)) parser.old → Answers result parser.new }
{
    generic.exps.push(had)?;
    match kind {
        Some(TokenKind::Comma) => {
            parser.push(Frame::InHeader(OpenHeader::Iterator(generic)))?;
            Ok(State::Need { limit: 0 })
        }
        Some(TokenKind::Do) => parser.enter_block(OpenBlock::GenericFor(generic)),
        _ => Err(Refusal::Unexpected),
    }
}
