//! Calls and table constructors (Lua 5.2 manual, 3.4.8 and 3.4.9).

ghost use Rattle.std.specs.Prelude.{◌≡◌, ◌<◌, true, false, length, IfOk, ◌∷◌};
ghost use Rattle.lua_ast.specs.Tree.{Table, none, snoc};
ghost use Rattle.lua_ast.specs.Decode.{list_of, fields_of, AllBelow};
ghost use Rattle.lua_grammar.specs.Signs.{token};
ghost use Rattle.lua_lexer.specs.declared.token.TokenKind.TheVariants.{Text};
ghost use Rattle.lua_grammar.specs.Pushdown.{Have, call_of, args_begin, made, field_done};
ghost use Rattle.lua_parser_state.specs.Shown.{tree_in, stack_in, state_in, callee_in, purpose_in, attributes, CalleeBelow, TableBelow, StateBelow};
ghost use Rattle.lua_parser_state.specs.Gave.{Gave};
ghost use Rattle.lua_ast.specs.Postfix.{list_on};
ghost use Rattle.lua_parser_state.specs.Order.{callee_on, table_on, Stands, Answers};

use lua_ast::{AstText, Fields, Ids, Literal, Node, NodeId};
use lua_lexer::{TokenKind, text_value};
use lua_parser_state::{BegunTable, Callee, Parser, Purpose, Refusal, State};
use std::alloc::AllocError;

/// Adds the node of a call with these arguments.
pub fn call(parser: &mut Parser, limit: u8, callee: Callee, args: Ids) -> Result<State, AllocError>
    requires callee { CalleeBelow (length parser.old.nodes) callee }
    requires args { AllBelow (length parser.old.nodes) args }
    ensures state { IfOk result (λ s. state_in parser.new.nodes (stack_in parser.new) s
        ≡ Have limit (call_of (callee_in parser.old.nodes callee) (list_of (tree_in parser.old.nodes) args)) (stack_in parser.old)) }
    ensures below { IfOk result (λ s. StateBelow (length parser.new.nodes) s) }
    ensures order { Stands (λ below. list_on args (callee_on callee below)) parser.old → Answers result parser.new }
{
    match callee {
        Callee::Function { function } => {
            let line = parser.line(function);
            Ok(parser.give(limit, Node::Call { function, args }, line)?)
        }
        Callee::Method { object, name } => {
            let line = parser.line(object);
            Ok(parser.give(limit, Node::Method { object, name, args }, line)?)
        }
    }
}

/// Adds the node of a call with one argument.
#[tactic(auto, using(lua_parser_state::proofs::Lists::one_of))]
pub fn call_with(
    parser: &mut Parser,
    limit: u8,
    callee: Callee,
    arg: NodeId,
) -> Result<State, AllocError>
    requires callee { CalleeBelow (length parser.old.nodes) callee }
    requires arg { arg < length parser.old.nodes }
    ensures state { IfOk result (λ s. state_in parser.new.nodes (stack_in parser.new) s
        ≡ Have limit (call_of (callee_in parser.old.nodes callee) (snoc none (tree_in parser.old.nodes arg))) (stack_in parser.old)) }
    ensures below { IfOk result (λ s. StateBelow (length parser.new.nodes) s) }
    ensures order { Stands (λ below. arg ∷ callee_on callee below) parser.old → Answers result parser.new }
{
    let mut args = Ids::new(parser.alloc());
    args.push(arg)?;
    Ok(call(parser, limit, callee, args)?)
}

/// Adds the nodes of a text and of the call whose argument it is.
#[tactic(auto, unfolding(lua_grammar::specs::Values::text_of), using(lua_parser_state::proofs::Nodes::below_callee))]
fn call_with_text(
    parser: &mut Parser,
    limit: u8,
    callee: Callee,
    line: u32,
    slice: &[u8],
) -> Result<State, Refusal>
    requires { CalleeBelow (length parser.old.nodes) callee }
    ensures gave { Gave
        (args_begin limit (callee_in parser.old.nodes callee) (stack_in parser.old) (token Text) (attributes true line slice.now))
        (args_begin limit (callee_in parser.old.nodes callee) (stack_in parser.old) (token Text) (attributes false line slice.now))
        result parser.new }
    ensures order { Stands (λ below. callee_on callee below) parser.old → Answers result parser.new }
{
    let bytes = text_value(parser.alloc(), slice)?;
    let value = Literal::Text(AstText::from_vec(bytes));
    let arg = parser.add(Node::Const { value }, line)?;
    Ok(call_with(parser, limit, callee, arg)?)
}

/// Reads the first token of arguments.
#[tactic(auto, unfolding(lua_ast::specs::Decode::fields_of))]
pub fn args_begin(
    parser: &mut Parser,
    limit: u8,
    callee: Callee,
    kind: TokenKind,
    line: u32,
    slice: &[u8],
) -> Result<State, Refusal>
    requires { CalleeBelow (length parser.old.nodes) callee }
    ensures gave { Gave
        (args_begin limit (callee_in parser.old.nodes callee) (stack_in parser.old) (token kind) (attributes true line slice.now))
        (args_begin limit (callee_in parser.old.nodes callee) (stack_in parser.old) (token kind) (attributes false line slice.now))
        result parser.new }
    ensures order { Stands (λ below. callee_on callee below) parser.old → Answers result parser.new }
{
    match kind {
        TokenKind::OpenParen => parser.deepen(State::ArgsOpen { limit, callee }),
        TokenKind::OpenBrace => {
            let table = BegunTable {
                purpose: Purpose::Argument { limit, callee },
                line,
                fields: Fields::new(parser.alloc()),
            };
            parser.deepen(State::FieldNext { table })
        }
        TokenKind::Text => call_with_text(parser, limit, callee, line, slice),
        _ => Err(Refusal::Unexpected),
    }
}

/// Adds the node of a table constructor, and that of the call whose argument it is.
#[tactic(auto, using(lua_parser_state::proofs::Nodes::below_callee))]
pub fn finish_table(parser: &mut Parser, table: BegunTable) -> Result<State, AllocError>
    requires { TableBelow (length parser.old.nodes) table }
    ensures state { IfOk result (λ s. state_in parser.new.nodes (stack_in parser.new) s
        ≡ made (purpose_in parser.old.nodes table.purpose) (Table 0 table.line (fields_of (tree_in parser.old.nodes) table.fields)) (stack_in parser.old)) }
    ensures below { IfOk result (λ s. StateBelow (length parser.new.nodes) s) }
    ensures order { Stands (λ below. table_on table below) parser.old → Answers result parser.new }
{
    let BegunTable {
        purpose,
        line,
        fields,
    } = table;
    let node = parser.add(Node::Table { fields }, line)?;
    match purpose {
        Purpose::Value { limit } => Ok(State::Have { limit, node }),
        Purpose::Argument { limit, callee } => Ok(call_with(parser, limit, callee, node)?),
    }
}

/// Reads the token behind a field, which is among those of its table already.
pub fn field_done(parser: &mut Parser, table: BegunTable, kind: TokenKind) -> Result<State, Refusal>
    requires { TableBelow (length parser.old.nodes) table }
    ensures gave { Gave
        (field_done (purpose_in parser.old.nodes table.purpose) table.line (fields_of (tree_in parser.old.nodes) table.fields) (stack_in parser.old) (token kind))
        (field_done (purpose_in parser.old.nodes table.purpose) table.line (fields_of (tree_in parser.old.nodes) table.fields) (stack_in parser.old) (token kind))
        result parser.new }
    ensures order { Stands (λ below. table_on table below) parser.old → Answers result parser.new }
{
    match kind {
        TokenKind::Comma | TokenKind::Semicolon => Ok(State::FieldNext { table }),
        TokenKind::CloseBrace => Ok(finish_table(parser, table)?),
        _ => Err(Refusal::Unexpected),
    }
}
