//! The constants of a text, which are made once a run (Lua 5.2 manual, 3.1 and 3.4).

ghost use Rattle.std.specs.Prelude.{◌≡◌, IfOk, slice_get};
ghost use Rattle.lua_meaning.specs.declared.value.Value.TheVariants as lua;
ghost use Rattle.lua_meaning.specs.Values.{of_literal, or_nil};
ghost use Rattle.lua_steps.specs.Parts.{of_part};
ghost use Rattle.lua_frames.specs.NodeConstants.{constant_in, constants_of};

use lua_ast::{Chunk, Literal, Node, NodeId};
use lua_meaning::LuaText;
use lua_transitions::parts;
use lua_values::{Value, ValueList};
use std::alloc::Global;
use std::marker::Model;
use zc_io::NoMemory;

/// The constants of a text by its nodes. A text that is worked out again and again is not copied:
/// its values share their bytes.
#[derive(Drop)]
pub struct Constants {
    values: ValueList,
}

impl Model for Constants {
    ghost use Rattle.std.specs.Prelude.{List};
    ghost use Rattle.lua_meaning.specs.declared.value.Value.{Value as ValueOf};

    ghost Value = { List ValueOf };

    ghost view = { λ c. c.values };
}

/// The value of a literal.
fn literal_value(alloc: Global, literal: &Literal) -> Result<Value, NoMemory>
    ensures { IfOk result (λ v. v ≡ of_literal literal.now) }
{
    match literal {
        Literal::Nil => Ok(Value::Nil),
        Literal::Bool(truth) => Ok(Value::Bool(*truth)),
        Literal::Int(number) => Ok(Value::Int(*number)),
        Literal::Text(text) => Ok(Value::Text(LuaText::from_slice(alloc, text.as_slice())?)),
    }
}

/// The constant of a node; nil where it is none.
fn constant_at(alloc: Global, chunk: &Chunk, node: NodeId) -> Result<Value, NoMemory>
    ensures { IfOk result (λ v. v ≡ of_part chunk.now.nodes lua.Nil constant_in node) }
{
    match parts::node_at(chunk, node) {
        Some(Node::Const { value }) => literal_value(alloc, value),
        _ => Ok(Value::Nil),
    }
}

impl Constants {
    /// The constants of a text.
    #[tactic(auto, using(crate::proofs::NodeConstants::one_more, crate::proofs::NodeConstants::all_taken))]
    pub fn new(alloc: Global, chunk: &Chunk) -> Result<Constants, NoMemory>
        ensures { IfOk result (λ c. c ≡ constants_of chunk.now.nodes) }
    {
        let mut values = ValueList::new(alloc);
        for number in 0..chunk.len() as u32 {
            values.push(constant_at(alloc, chunk, NodeId::new(number))?)?;
        }
        Ok(Constants { values })
    }

    /// The constant of a node.
    pub(crate) fn value(&self, node: NodeId) -> Result<Value, NoMemory>
        ensures { IfOk result (λ v. v ≡ or_nil (slice_get self.now node)) }
    {
        match self.values.get(node.index()) {
            Some(value) => Ok(value.clone()?),
            None => Ok(Value::Nil),
        }
    }
}
