//! Operators, with metamethods (Lua 5.2 manual, 3.4.1 to 3.4.6).

ghost use Rattle.std.specs.Prelude.{◌≡◌, ◌∷◌, [], Some, None, IfOk};
ghost use Rattle.lua_meaning.specs.Heap.{HeapOf};
ghost use Rattle.lua_meaning.specs.Operators.{OpAnswer, binary_op, unary_op};
ghost use Rattle.lua_values.specs.Ids.{ids_of, IsOf};
ghost use Rattle.lua_ops.specs.Answers.{IsOpAnswer};
ghost use Rattle.lua_steps.specs.Effects.{operating};
ghost use Rattle.lua_steps.specs.Machine.{lines_at};
ghost use Rattle.lua_steps.specs.Parts.{binary_at, unary_at};
ghost use Rattle.lua_configuration.specs.Answers.{IsAnswer};

use crate::configuration::Configuration;
use lua_ast::{BinOp, Chunk, NodeId, UnOp};
use lua_coroutines::{Frame, OperandFrame};
use lua_ops::{ArithOp, CompareOp, OpResult, arith, compare, concat, length};
use lua_steps::Mode;
use lua_transitions::{is_true, parts, told_of};
use lua_values::{Heap, Value, ValueList};
use std::sync::ledger::Ledger;
use zc_budget::Steps;
use zc_io::NoMemory;

/// A binary operator.
fn binary_answer<L: Ledger>(
    heap: &mut Heap,
    op: BinOp,
    left: &Value,
    right: &Value,
    line: u32,
    steps: &mut Steps<L>,
) -> OpResult
    requires left { IsOf (ids_of heap.old) left.now }
    requires right { IsOf (ids_of heap.old) right.now }
    ensures { IsOpAnswer (binary_op op left.now right.now (line ∷ [])) heap.old result heap.new }
{
    let lines = &[line];
    match op {
        BinOp::Add => arith(heap, ArithOp::Add, left, right, lines, steps),
        BinOp::Sub => arith(heap, ArithOp::Sub, left, right, lines, steps),
        BinOp::Mul => arith(heap, ArithOp::Mul, left, right, lines, steps),
        BinOp::Div => arith(heap, ArithOp::Div, left, right, lines, steps),
        BinOp::Mod => arith(heap, ArithOp::Mod, left, right, lines, steps),
        BinOp::Pow => arith(heap, ArithOp::Pow, left, right, lines, steps),
        BinOp::Concat => concat(heap, left, right, lines, steps),
        BinOp::Eq | BinOp::Ne => compare(heap, CompareOp::Equal, left, right, lines, steps),
        BinOp::Less => compare(heap, CompareOp::Less, left, right, lines, steps),
        BinOp::LessEq => compare(heap, CompareOp::LessEqual, left, right, lines, steps),
        BinOp::Greater => compare(heap, CompareOp::Less, right, left, lines, steps),
        BinOp::GreaterEq => compare(heap, CompareOp::LessEqual, right, left, lines, steps),
    }
}

/// A unary operator.
fn unary_answer<L: Ledger>(
    heap: &mut Heap,
    op: UnOp,
    operand: &Value,
    line: u32,
    steps: &mut Steps<L>,
) -> OpResult
    requires { IsOf (ids_of heap.old) operand.now }
    ensures { IsOpAnswer (unary_op op operand.now (line ∷ [])) heap.old result heap.new }
{
    match op {
        UnOp::Neg => arith(heap, ArithOp::Neg, operand, operand, &[line], steps),
        UnOp::Not => OpResult::Done(Value::Bool(!is_true(operand))),
        UnOp::Len => length(heap, operand, &[line], steps),
    }
}

impl Configuration {
    /// What an operator's answer comes to; a metamethod is called after an instruction.
    fn operated(
        &mut self,
        chunk: &Chunk,
        node: NodeId,
        op: Option<BinOp>,
        answer: OpResult,
    ) -> Result<Mode, NoMemory>
        ensures { (a : OpAnswer × HeapOf) → IsAnswer a answer self.old.heap → IfOk result (λ m. (m, self.new) ≡ operating op (lines_at chunk.now.nodes node self.old.call) a self.old) }
    {
        match answer {
            OpResult::Done(value) => {
                let told = told_of(op, false, value);
                Ok(Mode::Give(ValueList::of_one(self.heap.alloc(), told)))
            }
            OpResult::Meta {
                function,
                args,
                negated,
            } => {
                if let Err(stop) = self.tick() {
                    return Ok(Mode::Stopped(stop));
                }
                let lines = self.lines_at(chunk, node)?;
                self.enter(Frame::Operand(OperandFrame::Metamethod { op, negated }))?;
                Ok(Mode::Call {
                    function,
                    args,
                    lines,
                    is_own: false,
                })
            }
            OpResult::Raise(value) => Ok(Mode::Raise(value)),
            OpResult::Stop(stop) => Ok(Mode::Stopped(stop)),
            OpResult::NoMemory => Err(NoMemory),
        }
    }

    /// The binary operator of a node on its operands.
    #[tactic(auto, using(crate::proofs::Operated::binary_is_answer))]
    pub fn binary<L: Ledger>(
        &mut self,
        chunk: &Chunk,
        node: NodeId,
        left: Value,
        right: Value,
        steps: &mut Steps<L>,
    ) -> Result<Mode, NoMemory>
        requires left { IsOf (ids_of self.old.heap) left }
        requires right { IsOf (ids_of self.old.heap) right }
        ensures { IfOk result (λ m. (m, self.new) ≡ operating (Some (binary_at chunk.now.nodes node)) (lines_at chunk.now.nodes node self.old.call)
            (binary_op (binary_at chunk.now.nodes node) left right (lines_at chunk.now.nodes node self.old.call) self.old.heap) self.old) }
    {
        let op = parts::binary_op(chunk, node);
        let line = parts::line_number(chunk, node);
        let answer = binary_answer(&mut self.heap, op, &left, &right, line, steps);
        self.operated(chunk, node, Some(op), answer)
    }

    /// The unary operator of a node on its operand.
    #[tactic(auto, using(crate::proofs::Operated::unary_is_answer))]
    pub fn unary<L: Ledger>(
        &mut self,
        chunk: &Chunk,
        node: NodeId,
        operand: Value,
        steps: &mut Steps<L>,
    ) -> Result<Mode, NoMemory>
        requires { IsOf (ids_of self.old.heap) operand }
        ensures { IfOk result (λ m. (m, self.new) ≡ operating None (lines_at chunk.now.nodes node self.old.call)
            (unary_op (unary_at chunk.now.nodes node) operand (lines_at chunk.now.nodes node self.old.call) self.old.heap) self.old) }
    {
        let op = parts::unary_op(chunk, node);
        let line = parts::line_number(chunk, node);
        let answer = unary_answer(&mut self.heap, op, &operand, line, steps);
        self.operated(chunk, node, None, answer)
    }
}
