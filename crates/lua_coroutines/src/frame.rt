//! Frames: what a program has still to do when what is at work now has ended.
//!
//! Nodes are named by number; `next` is the place of the next of a node's parts.

use crate::call::{CallInProgress, Lines};
use crate::targets::Targets;
use lua_ast::{BinOp, NodeId};
use lua_meaning::{After, TableId, Value};
use lua_values::ValueList;

/// What is to be gone on with.
#[derive(Drop)]
pub enum Frame {
    /// A block, or the body of a function.
    Body(BodyFrame),
    /// `local names = exps`, with the values so far.
    Locals {
        node: NodeId,
        next: usize,
        values: ValueList,
    },
    /// An assignment.
    Assign(AssignFrame),
    /// A call whose function is being worked out.
    Callee(CalleeFrame),
    /// A call whose arguments are being worked out, with those so far.
    Args {
        node: NodeId,
        next: usize,
        function: Value,
        values: ValueList,
    },
    /// `if`, at the test of this place.
    If {
        node: NodeId,
        test: usize,
    },
    /// `while`
    While(WhileFrame),
    /// `repeat`
    Repeat(RepeatFrame),
    /// A numeric `for`.
    Count(CountFrame),
    /// A generic `for`.
    Each(EachFrame),
    /// A table constructor.
    Table(TableFrame),
    /// An operator, an index or parentheses.
    Operand(OperandFrame),
    /// `return`, with the values so far.
    Return {
        node: NodeId,
        next: usize,
        values: ValueList,
    },
    /// A built-in that waits.
    Native(NativeFrame),
}

/// A block, or the body of a function. `outer` locals were in scope where the block began.
#[derive(Drop)]
pub enum BodyFrame {
    /// The statements of a block.
    Statements {
        block: NodeId,
        next: usize,
        outer: usize,
    },
    /// The statements of the block of a `repeat`, whose locals its condition sees.
    Open {
        block: NodeId,
        next: usize,
        outer: usize,
    },
    /// The end of a function's body: the call that made it goes on.
    Caller {
        call: CallInProgress,
    },
}

/// An assignment (Lua 5.2 manual, 3.3.3).
#[derive(Drop)]
pub enum AssignFrame {
    /// The object of a target, which is an index.
    Object {
        node: NodeId,
        next: usize,
        index: NodeId,
        targets: Targets,
    },
    /// The key of a target.
    Key {
        node: NodeId,
        next: usize,
        targets: Targets,
        object: Value,
    },
    /// The values.
    Values {
        node: NodeId,
        next: usize,
        targets: Targets,
        values: ValueList,
    },
    /// The stores that are left.
    Stores {
        node: NodeId,
        targets: Targets,
        values: ValueList,
    },
    /// `local function`: the function.
    Function {
        node: NodeId,
    },
}

/// What is to be called (Lua 5.2 manual, 3.4.9).
#[derive(Drop)]
pub enum CalleeFrame {
    /// `function(args)`: the function.
    Function { node: NodeId },
    /// `object:name(args)`: the object.
    Receiver { node: NodeId },
    /// `object:name(args)`: what stands at the name.
    Method { node: NodeId, receiver: Value },
}

/// A `while` loop. `outer` locals were in scope where it began.
#[derive(Drop)]
pub enum WhileFrame {
    Test { node: NodeId, outer: usize },
    Turn { node: NodeId, outer: usize },
}

/// A `repeat` loop. `outer` locals were in scope where it began, and `before` where its turn began.
#[derive(Drop)]
pub enum RepeatFrame {
    Turn {
        node: NodeId,
        outer: usize,
        before: usize,
    },
    Test {
        node: NodeId,
        outer: usize,
        before: usize,
    },
}

/// A numeric `for` (Lua 5.2 manual, 3.3.5).
#[derive(Drop)]
pub enum CountFrame {
    First {
        node: NodeId,
    },
    Limit {
        node: NodeId,
        first: Value,
    },
    Step {
        node: NodeId,
        first: Value,
        limit: Value,
    },
    /// The block, for the number `at`.
    Turn {
        node: NodeId,
        at: i64,
        limit: i64,
        step: i64,
        outer: usize,
        before: usize,
    },
}

/// A generic `for` (Lua 5.2 manual, 3.3.5).
#[derive(Drop)]
pub enum EachFrame {
    /// The iterator function, the state and the first control value.
    Values {
        node: NodeId,
        next: usize,
        values: ValueList,
    },
    /// The call of the iterator function.
    Next {
        node: NodeId,
        function: Value,
        state: Value,
        outer: usize,
    },
    /// The block.
    Turn {
        node: NodeId,
        function: Value,
        state: Value,
        control: Value,
        outer: usize,
        before: usize,
    },
}

/// A table constructor (Lua 5.2 manual, 3.4.8). `count` is the next whole number.
#[derive(Drop)]
pub enum TableFrame {
    /// The value of a field without a key.
    Item {
        node: NodeId,
        next: usize,
        table: TableId,
        count: u64,
    },
    /// The key of a field whose value is at this node.
    Key {
        node: NodeId,
        next: usize,
        table: TableId,
        count: u64,
        value: NodeId,
    },
    /// The value at a key.
    Entry {
        node: NodeId,
        next: usize,
        table: TableId,
        count: u64,
        key: Value,
    },
}

/// What works out a value from parts.
#[derive(Drop)]
pub enum OperandFrame {
    /// The left operand of a binary operator.
    Left { node: NodeId },
    /// The right one.
    Right { node: NodeId, left: Value },
    /// The left operand of `and` or `or`.
    Logic { node: NodeId },
    /// The operand of a unary operator.
    One { node: NodeId },
    /// What gives its first value alone.
    Only,
    /// The object of an index.
    Object { node: NodeId },
    /// The key of an index.
    Key { node: NodeId, object: Value },
    /// A metamethod that takes the place of an operator; of a binary one `op` tells which.
    Metamethod { op: Option<BinOp>, negated: bool },
}

/// A built-in that waits.
#[derive(Drop)]
pub enum NativeFrame {
    /// For a function that it called.
    Waits {
        after: After,
        lines: Lines,
        caller: CallInProgress,
    },
    /// For its coroutine to be resumed.
    Yields {
        lines: Lines,
        caller: CallInProgress,
    },
    /// For the coroutine that it resumed.
    Resumes {
        wrapped: bool,
        lines: Lines,
        caller: CallInProgress,
        below: u32,
    },
}
