//! What a machine does next.

use lua_ast::NodeId;
use lua_coroutines::{Lines, Targets};
use lua_meaning::{After, TableId, Value};
use lua_values::ValueList;
use zc_budget::Stop;

/// What a machine does next, above its frames.
#[derive(Drop)]
pub enum Mode {
    /// It begins a node.
    Begin(NodeId),
    /// It hands values to the top frame.
    Give(ValueList),
    /// It returns values from the function at work.
    Leave(ValueList),
    /// It leaves the innermost loop.
    Break,
    /// It looks for the label of this `goto`.
    Jump {
        goto: NodeId,
    },
    /// It raises an error.
    Raise(Value),
    /// A limit was reached.
    Stopped(Stop),
    /// It declares the names of a `local`, with these values.
    Declare {
        node: NodeId,
        values: ValueList,
    },
    /// It works out what an assignment stores to, from the target at `next` on.
    Targets {
        node: NodeId,
        next: usize,
        targets: Targets,
    },
    /// It stores the values of an assignment.
    Stores {
        node: NodeId,
        targets: Targets,
        values: ValueList,
    },
    /// It goes on with a table constructor, from the field at `next` on; `count` is the next whole
    /// number.
    Fields {
        node: NodeId,
        next: usize,
        table: TableId,
        count: u64,
    },
    /// It puts the values of a field without a key, from the number `count` on.
    Items {
        node: NodeId,
        next: usize,
        table: TableId,
        count: u64,
        values: ValueList,
    },
    /// It puts the value of a field at its key.
    Entry {
        node: NodeId,
        next: usize,
        table: TableId,
        count: u64,
        key: Value,
        value: Value,
    },
    /// It works out a binary operator.
    Binary {
        node: NodeId,
        left: Value,
        right: Value,
    },
    /// It works out a unary operator.
    Unary {
        node: NodeId,
        operand: Value,
    },
    /// It looks `object[key]` up.
    Look {
        node: NodeId,
        object: Value,
        key: Value,
    },
    /// It puts a value at `object[key]`.
    Put {
        node: NodeId,
        object: Value,
        key: Value,
        value: Value,
    },
    /// It begins a turn of a `while`. `outer` locals were in scope where the loop began.
    Turn {
        node: NodeId,
        outer: usize,
    },
    /// It begins a turn of a `repeat`.
    Round {
        node: NodeId,
        outer: usize,
    },
    /// It begins the block of a `repeat`.
    Open(NodeId),
    /// It begins a numeric `for`.
    Start {
        node: NodeId,
        first: Value,
        limit: Value,
        step: Value,
    },
    /// It begins the turn of a numeric `for` with the number `at`, if there is one.
    Count {
        node: NodeId,
        at: i64,
        limit: i64,
        step: i64,
        outer: usize,
    },
    /// It calls the iterator function of a generic `for`.
    Next {
        node: NodeId,
        function: Value,
        state: Value,
        control: Value,
        outer: usize,
    },
    /// It begins a turn of a generic `for` with what the iterator function gave.
    Each {
        node: NodeId,
        function: Value,
        state: Value,
        outer: usize,
        values: ValueList,
    },
    /// It ends a `return` with these values.
    Return {
        node: NodeId,
        values: ValueList,
    },
    /// It makes the call of a node.
    Apply {
        node: NodeId,
        function: Value,
        args: ValueList,
    },
    /// It calls a function, where `is_own` as a coroutine's own.
    Call {
        function: Value,
        args: ValueList,
        lines: Lines,
        is_own: bool,
    },
    /// It hands on what a built-in gives.
    Results {
        lines: Lines,
        values: ValueList,
    },
    /// A built-in makes its answer of what the function gave that it called.
    Made {
        after: After,
        lines: Lines,
        values: ValueList,
    },
}
