//! What was begun and is not over yet.

use lua_ast::{AstText, AstTexts, BinOp, Fields, Ids, LogicOp, NodeId, UnOp};

/// The statements of a block so far.
#[derive(Drop)]
pub struct Begun {
    /// The line of the block.
    pub line: u32,
    pub stats: Ids,
}

/// A binary operator.
#[derive(Clone, Copy, Drop)]
pub enum Operation {
    /// One that works out a value from both operands.
    Value(BinOp),
    /// `and` or `or`.
    Logic(LogicOp),
}

/// What is called.
#[derive(Drop)]
pub enum Callee {
    Function { function: NodeId },
    Method { object: NodeId, name: AstText },
}

/// What a table constructor is for.
#[derive(Drop)]
pub enum Purpose {
    /// An expression, where this level is wanted.
    Value { limit: u8 },
    /// The argument of a call, where this level is wanted.
    Argument { limit: u8, callee: Callee },
}

/// The fields of a table constructor so far, which begins on this line.
#[derive(Drop)]
pub struct BegunTable {
    pub purpose: Purpose,
    pub line: u32,
    pub fields: Fields,
}

/// A function before its parameters.
#[derive(Drop)]
pub enum Head {
    /// An expression.
    Anonymous {
        limit: u8,
        line: u32,
    },
    /// `function a.b()`, or `function a:b()` with its parameter `self`.
    Assigned {
        line: u32,
        target: NodeId,
        method: bool,
        block: Begun,
    },
    /// `local function name()`, with the line of `local` and that of `function`.
    Local {
        line: u32,
        own: u32,
        name: AstText,
        block: Begun,
    },
}

/// A `for` over numbers, without its block.
#[derive(Drop)]
pub struct NumericFor {
    pub line: u32,
    pub name: AstText,
    pub first: NodeId,
    pub last: NodeId,
    pub step: Option<NodeId>,
    pub block: Begun,
}

/// A `for` over iterators, with its expressions so far and without its block.
#[derive(Drop)]
pub struct GenericFor {
    pub line: u32,
    pub names: AstTexts,
    pub exps: Ids,
    pub block: Begun,
}

/// A statement of which the last part so far is an expression. `block` are the statements before it
/// in its block.
#[derive(Drop)]
pub enum OpenStatement {
    /// `local a, b = ..`
    Local {
        line: u32,
        names: AstTexts,
        exps: Ids,
        block: Begun,
    },
    /// A call, or the first target of an assignment.
    Prefix {
        block: Begun,
    },
    /// A further target of an assignment.
    Target {
        line: u32,
        targets: Ids,
        block: Begun,
    },
    /// `a, b = ..`
    Assign {
        line: u32,
        targets: Ids,
        exps: Ids,
        block: Begun,
    },
    /// `return ..`
    Return {
        line: u32,
        exps: Ids,
        block: Begun,
    },
    /// `repeat .. until ..`
    Until {
        line: u32,
        body: NodeId,
        block: Begun,
    },
}

/// What stands before a block of a statement, where an expression is its last part so far. `block`
/// are the statements before this one in its own block.
#[derive(Drop)]
pub enum OpenHeader {
    /// `while ..`
    While {
        line: u32,
        block: Begun,
    },
    /// `if ..` or `elseif ..`
    If {
        line: u32,
        tests: Ids,
        blocks: Ids,
        block: Begun,
    },
    /// `for i = ..`
    First {
        line: u32,
        name: AstText,
        block: Begun,
    },
    /// `for i = first, ..`
    Last {
        line: u32,
        name: AstText,
        first: NodeId,
        block: Begun,
    },
    /// `for i = first, last, ..`
    Step {
        line: u32,
        name: AstText,
        first: NodeId,
        last: NodeId,
        block: Begun,
    },
    /// `for k, v in ..`
    Iterator(GenericFor),
}

/// What the block that is being read belongs to. `block` are the statements before this one in its
/// own block.
#[derive(Drop)]
pub enum OpenBlock {
    Do {
        line: u32,
        block: Begun,
    },
    While {
        line: u32,
        test: NodeId,
        block: Begun,
    },
    Repeat {
        line: u32,
        block: Begun,
    },
    Then {
        line: u32,
        tests: Ids,
        blocks: Ids,
        test: NodeId,
        block: Begun,
    },
    Else {
        line: u32,
        tests: Ids,
        blocks: Ids,
        block: Begun,
    },
    NumericFor(NumericFor),
    GenericFor(GenericFor),
    Function {
        head: Head,
        params: Vec<AstText>,
        vararg: bool,
    },
}

/// What was begun. `limit` is the least level that is wanted where it stands (Lua 5.2 manual,
/// 3.4.7).
#[derive(Drop)]
pub enum Frame {
    InParen {
        limit: u8,
        line: u32,
    },
    InUnary {
        limit: u8,
        line: u32,
        op: UnOp,
    },
    InBinary {
        limit: u8,
        op: Operation,
        left: NodeId,
    },
    InIndex {
        limit: u8,
        object: NodeId,
    },
    InArgs {
        limit: u8,
        callee: Callee,
        args: Ids,
    },
    InItem {
        table: BegunTable,
    },
    InNamed {
        table: BegunTable,
        name: AstText,
    },
    InKey {
        table: BegunTable,
    },
    InKeyed {
        table: BegunTable,
        key: NodeId,
    },
    InStatement(OpenStatement),
    InHeader(OpenHeader),
    InBlock(OpenBlock),
}
