//! The nodes of the syntax tree.

ghost use Rattle.std.specs.Prelude.{◌≡◌, ◌<◌, ℕ, Some, length, slice_get};

use crate::sequence::{AstText, AstTexts, Fields, Ids};
use std::marker::Model;

/// The number of a node in its chunk, from 0.
#[derive(Clone, Copy, PartialEq, Eq, Debug, Drop)]
pub struct NodeId(u32);

impl Model for NodeId {
    ghost Value = { ℕ };

    ghost view = { λ id. id.0 };

    ghost inverse = { λ number. record { 0 = number } };
}

impl NodeId {
    /// The node of this number.
    pub fn new(number: u32) -> NodeId
        ensures { result ≡ number }
    {
        NodeId(number)
    }

    /// Its number.
    pub fn number(self) -> u32
        ensures { result ≡ self }
    {
        self.0
    }

    /// Its number, as an index.
    pub fn index(self) -> usize
        ensures { result ≡ self }
    {
        self.0 as usize
    }
}

/// A value that is written out in the text (Lua 5.2 manual, 3.1).
#[derive(Debug, Drop)]
pub enum Literal {
    /// `nil`
    Nil,
    /// `true` or `false`
    Bool(bool),
    /// A numeral. Numbers are whole and of 64 bits here.
    Int(i64),
    /// A quoted text or one in long brackets: its bytes after the escapes.
    Text(AstText),
}

/// A binary operator that works out a value from both operands (Lua 5.2 manual, 3.4.1, 3.4.3
/// and 3.4.5).
#[derive(Clone, Copy, PartialEq, Eq, Debug, Drop)]
pub enum BinOp {
    /// `+`
    Add,
    /// `-`
    Sub,
    /// `*`
    Mul,
    /// `/`
    Div,
    /// `%`
    Mod,
    /// `^`
    Pow,
    /// `..`
    Concat,
    /// `==`
    Eq,
    /// `~=`
    Ne,
    /// `<`
    Less,
    /// `<=`
    LessEq,
    /// `>`
    Greater,
    /// `>=`
    GreaterEq,
}

/// A binary operator that evaluates its second operand only if needed (Lua 5.2 manual, 3.4.4).
#[derive(Clone, Copy, PartialEq, Eq, Debug, Drop)]
pub enum LogicOp {
    /// `and`
    And,
    /// `or`
    Or,
}

/// A unary operator (Lua 5.2 manual, 3.4.1, 3.4.4 and 3.4.6).
#[derive(Clone, Copy, PartialEq, Eq, Debug, Drop)]
pub enum UnOp {
    /// `-`
    Neg,
    /// `not`
    Not,
    /// `#`
    Len,
}

/// A field of a table constructor (Lua 5.2 manual, 3.4.8).
#[derive(Debug, Drop)]
pub enum Field {
    /// `value`, at the next whole number.
    Item { value: NodeId },
    /// `name = value`
    Named { name: AstText, value: NodeId },
    /// `[key] = value`
    Keyed { key: NodeId, value: NodeId },
}

/// A node: a block, a statement or an expression (Lua 5.2 manual, 3.3 and 3.4). Its parts are
/// nodes of lower number in the same chunk.
#[derive(Debug, Drop)]
pub enum Node {
    /// Statements in turn, of a body or of the whole text.
    Block {
        stats: Ids,
    },
    /// `local names = exps`
    Local {
        names: AstTexts,
        exps: Ids,
    },
    /// `targets = exps`; also `function a.b() .. end`.
    Assign {
        targets: Ids,
        exps: Ids,
    },
    /// A call as a statement.
    CallStat {
        call: NodeId,
    },
    /// `do block end`
    Do {
        block: NodeId,
    },
    /// `while test do block end`
    While {
        test: NodeId,
        block: NodeId,
    },
    /// `repeat block until test`
    Repeat {
        block: NodeId,
        test: NodeId,
    },
    /// `if test then block elseif test then block .. else otherwise end`. The first test goes
    /// with the first block, and so on.
    If {
        tests: Ids,
        blocks: Ids,
        otherwise: Option<NodeId>,
    },
    /// `for name = first, limit, step do block end`
    NumFor {
        name: AstText,
        first: NodeId,
        limit: NodeId,
        step: Option<NodeId>,
        block: NodeId,
    },
    /// `for names in exps do block end`
    GenFor {
        names: AstTexts,
        exps: Ids,
        block: NodeId,
    },
    /// `local function name .. end`
    LocalFunction {
        name: AstText,
        function: NodeId,
    },
    /// `return exps`
    Return {
        exps: Ids,
    },
    /// `break`
    Break,
    /// `goto label`
    Goto {
        label: AstText,
    },
    /// `::label::`
    Label {
        label: AstText,
    },
    /// A literal.
    Const {
        value: Literal,
    },
    /// `...`
    Vararg,
    /// `function (params, ...) block end`, where `vararg` tells whether the three dots stand
    /// there. A method's `self` is the first of its parameters.
    Function {
        params: AstTexts,
        vararg: bool,
        block: NodeId,
    },
    /// A variable.
    Name {
        text: AstText,
    },
    /// `object[key]`; in `object.name` the key is a Const.
    Index {
        object: NodeId,
        key: NodeId,
    },
    /// `function(args)`
    Call {
        function: NodeId,
        args: Ids,
    },
    /// `object:name(args)`
    Method {
        object: NodeId,
        name: AstText,
        args: Ids,
    },
    /// `left op right`
    Binary {
        op: BinOp,
        left: NodeId,
        right: NodeId,
    },
    /// `left and right` or `left or right`
    Logic {
        op: LogicOp,
        left: NodeId,
        right: NodeId,
    },
    /// `op operand`
    Unary {
        op: UnOp,
        operand: NodeId,
    },
    /// `(inner)`, which gives one value.
    Paren {
        inner: NodeId,
    },
    /// `{ fields }`
    Table {
        fields: Fields,
    },
}

/// A node with its line.
#[derive(Debug, Drop)]
pub struct LinedNode {
    /// The node.
    pub node: Node,
    /// The line of its first token, from 1.
    pub line: u32,
}

/// The node of this number and its line.
pub(crate) fn lined_node(nodes: &[LinedNode], id: NodeId) -> &LinedNode
    requires { id < length nodes.now }
    ensures { slice_get nodes.now id ≡ Some result.now }
{
    &nodes[id.index()]
}
