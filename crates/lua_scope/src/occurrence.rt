//! What the scope rules see of a text, in text order.

use crate::labels::BlockLabels;
use lua_ast::{AstText, AstTexts, NodeId};

/// A label of a block.
#[derive(Debug, Drop)]
pub(crate) struct Label {
    pub name: AstText,
    /// How many locals its block has declared before it.
    pub locals: usize,
}

/// What a scope is.
#[derive(Debug, Drop)]
pub(crate) enum ScopeKind {
    /// A block, with its labels. Statements other than labels follow the first `inside` of them;
    /// the others lie outside the block's locals.
    Block { labels: BlockLabels, inside: usize },
    /// A loop's turns, around its block.
    Loop,
    /// A function, around its parameters and its block.
    Function { node: NodeId, vararg: bool },
}

/// What the walk through a text from left to right meets.
#[derive(Debug, Drop)]
pub(crate) enum Occurrence {
    Open { kind: ScopeKind },
    /// The scope that was opened last and is still open ends.
    Close,
    /// The text names this many new variables, in the node that declares them.
    Declare { node: NodeId, count: usize },
    /// The variables that a node has declared come into scope.
    Enter { node: NodeId, names: AstTexts },
    /// A Name node.
    Use { node: NodeId, name: AstText },
    Goto { line: u32, label: AstText },
    /// A label of which an earlier one of its block has the name.
    SecondLabel { line: u32 },
    Break { line: u32 },
    Vararg { line: u32 },
}
