//! What may come next.

use crate::frame::{Begun, BegunTable, Callee, Head};
use lua_ast::{AstText, AstTexts, Ids, NodeId};

/// What a name is to come for.
#[derive(Drop)]
pub enum Naming {
    ForField {
        limit: u8,
        object: NodeId,
    },
    ForMethod {
        limit: u8,
        object: NodeId,
    },
    ForLabel {
        line: u32,
        block: Begun,
    },
    ForGoto {
        line: u32,
        block: Begun,
    },
    ForVariable {
        line: u32,
        block: Begun,
    },
    ForVariables {
        line: u32,
        names: AstTexts,
        block: Begun,
    },
    ForFunction {
        line: u32,
        block: Begun,
    },
    ForFunctionField {
        line: u32,
        path: NodeId,
        block: Begun,
    },
    ForFunctionMethod {
        line: u32,
        path: NodeId,
        block: Begun,
    },
    ForLocalFunction {
        line: u32,
        own: u32,
        block: Begun,
    },
    ForLocal {
        line: u32,
        names: AstTexts,
        block: Begun,
    },
}

/// What may come next.
#[derive(Drop)]
pub enum State {
    /// An expression of at least this level; at 10 a prefix.
    Need {
        limit: u8,
    },
    /// An expression was read, which may go on.
    Have {
        limit: u8,
        node: NodeId,
    },
    /// A name.
    NameNext {
        naming: Naming,
    },
    /// Arguments.
    ArgsNext {
        limit: u8,
        callee: Callee,
    },
    /// The first argument, or `)`.
    ArgsOpen {
        limit: u8,
        callee: Callee,
    },
    /// A field, or `}`.
    FieldNext {
        table: BegunTable,
    },
    /// What follows a name that begins a field and stands on the line `own`.
    FieldName {
        table: BegunTable,
        own: u32,
        name: AstText,
    },
    /// The `=` behind a key.
    KeyEnd {
        table: BegunTable,
        key: NodeId,
    },
    /// The first token of a block, or the end of one without statements.
    BlockNext,
    /// A statement, or the end of the block.
    StatNext {
        block: Begun,
    },
    /// The second `::` of a label.
    LabelEnd {
        line: u32,
        name: AstText,
        block: Begun,
    },
    /// What follows `local`.
    LocalNext {
        line: u32,
        block: Begun,
    },
    /// What follows a name of a `local`.
    LocalNames {
        line: u32,
        names: AstTexts,
        block: Begun,
    },
    /// What follows the first name of a `for`.
    LoopName {
        line: u32,
        name: AstText,
        block: Begun,
    },
    /// What follows a further name of a `for`.
    LoopNames {
        line: u32,
        names: AstTexts,
        block: Begun,
    },
    /// What follows a name of `function a.b`.
    PathNext {
        line: u32,
        path: NodeId,
        block: Begun,
    },
    /// The `(` of a function.
    BodyNext {
        head: Head,
    },
    /// The first parameter, or `)`.
    ParamFirst {
        head: Head,
    },
    /// A parameter behind a comma.
    ParamNext {
        head: Head,
        params: Vec<AstText>,
    },
    /// What follows a parameter.
    ParamNames {
        head: Head,
        params: Vec<AstText>,
    },
    /// The `)` behind `...`.
    ParamsEnd {
        head: Head,
        params: Vec<AstText>,
    },
    /// A further target of an assignment.
    TargetNext {
        line: u32,
        targets: Ids,
        block: Begun,
    },
    /// What follows `return`.
    ReturnNext {
        line: u32,
        block: Begun,
    },
    /// The end of a block.
    BlockEnd {
        block: Begun,
    },
    /// The text is over.
    Done {
        root: NodeId,
    },
}
