//! A variable in scope, and a scope that is open.

use crate::occurrence::ScopeKind;
use lua_ast::AstText;

/// A variable in scope.
#[derive(Debug, Drop)]
pub(crate) struct Variable {
    pub name: AstText,
    /// Its number among the variables of the text.
    pub number: u32,
}

/// A variable in scope, and what its name meant where it came into scope.
#[derive(Debug, Drop)]
pub(crate) struct Entered {
    pub variable: Variable,
    /// The number of the variable that it hides, if it hides one.
    pub hidden: Option<u32>,
}

/// A scope that is open.
#[derive(Debug, Drop)]
pub(crate) struct Frame {
    pub kind: ScopeKind,
    /// How many variables were in scope where it opened.
    pub begins: usize,
}
