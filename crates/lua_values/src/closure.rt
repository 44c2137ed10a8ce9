//! Closures.

ghost use Rattle.std.specs.Prelude.{◌≡◌};

use lua_ast::NodeId;
use lua_meaning::CellId;
use std::marker::Model;

/// A Function node, with the variables that it captures.
#[derive(Drop)]
pub struct Closure {
    function: NodeId,
    cells: Vec<CellId>,
}

impl Model for Closure {
    ghost use Rattle.lua_meaning.specs.Heap.{ClosureOf};

    ghost Value = { ClosureOf };

    ghost view = { λ c. record { function = c.function; cells = c.cells.items } };
}

impl Closure {
    /// The closure of this node over these variables.
    pub fn new(function: NodeId, cells: Vec<CellId>) -> Closure
        ensures { result ≡ record { function = function; cells = cells.items } }
    {
        Closure { function, cells }
    }

    /// Its Function node.
    pub fn function(&self) -> NodeId
        ensures { result ≡ self.now.function }
    {
        self.function
    }

    /// Its captured variables, in the order in which the node captures them.
    pub fn cells(&self) -> &[CellId]
        ensures { result.now ≡ self.now.cells }
    {
        self.cells.as_slice()
    }
}
