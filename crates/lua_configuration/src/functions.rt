//! Functions as values, with the variables that they capture (Lua 5.2 manual, 3.4.10 and 3.5).

ghost use Rattle.std.specs.Prelude.{◌≡◌, option_map, IfOk};
ghost use Rattle.lua_meaning.specs.Locals.{slot_of, cell_in, cells_in, captured_locals};
ghost use Rattle.lua_values.specs.Ids.{ids_of};
ghost use Rattle.lua_steps.specs.Machine.{function_made};
ghost use Rattle.lua_steps.specs.Own.{IsOwnCall};

use crate::configuration::Configuration;
use lua_ast::NodeId;
use lua_meaning::{CellId, Slot};
use lua_steps::Mode;
use lua_values::{HeapFault, Value, ValueList};
use std::alloc::Global;
use std::sync::ledger::Ledger;
use zc_budget::Steps;
use zc_io::NoMemory;

/// The locals that a body has from outside: the variables that its function captures, each with
/// its shared variable.
pub fn captured_locals(
    alloc: Global,
    variables: &[u32],
    cells: &[CellId],
) -> Result<Vec<(u32, Slot)>, NoMemory>
    ensures { IfOk result (λ locals. locals.items ≡ captured_locals variables.now cells.now) }
{
    let mut locals = Vec::new(alloc);
    for (variable, cell) in variables.iter().zip(cells) {
        locals.push((*variable, Slot::Cell(*cell)))?;
    }
    Ok(locals)
}

impl Configuration {
    /// The shared variable of a local that some function captures.
    fn cell_of(&self, variable: u32) -> Option<CellId>
        ensures { result ≡ cell_in (slot_of self.now.call.locals variable) }
    {
        match self.call.slot(variable) {
            Some(Slot::Cell(cell)) => Some(*cell),
            _ => None,
        }
    }

    #[tactic(auto, using(crate::proofs::Captured::behind_none, crate::proofs::Captured::behind_more, crate::proofs::Captured::behind_end))]
    /// The shared variables of what a function captures; none where one of them isn't shared.
    fn captured_cells(&self, variables: &[u32]) -> Result<Option<Vec<CellId>>, NoMemory>
        ensures { IfOk result (λ cells. option_map (λ cells. cells.items) cells ≡ cells_in self.now.call.locals variables.now) }
    {
        let mut cells = Vec::new(self.heap.alloc());
        for variable in variables {
            let Some(cell) = self.cell_of(*variable) else {
                return Ok(None);
            };
            cells.push(cell)?;
        }
        Ok(Some(cells))
    }

    /// The function of a node, which captures these variables; nil where one of them isn't shared,
    /// as in no text.
    pub fn make_function<L: Ledger>(
        &mut self,
        node: NodeId,
        variables: &[u32],
        steps: &mut Steps<L>,
    ) -> Result<Mode, NoMemory>
        requires { IsOwnCall (ids_of self.old.heap) self.old.call }
        ensures { IfOk result (λ m. (m, self.new) ≡ function_made node (cells_in self.old.call.locals variables.now) self.old) }
    {
        let alloc = self.heap.alloc();
        let Some(cells) = self.captured_cells(variables)? else {
            return Ok(Mode::Give(ValueList::of_one(alloc, Value::Nil)));
        };
        match self.heap.new_closure(node, cells.as_slice(), steps) {
            Ok(function) => Ok(Mode::Give(ValueList::of_one(alloc, function))),
            Err(HeapFault::Stop(stop)) => Ok(Mode::Stopped(stop)),
            Err(_) => Err(NoMemory),
        }
    }
}
