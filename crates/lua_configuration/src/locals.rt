//! Locals of the call in progress (Lua 5.2 manual, 3.2 and 3.5).

ghost use Rattle.std.specs.Prelude.{◌≡◌, ◌<◌, length, IfOk};
ghost use Rattle.std.specs.Option.{option_copied};
ghost use Rattle.lua_meaning.specs.Heap.{set_cell};
ghost use Rattle.lua_meaning.specs.Locals.{slot_of};
ghost use Rattle.lua_values.specs.Ids.{ids_of, IsOf, AreLater};
ghost use Rattle.lua_steps.specs.Configuration.{with_heap, with_locals};
ghost use Rattle.lua_steps.specs.Effects.{Declared, declared_by};
ghost use Rattle.lua_steps.specs.Machine.{slot_value, name_value, name_target};
ghost use Rattle.lua_steps.specs.Own.{IsOwnCall};
ghost use Rattle.lua_meaning.specs.Nodes.{slot_target};

use crate::configuration::Configuration;
use lua_meaning::{CellId, LuaText, Slot, Target};
use lua_values::{HeapFault, Value};
use std::sync::ledger::Ledger;
use zc_budget::Steps;
use zc_io::NoMemory;

/// What an assignment to a variable stores to.
pub(crate) fn slot_target(variable: u32, slot: Option<&Slot>) -> Target
    ensures { result ≡ slot_target variable (option_copied slot.entry) }
{
    match slot {
        Some(Slot::Cell(cell)) => Target::Cell(*cell),
        _ => Target::Local(variable),
    }
}

impl Configuration {
    /// One local more, with this value; a captured one costs memory. It answers whether there was
    /// memory for it within the limit.
    pub fn declare<L: Ledger>(
        &mut self,
        captured: bool,
        variable: u32,
        value: Value,
        steps: &mut Steps<L>,
    ) -> Result<bool, NoMemory>
        requires { IsOf (ids_of self.old.heap) value }
        ensures told { IfOk result (λ done. done ≡ (declared_by captured variable value self.old.heap self.old.call.locals).done) }
        ensures heap { IfOk result (λ _. self.new ≡ with_heap (declared_by captured variable value self.old.heap self.old.call.locals).heap
            (with_locals (declared_by captured variable value self.old.heap self.old.call.locals).locals self.old)) }
        ensures keeps { AreLater (ids_of self.old.heap) (ids_of self.new.heap) }
    {
        if !captured {
            self.call.declare(variable, Slot::Held(value))?;
            return Ok(true);
        }
        match self.heap.new_cell(value, steps) {
            Ok(cell) => {
                self.call.declare(variable, Slot::Cell(cell))?;
                Ok(true)
            }
            Err(HeapFault::Stop(_)) => Ok(false),
            Err(_) => Err(NoMemory),
        }
    }

    /// The value of a local.
    pub fn local_value<L: Ledger>(
        &self,
        variable: u32,
        steps: &mut Steps<L>,
    ) -> Result<Value, NoMemory>
        requires { IsOwnCall (ids_of self.now.heap) self.now.call }
        ensures { IfOk result (λ v. v ≡ slot_value (slot_of self.now.call.locals variable) self.now.heap) }
    {
        match self.call.slot(variable) {
            Some(Slot::Held(value)) => Ok(value.clone()?),
            Some(Slot::Cell(cell)) => self.heap.cell(*cell, steps),
            None => Ok(Value::Nil),
        }
    }

    /// What a name stands for: a local, or a field of the table of globals (Lua 5.2 manual, 3.2).
    pub fn name_value<L: Ledger>(
        &self,
        variable: Option<u32>,
        name: &[u8],
        steps: &mut Steps<L>,
    ) -> Result<Value, NoMemory>
        requires { IsOwnCall (ids_of self.now.heap) self.now.call }
        ensures { IfOk result (λ v. v ≡ name_value variable name.now self.now) }
    {
        let Some(variable) = variable else {
            let key = Value::Text(LuaText::from_slice(self.heap.alloc(), name)?);
            return self.heap.get(self.heap.globals(), &key, steps);
        };
        self.local_value(variable, steps)
    }

    /// What an assignment to a local stores to (Lua 5.2 manual, 3.3.3).
    pub fn local_target(&self, variable: u32) -> Target
        ensures { result ≡ slot_target variable (slot_of self.now.call.locals variable) }
    {
        slot_target(variable, self.call.slot(variable))
    }

    /// What an assignment to a name stores to (Lua 5.2 manual, 3.3.3).
    pub fn name_target(&self, variable: Option<u32>, name: &[u8]) -> Result<Target, NoMemory>
        ensures { IfOk result (λ t. t ≡ name_target variable name.now self.now.call.locals) }
    {
        match variable {
            None => Ok(Target::Global(LuaText::from_slice(self.heap.alloc(), name)?)),
            Some(variable) => Ok(self.local_target(variable)),
        }
    }

    /// Another value in a shared variable.
    pub fn set_cell<L: Ledger>(&mut self, cell: CellId, value: Value, steps: &mut Steps<L>)
        requires cell { cell < length self.old.heap.cells }
        requires own { IsOf (ids_of self.old.heap) value }
        ensures { self.new ≡ with_heap (set_cell self.old.heap cell value) self.old }
    {
        self.heap.set_cell(cell, value, steps);
    }
}
