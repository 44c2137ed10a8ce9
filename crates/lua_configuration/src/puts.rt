//! Values put into tables, without metamethods.

ghost use Rattle.std.specs.Prelude.{◌≡◌, ◌<◌, ◌^◌, ◌∷◌, ℕ, List, pos, length, All, IfOk, IfSome};
ghost use Rattle.lua_meaning.specs.declared.value.Value.TheVariants as lua;
ghost use Rattle.lua_values.specs.Ids.{ids_of, IsOf, AreLater};
ghost use Rattle.lua_steps.specs.Configuration.{with_heap};
ghost use Rattle.lua_steps.specs.Effects.{put_in, putting, put_all};

use crate::configuration::Configuration;
use lua_meaning::TableId;
use lua_steps::Mode;
use lua_values::{HeapFault, Value, ValueList};
use std::sync::ledger::Ledger;
use zc_budget::Steps;
use zc_io::NoMemory;

/// How putting values in turn ended: the number behind the last that was put, and the fault that
/// ended it.
#[derive(Drop)]
pub struct Put {
    pub count: u64,
    pub fault: Option<Mode>,
}

/// A place as a number of Lua, where it has 64 bits.
fn whole_number(place: u64) -> Option<Value>
    ensures value { IfSome result (λ v. v ≡ lua.Int (pos place)) }
    ensures small { IfSome result (λ _. place < 2 ^ 63) }
{
    if place > i64::MAX as u64 {
        return None;
    }
    Some(Value::Int(place as i64))
}

impl Configuration {
    /// Puts a value at a key of a table. It answers how that ended where nothing was put.
    pub fn put_in<L: Ledger>(
        &mut self,
        line: u32,
        table: TableId,
        key: Value,
        value: Value,
        steps: &mut Steps<L>,
    ) -> Result<Option<Mode>, NoMemory>
        requires table { table < length self.old.heap.tables }
        requires key { IsOf (ids_of self.old.heap) key }
        requires value { IsOf (ids_of self.old.heap) value }
        ensures told { (rest : List ℕ) → IfOk result (λ fault. fault ≡ (put_in (line ∷ rest) table key value self.old.heap).0) }
        ensures heap { (rest : List ℕ) → IfOk result (λ _. self.new ≡ with_heap (put_in (line ∷ rest) table key value self.old.heap).1 self.old) }
        ensures keeps { IfOk result (λ _. AreLater (ids_of self.old.heap) (ids_of self.new.heap)) }
    {
        match self.heap.set(table, key, value, steps) {
            Ok(()) => Ok(None),
            Err(HeapFault::NilKey) => Ok(Some(self.fail(&[line], b"table index is nil", steps)?)),
            Err(HeapFault::Stop(stop)) => Ok(Some(Mode::Stopped(stop))),
            Err(_) => Err(NoMemory),
        }
    }

    /// Puts a value at a key of a table, and goes on where it is put.
    pub fn put<L: Ledger>(
        &mut self,
        line: u32,
        table: TableId,
        key: Value,
        value: Value,
        mode: Mode,
        steps: &mut Steps<L>,
    ) -> Result<Mode, NoMemory>
        requires table { table < length self.old.heap.tables }
        requires key { IsOf (ids_of self.old.heap) key }
        requires value { IsOf (ids_of self.old.heap) value }
        ensures { (rest : List ℕ) → IfOk result (λ m. (m, self.new) ≡ putting (put_in (line ∷ rest) table key value self.old.heap) mode self.old) }
    {
        match self.put_in(line, table, key, value, steps)? {
            Some(fault) => Ok(fault),
            None => Ok(mode),
        }
    }

    /// Puts a value at a whole number. There is no memory for 2^63 values.
    fn put_item<L: Ledger>(
        &mut self,
        line: u32,
        table: TableId,
        place: u64,
        value: Value,
        steps: &mut Steps<L>,
    ) -> Result<Option<Mode>, NoMemory>
        requires table { table < length self.old.heap.tables }
        requires value { IsOf (ids_of self.old.heap) value }
        ensures told { (rest : List ℕ) → IfOk result (λ fault. fault ≡ (put_in (line ∷ rest) table (lua.Int (pos place)) value self.old.heap).0) }
        ensures heap { (rest : List ℕ) → IfOk result (λ _. self.new ≡ with_heap (put_in (line ∷ rest) table (lua.Int (pos place)) value self.old.heap).1 self.old) }
        ensures keeps { IfOk result (λ _. AreLater (ids_of self.old.heap) (ids_of self.new.heap)) }
        ensures small { IfOk result (λ _. place < 2 ^ 63) }
    {
        let Some(key) = whole_number(place) else {
            return Err(NoMemory);
        };
        self.put_in(line, table, key, value, steps)
    }

    /// Puts values at whole numbers in turn, from this one on. There is no memory for 2^63 values.
    #[tactic(auto, using(lua_steps::proofs::OwnGiven::first_own))]
    pub fn put_all<L: Ledger>(
        &mut self,
        line: u32,
        table: TableId,
        first: u64,
        values: ValueList,
        steps: &mut Steps<L>,
    ) -> Result<Put, NoMemory>
        requires table { table < length self.old.heap.tables }
        requires values { All (IsOf (ids_of self.old.heap)) values }
        ensures fault { (rest : List ℕ) → IfOk result (λ put. put.fault ≡ (put_all (line ∷ rest) table first values self.old.heap).fault) }
        ensures count { (rest : List ℕ) → IfOk result (λ put. put.count ≡ (put_all (line ∷ rest) table first values self.old.heap).count) }
        ensures after { (rest : List ℕ) → IfOk result (λ _. self.new ≡ with_heap (put_all (line ∷ rest) table first values self.old.heap).heap self.old) }
    {
        let mut count = first;
        let mut values = values;
        while !values.is_empty() {
            let value = values.take_first();
            let fault = self.put_item(line, table, count, value, steps)?;
            if fault.is_some() {
                return Ok(Put { count, fault });
            }
            count += 1;
        }
        Ok(Put { count, fault: None })
    }
}
