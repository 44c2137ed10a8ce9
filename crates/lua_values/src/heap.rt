//! What a program makes, and what it pays for it.

ghost use Rattle.std.specs.Prelude.{◌≡◌, ◌+◌, ◌<◌, true, false, length, All, IfOk, IfErr, IfSome, IsOk, OnOk, OnErr, Some, Err, ◌↔◌, option_map, slice_get, slice_set, pos};
ghost use Rattle.std.specs.Map.Iter.{deref_pair};
ghost use Rattle.std.specs.Borrow.{sem};
ghost use Rattle.zc_budget.specs.Used.{is_over};
ghost use Rattle.lua_meaning.specs.declared.value.Value.TheVariants as value;
ghost use Rattle.lua_meaning.specs.Heap.{text_bytes, table_bytes, closure_bytes, cell_bytes, key_bytes, iter_bytes, thread_bytes, with_table, with_closure, with_cell, with_iter, with_thread, cell_at, set_cell, entry, with_entry, table_at, with_meta, metatable, metamethod};
ghost use Rattle.lua_meaning.specs.Tables.{border, was_put};
ghost use Rattle.lua_values.specs.Ids.{ids_of, IsOf, IsOwnPair, IsOwnTable, IsOwnIter, AreLater};
ghost use Rattle.lua_values.specs.Charges.{paid, IsNotMade};
ghost use Rattle.lua_meaning.specs.Values.{is_nil};
ghost use Rattle.lua_values.specs.Iters.{moved_to};
ghost use Rattle.lua_values.specs.Puts.{IsPutAt, IsNotPut};
ghost use Rattle.lua_values.specs.Walks.{WalksTo, WalkFails};
ghost use Rattle.lua_values.specs.declared.fault.HeapFault.TheVariants as fault;
ghost use Rattle.lua_values.specs.Events.{event_name};
ghost use Rattle.lua_values.specs.Start.{start_heap};
ghost use Rattle.lua_values.specs.Lending.{LendsBudget};

mod own;

use crate::charge::{charge_closure, next_number};
use crate::closure::Closure;
use crate::event::{Event, EventKeys};
use crate::fault::HeapFault;
use crate::iter::move_to;
use crate::start::start_tables;
use crate::table::{Table, is_nil};
use crate::walk::next_pair;
use lua_ast::NodeId;
use lua_meaning::{CellId, ClosureId, IterId, IterState, LuaText, TableId, ThreadId, Value};
use std::alloc::Global;
use std::marker::Model;
use std::sync::ledger::Ledger;
use zc_budget::{Budget, Steps};
use zc_io::NoMemory;

/// What a program has made so far, with what it has used of its limits. Nothing is given back.
/// What makes something takes memory of the allocator that the heap was made with.
#[derive(Drop)]
pub struct Heap {
    alloc: Global,
    events: EventKeys,
    tables: Vec<Table>,
    cells: Vec<Value>,
    closures: Vec<Closure>,
    iters: Vec<IterState>,
    threads: u32,
    budget: Budget,
}

impl Model for Heap {
    ghost use Rattle.lua_meaning.specs.Heap.{HeapOf};
    ghost use Rattle.lua_values.specs.Ids.{AreOwn};

    ghost Value = { HeapOf };

    ghost view = { λ h. record { tables = h.tables.items; cells = h.cells.items; closures = h.closures.items; iters = h.iters.items; threads = h.threads; used = h.budget } };

    ghost invariant = { λ h. AreOwn (record { tables = h.tables.items; cells = h.cells.items; closures = h.closures.items; iters = h.iters.items; threads = h.threads; used = h.budget }) };
}

impl Heap {
    /// What a program starts with: the globals and the tables that hold functions, under this budget.
    #[tactic(auto, unfolding(crate::specs::Start::start_heap))]
    pub fn new(alloc: Global, budget: Budget) -> Result<Heap, NoMemory>
        ensures { IfOk result (λ h. h ≡ start_heap budget) }
    {
        let events = EventKeys::new(alloc)?;
        let tables = start_tables(alloc)?;
        Ok(Heap {
            alloc,
            events,
            tables,
            cells: Vec::new(alloc),
            closures: Vec::new(alloc),
            iters: Vec::new(alloc),
            threads: 0,
            budget,
        })
    }

    /// A text of these bytes.
    pub fn new_text<L: Ledger>(
        &mut self,
        bytes: &[u8],
        steps: &mut Steps<L>,
    ) -> Result<Value, HeapFault>
        ensures made { IfOk result (λ v. (is_over (text_bytes bytes.now) self.old.used ≡ false) × (v ≡ value.Text bytes.now)
            × (self.new ≡ paid (text_bytes bytes.now) self.old)) }
        ensures refused { IfErr result (λ fault. IsNotMade (text_bytes bytes.now) self.old fault self.new) }
        ensures keeps { AreLater (ids_of self.old) (ids_of self.new) }
        ensures step { steps.new ≡ steps.old + 1 }
    {
        steps.tick();
        self.budget.charge(24 + bytes.len() as u64)?;
        Ok(Value::Text(LuaText::from_slice(self.alloc, bytes)?))
    }

    /// A table without pairs and metatable.
    pub fn new_table<L: Ledger>(&mut self, steps: &mut Steps<L>) -> Result<Value, HeapFault>
        ensures made { IfOk result (λ v. (is_over table_bytes self.old.used ≡ false) × (v ≡ value.Table (length self.old.tables))
            × (self.new ≡ with_table (paid table_bytes self.old))) }
        ensures own { IfOk result (IsOf (ids_of self.new)) }
        ensures refused { IfErr result (λ fault. IsNotMade table_bytes self.old fault self.new) }
        ensures keeps { AreLater (ids_of self.old) (ids_of self.new) }
        ensures step { steps.new ≡ steps.old + 1 }
    {
        steps.tick();
        self.budget.charge(64)?;
        let number = next_number(self.tables.len())?;
        self.tables.push(Table::new(self.alloc))?;
        Ok(Value::Table(TableId::new(number)))
    }

    /// A closure of a Function node over these variables, in the order in which the node captures them.
    pub fn new_closure<L: Ledger>(
        &mut self,
        function: NodeId,
        cells: &[CellId],
        steps: &mut Steps<L>,
    ) -> Result<Value, HeapFault>
        requires { All (λ i. i < length self.old.cells) cells.now }
        ensures made { IfOk result (λ v. (is_over (closure_bytes (length cells.now)) self.old.used ≡ false) × (v ≡ value.Closure (length self.old.closures))
            × (self.new ≡ with_closure (paid (closure_bytes (length cells.now)) self.old) (record { function = function; cells = cells.now }))) }
        ensures own { IfOk result (IsOf (ids_of self.new)) }
        ensures refused { IfErr result (λ fault. IsNotMade (closure_bytes (length cells.now)) self.old fault self.new) }
        ensures keeps { AreLater (ids_of self.old) (ids_of self.new) }
        ensures step { steps.new ≡ steps.old + 1 }
    {
        steps.tick();
        charge_closure(&mut self.budget, cells.len())?;
        let number = next_number(self.closures.len())?;
        let captured = Vec::from_slice(self.alloc, cells)?;
        self.closures.push(Closure::new(function, captured))?;
        Ok(Value::Closure(ClosureId::new(number)))
    }

    /// An iterator function in this state.
    pub fn new_iter<L: Ledger>(
        &mut self,
        state: IterState,
        steps: &mut Steps<L>,
    ) -> Result<Value, HeapFault>
        requires { IsOwnIter (ids_of self.old) state }
        ensures made { IfOk result (λ v. (is_over iter_bytes self.old.used ≡ false) × (v ≡ value.Iter (length self.old.iters))
            × (self.new ≡ with_iter (paid iter_bytes self.old) state)) }
        ensures own { IfOk result (IsOf (ids_of self.new)) }
        ensures refused { IfErr result (λ fault. IsNotMade iter_bytes self.old fault self.new) }
        ensures keeps { AreLater (ids_of self.old) (ids_of self.new) }
        ensures step { steps.new ≡ steps.old + 1 }
    {
        steps.tick();
        self.budget.charge(64)?;
        let number = next_number(self.iters.len())?;
        self.iters.push(state)?;
        Ok(Value::Iter(IterId::new(number)))
    }

    /// A captured variable with this value.
    pub fn new_cell<L: Ledger>(
        &mut self,
        value: Value,
        steps: &mut Steps<L>,
    ) -> Result<CellId, HeapFault>
        requires { IsOf (ids_of self.old) value }
        ensures made { IfOk result (λ id. (is_over cell_bytes self.old.used ≡ false) × (id ≡ length self.old.cells)
            × (self.new ≡ with_cell (paid cell_bytes self.old) value)) }
        ensures own { IfOk result (λ id. id < length self.new.cells) }
        ensures refused { IfErr result (λ fault. IsNotMade cell_bytes self.old fault self.new) }
        ensures keeps { AreLater (ids_of self.old) (ids_of self.new) }
        ensures step { steps.new ≡ steps.old + 1 }
    {
        steps.tick();
        self.budget.charge(24)?;
        let number = next_number(self.cells.len())?;
        self.cells.push(value)?;
        Ok(CellId::new(number))
    }

    /// The number of a further coroutine, from 1 on.
    pub fn new_thread<L: Ledger>(&mut self, steps: &mut Steps<L>) -> Result<ThreadId, HeapFault>
        ensures made { IfOk result (λ id. (is_over thread_bytes self.old.used ≡ false) × (id ≡ self.old.threads + 1)
            × (self.new ≡ with_thread (paid thread_bytes self.old))) }
        ensures refused { IfErr result (λ fault. IsNotMade thread_bytes self.old fault self.new) }
        ensures keeps { AreLater (ids_of self.old) (ids_of self.new) }
        ensures step { steps.new ≡ steps.old + 1 }
    {
        steps.tick();
        self.budget.charge(256)?;
        let number = next_number(self.threads as usize)? + 1;
        self.threads = number;
        Ok(ThreadId::new(number))
    }

    /// The value of a captured variable.
    pub fn cell<L: Ledger>(&self, cell: CellId, steps: &mut Steps<L>) -> Result<Value, NoMemory>
        requires { cell < length self.now.cells }
        ensures value { IfOk result (λ v. v ≡ cell_at self.now cell) }
        ensures own { IfOk result (IsOf (ids_of self.now)) }
        ensures step { steps.new ≡ steps.old + 1 }
    {
        steps.tick();
        Ok(self.cells[cell.number() as usize].clone()?)
    }

    /// Gives a captured variable a value.
    pub fn set_cell<L: Ledger>(&mut self, cell: CellId, value: Value, steps: &mut Steps<L>)
        requires cell { cell < length self.old.cells }
        requires own { IsOf (ids_of self.old) value }
        ensures done { self.new ≡ set_cell self.old cell value }
        ensures keeps { AreLater (ids_of self.old) (ids_of self.new) }
        ensures step { steps.new ≡ steps.old + 1 }
    {
        steps.tick();
        self.cells[cell.number() as usize] = value;
    }

    /// The Function node and the captured variables of a closure.
    pub fn closure(&self, closure: ClosureId) -> (NodeId, &[CellId])
        requires { closure < length self.now.closures }
        ensures value { slice_get self.now.closures closure ≡ Some (record { function = result.0; cells = result.1.now }) }
        ensures own { All (λ i. i < length self.now.cells) result.1.now }
    {
        let closure = &self.closures[closure.number() as usize];
        (closure.function(), closure.cells())
    }

    /// The state of an iterator function.
    pub fn iter(&self, iter: IterId) -> &IterState
        requires { iter < length self.now.iters }
        ensures value { slice_get self.now.iters iter ≡ Some result.now }
        ensures own { IsOwnIter (ids_of self.now) result.now }
    {
        &self.iters[iter.number() as usize]
    }

    /// A table.
    fn table(&self, table: TableId) -> &Table
        requires { table < length self.now.tables }
        ensures value { result.now ≡ table_at self.now table }
        ensures own { IsOwnTable (ids_of self.now) result.now }
    {
        &self.tables[table.number() as usize]
    }

    /// The value at a key of a table, or nil, without metamethods.
    pub fn get<L: Ledger>(
        &self,
        table: TableId,
        key: &Value,
        steps: &mut Steps<L>,
    ) -> Result<Value, NoMemory>
        requires { table < length self.now.tables }
        ensures value { IfOk result (λ v. v ≡ entry self.now table key.now) }
        ensures own { IfOk result (IsOf (ids_of self.now)) }
        ensures step { steps.new ≡ steps.old + 1 }
    {
        steps.tick();
        Ok(self.table(table).get(key)?)
    }

    /// The pair at a place of a table's walk order, from 0. Its value is nil where the key was set to nil.
    pub fn pair(&self, table: TableId, place: u64) -> Option<(&Value, &Value)>
        requires { table < length self.now.tables }
        ensures pair { option_map deref_pair result ≡ slice_get (table_at self.now table).pairs place }
        ensures own { IfSome (option_map deref_pair result) (IsOwnPair (ids_of self.now)) }
    {
        self.table(table).pair(place as usize)
    }

    /// Puts a value at a key that has a place.
    fn put_there(&mut self, table: TableId, key: Value, value: Value) -> Result<(), HeapFault>
        requires table { table < length self.old.tables }
        requires key { IsOf (ids_of self.old) key }
        requires value { IsOf (ids_of self.old) value }
        ensures ok { OnOk result (self.new ≡ with_entry self.old table key value) }
        ensures keeps { AreLater (ids_of self.old) (ids_of self.new) }
        ensures err { IfErr result (λ f. (f ≡ fault.NoMemory) × (self.new ≡ self.old)) }
        ensures absent { OnErr result (was_put (table_at self.old table).pairs key ≡ false) }
    {
        self.tables[table.number() as usize].put(key, value)?;
        Ok(())
    }

    /// Makes a place for a key, with a value.
    fn put_new(&mut self, table: TableId, key: Value, value: Value) -> Result<(), HeapFault>
        requires table { table < length self.old.tables }
        requires key { IsOf (ids_of self.old) key }
        requires value { IsOf (ids_of self.old) value }
        ensures ok { OnOk result ((is_over key_bytes self.old.used ≡ false) × (self.new ≡ with_entry (paid key_bytes self.old) table key value)) }
        ensures refused { IfErr result (λ f. IsNotMade key_bytes self.old f self.new) }
    {
        self.budget.charge(48)?;
        self.put_there(table, key, value)
    }

    /// Puts a value at a key of a table, without metamethods. A key that was put before keeps its place, also
    /// where it is set to nil.
    pub fn set<L: Ledger>(
        &mut self,
        table: TableId,
        key: Value,
        value: Value,
        steps: &mut Steps<L>,
    ) -> Result<(), HeapFault>
        requires table { table < length self.old.tables }
        requires key { IsOf (ids_of self.old) key }
        requires value { IsOf (ids_of self.old) value }
        ensures ok { OnOk result (IsPutAt self.old table key value self.new) }
        ensures present { was_put (table_at self.old table).pairs key ≡ true → is_nil key ≡ false → IsOk result }
        ensures nil_key { (result ≡ Err fault.NilKey) ↔ (is_nil key ≡ true) }
        ensures refused { IfErr result (λ f. IsNotPut self.old table key value f self.new) }
        ensures keeps { AreLater (ids_of self.old) (ids_of self.new) }
        ensures step { steps.new ≡ steps.old + 1 }
    {
        steps.tick();
        if is_nil(&key) {
            return Err(HeapFault::NilKey);
        }
        if self.table(table).has(&key) {
            return self.put_there(table, key, value);
        }
        if is_nil(&value) {
            return Ok(());
        }
        self.put_new(table, key, value)
    }

    /// The next pair of a table behind a key, with a value that isn't nil. Each place that is skipped is
    /// one instruction.
    pub fn next<L: Ledger>(
        &mut self,
        table: TableId,
        key: &Value,
        steps: &mut Steps<L>,
    ) -> Result<Option<(Value, Value)>, HeapFault>
        requires { table < length self.old.tables }
        ensures ok { IfOk result (λ found. WalksTo (table_at self.old table).pairs key.now self.old.used found self.new.used) }
        ensures own { IfOk result (λ found. IfSome found (IsOwnPair (ids_of self.new))) }
        ensures refused { IfErr result (λ f. WalkFails (table_at self.old table).pairs key.now self.old.used f self.new.used) }
        ensures others { self.new ≡ record self.old { used = self.new.used } }
        ensures step { steps.new ≡ steps.old + 1 }
    {
        steps.tick();
        Ok(next_pair(&self.tables[table.number() as usize], &mut self.budget, key)?)
    }

    /// The least n at whose successor a table has nil.
    pub fn border<L: Ledger>(&mut self, table: TableId, steps: &mut Steps<L>) -> i64
        requires { table < length self.old.tables }
        ensures value { result ≡ pos (border (table_at self.old table).pairs) }
        ensures same { self.new ≡ self.old }
        ensures step { steps.new ≡ steps.old + 1 }
    {
        steps.tick();
        self.tables[table.number() as usize].border() as i64
    }

    /// The metatable of a value: only tables have one.
    pub fn meta<L: Ledger>(&self, value: &Value, steps: &mut Steps<L>) -> Option<TableId>
        requires { IsOf (ids_of self.now) value.now }
        ensures value { result ≡ metatable self.now value.now }
        ensures own { IfSome result (λ m. m < length self.now.tables) }
        ensures step { steps.new ≡ steps.old + 1 }
    {
        steps.tick();
        match value {
            Value::Table(table) => self.table(*table).meta(),
            _ => None,
        }
    }

    /// The metamethod of a value for an event, or nil.
    pub fn metamethod<L: Ledger>(
        &self,
        value: &Value,
        event: Event,
        steps: &mut Steps<L>,
    ) -> Result<Value, NoMemory>
        requires { IsOf (ids_of self.now) value.now }
        ensures value { IfOk result (λ v. v ≡ metamethod self.now value.now (event_name event)) }
        ensures own { IfOk result (IsOf (ids_of self.now)) }
        ensures step { steps.new ≡ steps.old + 1 }
    {
        let Some(meta) = self.meta(value, steps) else {
            return Ok(Value::Nil);
        };
        Ok(self.table(meta).get(self.events.key(event))?)
    }

    /// Gives a table this metatable, or none.
    pub fn set_meta<L: Ledger>(
        &mut self,
        table: TableId,
        meta: Option<TableId>,
        steps: &mut Steps<L>,
    )
        requires table { table < length self.old.tables }
        requires meta { IfSome meta (λ m. m < length self.old.tables) }
        ensures done { self.new ≡ with_meta self.old table meta }
        ensures keeps { AreLater (ids_of self.old) (ids_of self.new) }
        ensures step { steps.new ≡ steps.old + 1 }
    {
        steps.tick();
        self.tables[table.number() as usize].set_meta(meta);
    }

    /// Gives an iterator over a list the last name that it gave.
    pub fn move_iter<L: Ledger>(&mut self, iter: IterId, last: LuaText, steps: &mut Steps<L>)
        requires { iter < length self.old.iters }
        ensures done { IfSome (slice_get self.old.iters iter) (λ state. self.new ≡ record self.old { iters = slice_set self.old.iters iter (moved_to last state) }) }
        ensures keeps { AreLater (ids_of self.old) (ids_of self.new) }
        ensures step { steps.new ≡ steps.old + 1 }
    {
        steps.tick();
        move_to(&mut self.iters[iter.number() as usize], last);
    }

    /// The allocator that it was made with.
    pub fn alloc(&self) -> Global {
        self.alloc
    }

    /// What it has used of its limits, and the limits, lent.
    pub fn budget(&mut self) -> &mut Budget
        ensures* writes_back { sem 𝓛 (LendsBudget self.entry result) }
        ensures value { result.now ≡ self.old.used }
    {
        &mut self.budget
    }
}
