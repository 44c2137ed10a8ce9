//! Tables, and look-ups and puts with metamethods (Lua 5.2 manual, 2.4 and 3.2).

ghost use Rattle.std.specs.Prelude.{◌≡◌, ◌<◌, ◌∷◌, [], false, length, codes, IfOk};
ghost use Rattle.zc_budget.specs.Used.{is_over};
ghost use Rattle.lua_meaning.specs.declared.value.Value.TheVariants as lua;
ghost use Rattle.lua_meaning.specs.Values.{is_function, is_nil};
ghost use Rattle.lua_meaning.specs.Heap.{entry, metamethod, table_bytes};
ghost use Rattle.lua_values.specs.Ids.{ids_of, IsOf};
ghost use Rattle.lua_coroutines.specs.declared.frame.Frame.TheVariants as frame;
ghost use Rattle.lua_coroutines.specs.declared.frame.AssignFrame.TheVariants as assign;
ghost use Rattle.lua_steps.specs.declared.mode.Mode.TheVariants as mode;
ghost use Rattle.lua_steps.specs.Machine.{lines_at, table_by, looked_in, put_where, index_by, found_by, looking, put_plain, new_index_by, put_by_found, put_where_found};

use crate::configuration::Configuration;
use lua_ast::{Chunk, NodeId};
use lua_coroutines::{AssignFrame, Frame, OperandFrame, Targets};
use lua_meaning::TableId;
use lua_steps::Mode;
use lua_transitions::parts;
use lua_values::{Event, HeapFault, Value, ValueList};
use std::alloc::Global;
use std::sync::ledger::Ledger;
use zc_budget::Steps;
use zc_io::NoMemory;

/// Whether a value is a function.
pub fn is_function(value: &Value) -> bool
    ensures { result ≡ is_function value.now }
{
    match value {
        Value::Closure(_) | Value::Builtin(_) | Value::Iter(_) => true,
        _ => false,
    }
}

/// Whether a value is nil.
pub fn is_nil(value: &Value) -> bool
    ensures { result ≡ is_nil value.now }
{
    match value {
        Value::Nil => true,
        _ => false,
    }
}

/// The table that a value is.
fn table_of(value: &Value) -> Option<TableId>
    ensures { result ≡ put_where value.now }
{
    match value {
        Value::Table(table) => Some(*table),
        _ => None,
    }
}

impl Configuration {
    /// A table constructor begins (Lua 5.2 manual, 3.4.8).
    pub fn make_table<L: Ledger>(
        &mut self,
        node: NodeId,
        steps: &mut Steps<L>,
    ) -> Result<Mode, NoMemory>
        ensures { IfOk result (λ m. (m, self.new) ≡ table_by (is_over table_bytes self.old.heap.used) node self.old) }
    {
        let made = match self.heap.new_table(steps) {
            Ok(made) => made,
            Err(HeapFault::Stop(stop)) => return Ok(Mode::Stopped(stop)),
            Err(_) => return Err(NoMemory),
        };
        let Some(table) = table_of(&made) else {
            unreachable!();
        };
        Ok(Mode::Fields {
            node,
            next: 0,
            table,
            count: 1,
        })
    }

    /// Looks `object[key]` up.
    pub fn look<L: Ledger>(
        &mut self,
        chunk: &Chunk,
        node: NodeId,
        object: Value,
        key: Value,
        steps: &mut Steps<L>,
    ) -> Result<Mode, NoMemory>
        requires { IsOf (ids_of self.old.heap) object }
        ensures { IfOk result (λ m. (m, self.new) ≡ looking chunk.now.nodes (looked_in object) node object key self.old) }
    {
        match &object {
            Value::Table(table) => self.look_in(chunk, node, *table, key, steps),
            Value::Text(_) => {
                let strings = self.heap.strings();
                self.look_in(chunk, node, strings, key, steps)
            }
            _ => self.fail_on(&[parts::line_number(chunk, node)], "index", &object, steps),
        }
    }

    /// Looks a key up in a table.
    fn look_in<L: Ledger>(
        &mut self,
        chunk: &Chunk,
        node: NodeId,
        table: TableId,
        key: Value,
        steps: &mut Steps<L>,
    ) -> Result<Mode, NoMemory>
        requires { table < length self.old.heap.tables }
        ensures { IfOk result (λ m. (m, self.new) ≡ found_by chunk.now.nodes (entry self.old.heap table key) node table key self.old) }
    {
        match self.heap.get(table, &key, steps)? {
            Value::Nil => self.index(chunk, node, table, key, steps),
            value => Ok(Mode::Give(ValueList::of_one(self.heap.alloc(), value))),
        }
    }

    /// `__index` of a table without the key.
    fn index<L: Ledger>(
        &mut self,
        chunk: &Chunk,
        node: NodeId,
        table: TableId,
        key: Value,
        steps: &mut Steps<L>,
    ) -> Result<Mode, NoMemory>
        requires { table < length self.old.heap.tables }
        ensures { IfOk result (λ m. (m, self.new) ≡ index_by chunk.now.nodes (metamethod self.old.heap (lua.Table table) (codes "__index"))
            (is_function (metamethod self.old.heap (lua.Table table) (codes "__index"))) node table key self.old) }
    {
        let handler = self
            .heap
            .metamethod(&Value::Table(table), Event::Index, steps)?;
        let is_function = is_function(&handler);
        if is_nil(&handler) {
            return Ok(Mode::Give(ValueList::of_one(self.heap.alloc(), Value::Nil)));
        }
        if let Err(stop) = self.tick() {
            return Ok(Mode::Stopped(stop));
        }
        if !is_function {
            return Ok(Mode::Look {
                node,
                object: handler,
                key,
            });
        }
        let args = ValueList::of_two(self.heap.alloc(), Value::Table(table), key);
        self.enter(Frame::Operand(OperandFrame::Only))?;
        self.metamethod_call(chunk, node, handler, args)
    }

    /// The call of a metamethod that a node makes.
    fn metamethod_call(
        &self,
        chunk: &Chunk,
        node: NodeId,
        function: Value,
        args: ValueList,
    ) -> Result<Mode, NoMemory>
        ensures { IfOk result (λ m. m ≡ mode.Call function args (lines_at chunk.now.nodes node self.now.call) false) }
    {
        let lines = self.lines_at(chunk, node)?;
        Ok(Mode::Call {
            function,
            args,
            lines,
            is_own: false,
        })
    }

    /// Puts a value at `object[key]`.
    pub fn put_at<L: Ledger>(
        &mut self,
        chunk: &Chunk,
        node: NodeId,
        object: Value,
        key: Value,
        value: Value,
        steps: &mut Steps<L>,
    ) -> Result<Mode, NoMemory>
        requires object { IsOf (ids_of self.old.heap) object }
        requires key { IsOf (ids_of self.old.heap) key }
        requires value { IsOf (ids_of self.old.heap) value }
        ensures { IfOk result (λ m. (m, self.new) ≡ put_where_found chunk.now.nodes (put_where object) node object key value self.old) }
    {
        match &object {
            Value::Table(table) => self.put_over(chunk, node, *table, key, value, steps),
            _ => self.fail_on(&[parts::line_number(chunk, node)], "index", &object, steps),
        }
    }

    /// Puts a value at a key of a table.
    fn put_over<L: Ledger>(
        &mut self,
        chunk: &Chunk,
        node: NodeId,
        table: TableId,
        key: Value,
        value: Value,
        steps: &mut Steps<L>,
    ) -> Result<Mode, NoMemory>
        requires table { table < length self.old.heap.tables }
        requires key { IsOf (ids_of self.old.heap) key }
        requires value { IsOf (ids_of self.old.heap) value }
        ensures { IfOk result (λ m. (m, self.new) ≡ put_by_found chunk.now.nodes (entry self.old.heap table key) node table key value self.old) }
    {
        match self.heap.get(table, &key, steps)? {
            Value::Nil => self.new_index(chunk, node, table, key, value, steps),
            _ => self.put_plain(chunk, node, table, key, value, steps),
        }
    }

    /// Puts a value at a key of a table, without metamethods.
    fn put_plain<L: Ledger>(
        &mut self,
        chunk: &Chunk,
        node: NodeId,
        table: TableId,
        key: Value,
        value: Value,
        steps: &mut Steps<L>,
    ) -> Result<Mode, NoMemory>
        requires table { table < length self.old.heap.tables }
        requires key { IsOf (ids_of self.old.heap) key }
        requires value { IsOf (ids_of self.old.heap) value }
        ensures { IfOk result (λ m. (m, self.new) ≡ put_plain chunk.now.nodes node table key value self.old) }
    {
        let mode = Mode::Give(ValueList::new(self.heap.alloc()));
        self.put(
            parts::line_number(chunk, node),
            table,
            key,
            value,
            mode,
            steps,
        )
    }

    /// `__newindex` of a table without the key.
    fn new_index<L: Ledger>(
        &mut self,
        chunk: &Chunk,
        node: NodeId,
        table: TableId,
        key: Value,
        value: Value,
        steps: &mut Steps<L>,
    ) -> Result<Mode, NoMemory>
        requires table { table < length self.old.heap.tables }
        requires key { IsOf (ids_of self.old.heap) key }
        requires value { IsOf (ids_of self.old.heap) value }
        ensures { IfOk result (λ m. (m, self.new) ≡ new_index_by chunk.now.nodes (metamethod self.old.heap (lua.Table table) (codes "__newindex"))
            (is_function (metamethod self.old.heap (lua.Table table) (codes "__newindex"))) node table key value self.old) }
    {
        let handler = self
            .heap
            .metamethod(&Value::Table(table), Event::NewIndex, steps)?;
        let is_function = is_function(&handler);
        if is_nil(&handler) {
            return self.put_plain(chunk, node, table, key, value, steps);
        }
        if let Err(stop) = self.tick() {
            return Ok(Mode::Stopped(stop));
        }
        if !is_function {
            return Ok(Mode::Put {
                node,
                object: handler,
                key,
                value,
            });
        }
        let alloc = self.heap.alloc();
        let mut args = ValueList::of_two(alloc, Value::Table(table), key);
        args.push(value)?;
        self.enter(no_stores(alloc, node))?;
        self.metamethod_call(chunk, node, handler, args)
    }
}

/// The frame of an assignment with nothing left to store, which takes what `__newindex` gives.
fn no_stores(alloc: Global, node: NodeId) -> Frame
    ensures { result ≡ frame.Assign (assign.Stores node [] []) }
{
    Frame::Assign(AssignFrame::Stores {
        node,
        targets: Targets::new(alloc),
        values: ValueList::new(alloc),
    })
}
