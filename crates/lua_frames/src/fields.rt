//! Table constructors (Lua 5.2 manual, 3.4.8).

ghost use Rattle.std.specs.Prelude.{◌≡◌, ◌<◌, length, drop, All, IfOk, slice_get};
ghost use Rattle.lua_values.specs.Ids.{ids_of, IsOf};
ghost use Rattle.lua_steps.specs.declared.mode.Mode.TheVariants as next_mode;
ghost use Rattle.lua_steps.specs.Parts.{fields_at, no_field_left};
ghost use Rattle.lua_steps.specs.Effects.{put_in, putting, put_all};
ghost use Rattle.lua_steps.specs.Machine.{lines_at, field_begun, items_of, items_put};

use lua_ast::{Chunk, Field, NodeId};
use lua_configuration::Configuration;
use lua_coroutines::{Frame, TableFrame};
use lua_meaning::{LuaText, TableId};
use lua_steps::Mode;
use lua_transitions::parts;
use lua_values::{Value, ValueList};
use std::sync::ledger::Ledger;
use zc_budget::Steps;
use zc_io::NoMemory;

/// The next field of a table constructor, or the table, where no field is left.
pub(crate) fn begin_field(
    configuration: &mut Configuration,
    chunk: &Chunk,
    node: NodeId,
    next: usize,
    table: TableId,
    count: u64,
) -> Result<Mode, NoMemory>
    ensures { IfOk result (λ m. (m, configuration.new) ≡ field_begun chunk.now.nodes node next table count (slice_get (fields_at chunk.now.nodes node) next) configuration.old) }
{
    let alloc = configuration.alloc();
    let Some(field) = parts::field_at(chunk, node, next) else {
        return Ok(Mode::Give(ValueList::of_one(alloc, Value::Table(table))));
    };
    let next = next + 1;
    let (frame, part) = match field {
        Field::Item { value } => (
            TableFrame::Item {
                node,
                next,
                table,
                count,
            },
            *value,
        ),
        Field::Named { name, value } => (
            TableFrame::Entry {
                node,
                next,
                table,
                count,
                key: Value::Text(LuaText::from_slice(alloc, name.as_slice())?),
            },
            *value,
        ),
        Field::Keyed { key, value } => (
            TableFrame::Key {
                node,
                next,
                table,
                count,
                value: *value,
            },
            *key,
        ),
    };
    configuration.enter(Frame::Table(frame))?;
    Ok(Mode::Begin(part))
}

/// Values at whole numbers from `count` on.
fn put_values<L: Ledger>(
    configuration: &mut Configuration,
    chunk: &Chunk,
    node: NodeId,
    next: usize,
    table: TableId,
    count: u64,
    values: ValueList,
    steps: &mut Steps<L>,
) -> Result<Mode, NoMemory>
    requires table { table < length configuration.old.heap.tables }
    requires values { All (IsOf (ids_of configuration.old.heap)) values }
    ensures { IfOk result (λ m. (m, configuration.new) ≡ items_put chunk.now.nodes (put_all (lines_at chunk.now.nodes node configuration.old.call) table count values configuration.old.heap) node next table configuration.old) }
{
    let line = parts::line_number(chunk, node);
    let put = configuration.put_all(line, table, count, values, steps)?;
    match put.fault {
        Some(fault) => Ok(fault),
        None => Ok(Mode::Fields {
            node,
            next,
            table,
            count: put.count,
        }),
    }
}

/// The values of a field without a key: all of the last field, the first one of another.
#[tactic(auto, using(lua_steps::proofs::OwnGiven::first_own))]
pub(crate) fn put_items<L: Ledger>(
    configuration: &mut Configuration,
    chunk: &Chunk,
    node: NodeId,
    next: usize,
    table: TableId,
    count: u64,
    values: ValueList,
    steps: &mut Steps<L>,
) -> Result<Mode, NoMemory>
    requires table { table < length configuration.old.heap.tables }
    requires values { All (IsOf (ids_of configuration.old.heap)) values }
    ensures { IfOk result (λ m. (m, configuration.new) ≡ items_put chunk.now.nodes (put_all (lines_at chunk.now.nodes node configuration.old.call) table count
        (items_of chunk.now.nodes (no_field_left (drop next (fields_at chunk.now.nodes node))) values) configuration.old.heap) node next table configuration.old) }
{
    if parts::is_past_fields(chunk, node, next) {
        return put_values(
            configuration,
            chunk,
            node,
            next,
            table,
            count,
            values,
            steps,
        );
    }
    let first = ValueList::of_one(configuration.alloc(), values.into_first());
    put_values(configuration, chunk, node, next, table, count, first, steps)
}

/// The value of a field at its key.
pub(crate) fn put_entry<L: Ledger>(
    configuration: &mut Configuration,
    chunk: &Chunk,
    node: NodeId,
    next: usize,
    table: TableId,
    count: u64,
    key: Value,
    value: Value,
    steps: &mut Steps<L>,
) -> Result<Mode, NoMemory>
    requires table { table < length configuration.old.heap.tables }
    requires key { IsOf (ids_of configuration.old.heap) key }
    requires value { IsOf (ids_of configuration.old.heap) value }
    ensures { IfOk result (λ m. (m, configuration.new) ≡ putting (put_in (lines_at chunk.now.nodes node configuration.old.call) table key value configuration.old.heap) (next_mode.Fields node next table count) configuration.old) }
{
    let line = parts::line_number(chunk, node);
    let mode = Mode::Fields {
        node,
        next,
        table,
        count,
    };
    configuration.put(line, table, key, value, mode, steps)
}
