//! Kinds of work on a table whose keys are the numbers from 1 on, each with itself as value.

ghost use Rattle.std.specs.Prelude.{◌≡◌, ◌<◌, length, IfOk};

use lua_values::{Heap, HeapFault, TableId, Value};
use std::alloc::Global;
use std::sync::ledger::Ledger;
use zc_budget::{Budget, GREATEST_BYTES, GREATEST_INSTRUCTIONS, Steps};

/// What is timed.
#[derive(Clone, Copy, PartialEq, Eq, Debug, Drop)]
pub enum Kind {
    /// New keys, in a table of its own each round.
    Append,
    /// As `Append`, and the border is asked for behind each key.
    Border,
    /// A table is made, and each round puts a value at each of its keys.
    Change,
    /// A table is made, and each round gets the value at each of its keys.
    Get,
    /// A table is made, and each round walks it from end to end.
    Walk,
}

/// A kind of work, how many keys a table gets, and how many rounds there are.
#[derive(Clone, Copy, PartialEq, Eq, Debug, Drop)]
pub struct Work {
    kind: Kind,
    keys: u32,
    rounds: u32,
}

fn kind_of(word: &str) -> Option<Kind> {
    match word {
        "append" => Some(Kind::Append),
        "border" => Some(Kind::Border),
        "change" => Some(Kind::Change),
        "get" => Some(Kind::Get),
        "walk" => Some(Kind::Walk),
        _ => None,
    }
}

/// The work that three words name.
pub fn work_of(kind: &str, keys: &str, rounds: &str) -> Option<Work> {
    let kind = kind_of(kind)?;
    let keys = keys.parse::<u32>().ok()?;
    let rounds = rounds.parse::<u32>().ok()?;
    Some(Work { kind, keys, rounds })
}

impl Work {
    /// Does it on a heap of its own, and answers the last number that was put or found.
    pub fn done<L: Ledger>(self, alloc: Global, steps: &mut Steps<L>) -> Result<i64, HeapFault> {
        let Ok(mut heap) = Heap::new(alloc, Budget::new(GREATEST_INSTRUCTIONS, GREATEST_BYTES))
        else {
            return Err(HeapFault::NoMemory);
        };
        match self.kind {
            Kind::Append | Kind::Border => in_new_tables(&mut heap, self, steps),
            Kind::Change | Kind::Get | Kind::Walk => in_one_table(&mut heap, self, steps),
        }
    }
}

/// Each round in a table of its own.
fn in_new_tables<L: Ledger>(
    heap: &mut Heap,
    work: Work,
    steps: &mut Steps<L>,
) -> Result<i64, HeapFault> {
    let mut last = 0;
    for _round in 0..work.rounds {
        let table = new_table(heap, steps)?;
        last = once(heap, table, work, steps)?;
    }
    Ok(last)
}

/// All rounds in one table, which has its keys before.
fn in_one_table<L: Ledger>(
    heap: &mut Heap,
    work: Work,
    steps: &mut Steps<L>,
) -> Result<i64, HeapFault> {
    let table = new_table(heap, steps)?;
    let mut last = put_each(heap, table, work.keys, steps)?;
    for _round in 0..work.rounds {
        last = once(heap, table, work, steps)?;
    }
    Ok(last)
}

/// One round.
fn once<L: Ledger>(
    heap: &mut Heap,
    table: TableId,
    work: Work,
    steps: &mut Steps<L>,
) -> Result<i64, HeapFault>
    requires { table < length heap.old.tables }
    ensures { table < length heap.new.tables }
{
    match work.kind {
        Kind::Append | Kind::Change => put_each(heap, table, work.keys, steps),
        Kind::Border => put_with_borders(heap, table, work.keys, steps),
        Kind::Get => get_each(heap, table, work.keys, steps),
        Kind::Walk => walk(heap, table, work.keys, steps),
    }
}

/// A further table, without keys.
fn new_table<L: Ledger>(heap: &mut Heap, steps: &mut Steps<L>) -> Result<TableId, HeapFault>
    ensures { IfOk result (λ table. table < length heap.new.tables) }
{
    match heap.new_table(steps)? {
        Value::Table(table) => Ok(table),
        _ => Err(HeapFault::NoMemory),
    }
}

/// Puts a value at each key.
fn put_each<L: Ledger>(
    heap: &mut Heap,
    table: TableId,
    keys: u32,
    steps: &mut Steps<L>,
) -> Result<i64, HeapFault>
    requires { table < length heap.old.tables }
    ensures { table < length heap.new.tables }
{
    for place in 0..keys {
        let key = place as i64 + 1;
        heap.set(table, Value::Int(key), Value::Int(key), steps)?;
    }
    Ok(keys as i64)
}

/// Puts a value at each key, and asks for the border behind each.
fn put_with_borders<L: Ledger>(
    heap: &mut Heap,
    table: TableId,
    keys: u32,
    steps: &mut Steps<L>,
) -> Result<i64, HeapFault>
    requires { table < length heap.old.tables }
    ensures { table < length heap.new.tables }
{
    let mut border = 0;
    for place in 0..keys {
        let key = place as i64 + 1;
        heap.set(table, Value::Int(key), Value::Int(key), steps)?;
        border = heap.border(table, steps);
    }
    Ok(border)
}

/// Gets the value at each key.
fn get_each<L: Ledger>(
    heap: &Heap,
    table: TableId,
    keys: u32,
    steps: &mut Steps<L>,
) -> Result<i64, HeapFault>
    requires { table < length heap.now.tables }
{
    let mut last = 0;
    for place in 0..keys {
        let Ok(value) = heap.get(table, &Value::Int(place as i64 + 1), steps) else {
            return Err(HeapFault::NoMemory);
        };
        last = number_of(&value);
    }
    Ok(last)
}

/// Walks so many keys of a table.
fn walk<L: Ledger>(
    heap: &mut Heap,
    table: TableId,
    keys: u32,
    steps: &mut Steps<L>,
) -> Result<i64, HeapFault>
    requires { table < length heap.old.tables }
    ensures { table < length heap.new.tables }
{
    let mut key = Value::Nil;
    for _place in 0..keys {
        let Some((next, _)) = heap.next(table, &key, steps)? else {
            return Ok(0);
        };
        key = next;
    }
    Ok(number_of(&key))
}

/// A number, or 0.
fn number_of(value: &Value) -> i64 {
    match value {
        Value::Int(number) => *number,
        _ => 0,
    }
}
