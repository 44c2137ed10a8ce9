//! Tables in the order in which their keys were first put.

ghost use Rattle.std.specs.Prelude.{◌≡◌, ◌-◌, ◌<◌, ◌≤◌, ◌^◌, [], None, false, length, drop, IfOk, IfSome, OnOk, OnErr, option_map, slice_get};
ghost use Rattle.std.specs.Map.Iter.{deref_pair};
ghost use Rattle.lua_meaning.specs.Values.{is_nil};
ghost use Rattle.lua_meaning.specs.Tables.{value_at, was_put, with_pair, border, pairs_behind};
ghost use Rattle.lua_meaning.specs.Heap.{no_table};
ghost use Rattle.lua_values.specs.Filled.{IsFilled, filled_by, item_key};

use indexmap::IndexMap;
use lua_meaning::{TableId, Value};
use std::alloc::{AllocError, Global};
use std::marker::Model;

/// A table. How far it is filled from key 1 on without a gap is known in part, so that its border
/// is found from there.
#[derive(Drop)]
pub struct Table {
    pairs: IndexMap<Value, Value>,
    meta: Option<TableId>,
    filled: usize,
}

impl Model for Table {
    ghost use Rattle.std.specs.Prelude.{◌≤◌, length};
    ghost use Rattle.lua_meaning.specs.Heap.{TableOf};
    ghost use Rattle.lua_values.specs.Filled.{IsFilled};

    ghost Value = { TableOf };

    ghost view = { λ t. record { pairs = t.pairs.entries; meta = t.meta } };

    ghost invariant = { λ t. IsFilled t.filled t.pairs.entries };
}

/// Whether this is nil.
pub fn is_nil(value: &Value) -> bool
    ensures { result ≡ is_nil value.now }
{
    matches!(value, Value::Nil)
}

/// Whether nil stands at the key that is one more than this place.
fn is_gap(pairs: &IndexMap<Value, Value>, place: usize) -> bool
    requires { place < 2 ^ 63 - 1 }
    ensures { result ≡ is_nil (value_at pairs.now.entries (item_key place)) }
{
    let key = Value::Int(place as i64 + 1);
    match pairs.get(&key) {
        None => true,
        Some(value) => is_nil(value),
    }
}

/// The border, where it isn't below `from`.
fn border_from(pairs: &IndexMap<Value, Value>, from: usize) -> usize
    requires { IsFilled from pairs.now.entries }
    ensures value { result ≡ border pairs.now.entries }
    ensures filled { IsFilled result pairs.now.entries }
    ensures small { result < 2 ^ 63 }
{
    let most = pairs.len();
    for place in from..most {
        if is_gap(pairs, place) {
            return place;
        }
    }
    most
}

/// How far a table is filled once a value is put at a key.
fn filled_after(filled: usize, key: &Value, value: &Value) -> usize
    ensures { result ≡ filled_by filled key.now value.now }
{
    let Value::Int(number) = key else {
        return filled;
    };
    if *number < 1 {
        return filled;
    }
    let place = (*number - 1) as usize;
    if is_nil(value) {
        filled.min(place)
    } else if place == filled {
        place + 1
    } else {
        filled
    }
}

impl Table {
    /// A table without pairs and metatable.
    pub fn new(alloc: Global) -> Table
        ensures { result ≡ no_table }
    {
        Table {
            pairs: IndexMap::new(alloc),
            meta: None,
            filled: 0,
        }
    }

    /// The value at a key, or nil.
    pub fn get(&self, key: &Value) -> Result<Value, AllocError>
        ensures { IfOk result (λ v. v ≡ value_at self.now.pairs key.now) }
    {
        match self.pairs.get(key) {
            None => Ok(Value::Nil),
            Some(value) => value.clone(),
        }
    }

    /// Whether a key was ever put.
    pub fn has(&self, key: &Value) -> bool
        ensures { result ≡ was_put self.now.pairs key.now }
    {
        self.pairs.get(key).is_some()
    }

    /// Puts a value at a key. A key that was put before keeps its place.
    pub fn put(&mut self, key: Value, value: Value) -> Result<(), AllocError>
        ensures ok { OnOk result (self.new ≡ record self.old { pairs = with_pair self.old.pairs key value }) }
        ensures err { OnErr result (self.new ≡ self.old) }
        ensures absent { OnErr result (was_put self.old.pairs key ≡ false) }
    {
        let filled = filled_after(self.filled, &key, &value);
        let old = self.pairs.insert(key, value)?;
        drop(old);
        self.filled = filled.min(self.pairs.len());
        Ok(())
    }

    /// The least number at whose successor there is nil.
    pub fn border(&mut self) -> usize
        ensures value { result ≡ border self.old.pairs }
        ensures same { self.new ≡ self.old }
        ensures small { result < 2 ^ 63 }
    {
        let filled = border_from(&self.pairs, self.filled);
        self.filled = filled;
        filled
    }

    /// How many places it has.
    pub fn len(&self) -> usize
        ensures { result ≡ length self.now.pairs }
    {
        self.pairs.len()
    }

    /// The place behind that of a key, the first one behind nil.
    pub fn place_behind(&self, key: &Value) -> Option<usize>
        ensures behind { option_map (λ place. drop place self.now.pairs) result ≡ pairs_behind self.now.pairs key.now }
        ensures within { IfSome result (λ place. place ≤ length self.now.pairs) }
    {
        if is_nil(key) {
            return Some(0);
        }
        // There are fewer than 2^63 places.
        let _places = self.pairs.len();
        match self.pairs.get_index_of(key) {
            None => None,
            Some(place) => Some(place + 1),
        }
    }

    /// The pair at a place of the walk order.
    pub fn pair(&self, place: usize) -> Option<(&Value, &Value)>
        ensures { option_map deref_pair result ≡ slice_get self.now.pairs place }
    {
        self.pairs.get_index(place)
    }

    /// Its metatable.
    pub fn meta(&self) -> Option<TableId>
        ensures { result ≡ self.now.meta }
    {
        self.meta
    }

    /// Gives it this metatable, or none.
    pub fn set_meta(&mut self, meta: Option<TableId>)
        ensures { self.new ≡ record self.old { meta = meta } }
    {
        self.meta = meta;
    }
}
