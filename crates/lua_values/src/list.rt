//! Lists of arguments and results.

ghost use Rattle.std.specs.Prelude.{◌≡◌, ◌↔◌, [], ◌∷◌, ◌++◌, length, take, drop, IsTrue, IfOk, OnOk, OnErr, slice_get, slice_set};
ghost use Rattle.std.specs.Option.{option_copied};
ghost use Rattle.lua_meaning.specs.Values.{first, or_nil};
ghost use Rattle.lua_meaning.specs.declared.value.Value.TheVariants as value;

use lua_meaning::Value;
use smallvec::SmallVec;
use std::alloc::Global;
use std::marker::Model;
use std::mem;
use zc_io::NoMemory;

/// A list of arguments or results, seen as the list of its values. Up to four take no memory.
#[derive(Drop)]
pub struct ValueList {
    items: SmallVec<Value, 4>,
}

impl Model for ValueList {
    ghost use Rattle.std.specs.Prelude.{List};
    ghost use Rattle.lua_meaning.specs.declared.value.Value.{Value as ValueOf};

    ghost Value = { List ValueOf };

    ghost view = { λ list. list.items.items };
}

impl ValueList {
    /// No values.
    pub fn new(alloc: Global) -> ValueList
        ensures { result ≡ [] }
    {
        ValueList {
            items: SmallVec::new(alloc),
        }
    }

    /// One value.
    pub fn of_one(alloc: Global, value: Value) -> ValueList
        ensures { result ≡ value ∷ [] }
    {
        let mut items = SmallVec::new(alloc);
        items.push_reserved(value);
        ValueList { items }
    }

    /// Two values.
    pub fn of_two(alloc: Global, first: Value, second: Value) -> ValueList
        ensures { result ≡ first ∷ second ∷ [] }
    {
        let mut items = SmallVec::new(alloc);
        items.push_reserved(first);
        items.push_reserved(second);
        ValueList { items }
    }

    /// Copies of these values.
    pub fn from_slice(alloc: Global, values: &[Value]) -> Result<ValueList, NoMemory>
        ensures { IfOk result (λ list. list ≡ values.now) }
    {
        let mut items = SmallVec::new(alloc);
        for value in values {
            items.push(value.clone()?)?;
        }
        Ok(ValueList { items })
    }

    /// How many values there are.
    pub fn len(&self) -> usize
        ensures { result ≡ length self.now }
    {
        self.items.len()
    }

    /// Whether there is none.
    pub fn is_empty(&self) -> bool
        ensures { IsTrue result ↔ (self.now ≡ []) }
    {
        self.items.len() == 0
    }

    /// The values, lent.
    pub fn as_slice(&self) -> &[Value]
        ensures { result.now ≡ self.now }
    {
        self.items.as_slice()
    }

    /// The value at a place, from 0.
    pub fn get(&self, place: usize) -> Option<&Value>
        ensures { option_copied result ≡ slice_get self.now place }
    {
        self.items.as_slice().get(place)
    }

    /// Adds a value at the end.
    pub fn push(&mut self, value: Value) -> Result<(), NoMemory>
        ensures ok { OnOk result (self.new ≡ self.old ++ value ∷ []) }
        ensures err { OnErr result (self.new ≡ self.old) }
    {
        self.items.push(value)?;
        Ok(())
    }

    /// Adds a value in front of the others.
    pub fn push_first(&mut self, value: Value) -> Result<(), NoMemory>
        ensures ok { OnOk result (self.new ≡ value ∷ self.old) }
        ensures err { OnErr result (self.new ≡ self.old) }
    {
        self.items.insert(0, value)?;
        Ok(())
    }

    /// Adds values at the end.
    pub fn append(&mut self, mut others: ValueList) -> Result<(), NoMemory>
        ensures ok { OnOk result (self.new ≡ self.old ++ others) }
        ensures err { OnErr result (self.new ≡ self.old) }
    {
        self.items.append(&mut others.items)?;
        Ok(())
    }

    /// Keeps the first values, so many at most.
    pub fn truncate(&mut self, most: usize)
        ensures { self.new ≡ take most self.old }
    {
        self.items.truncate(most);
    }

    /// Takes the value at a place, from 0, or nil where there is none. Nil stays in its place.
    pub fn take_at(&mut self, place: usize) -> Value
        ensures value { result ≡ or_nil (slice_get self.old place) }
        ensures others { self.new ≡ slice_set self.old place value.Nil }
    {
        match self.items.get_mut(place) {
            Some(value) => mem::take(value),
            None => Value::Nil,
        }
    }

    /// Takes the first value, or nil where there is none. The others move up.
    pub fn take_first(&mut self) -> Value
        ensures value { result ≡ first self.old }
        ensures others { self.new ≡ drop 1 self.old }
    {
        if self.items.len() == 0 {
            return Value::Nil;
        }
        self.items.remove(0)
    }

    /// The first value, or nil where there is none.
    pub fn into_first(self) -> Value
        ensures { result ≡ first self }
    {
        let ValueList { items } = self;
        items.into_iter().next().unwrap_or(Value::Nil)
    }
}
