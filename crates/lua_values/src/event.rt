//! What metamethods handle (Lua 5.2 manual, 2.4), and the keys that they stand at.

ghost use Rattle.std.specs.Prelude.{◌≡◌, Some, IfOk, slice_get};
ghost use Rattle.lua_meaning.specs.declared.value.Value.TheVariants as value;
ghost use Rattle.lua_values.specs.Events.{event_name, all_events, event_keys, keys_of_events};

use lua_meaning::{LuaText, Value};
use std::alloc::{AllocError, Global};
use std::marker::Model;

/// What a metamethod handles.
#[derive(Clone, Copy, PartialEq, Eq, Debug, Drop)]
pub enum Event {
    /// `a + b`.
    Add,
    /// `a - b`.
    Sub,
    /// `a * b`.
    Mul,
    /// `a / b`.
    Div,
    /// `a % b`.
    Mod,
    /// `a ^ b`.
    Pow,
    /// `-a`.
    Unm,
    /// `a .. b`.
    Concat,
    /// `#a`.
    Len,
    /// `a == b`.
    Eq,
    /// `a < b`.
    Lt,
    /// `a <= b`.
    Le,
    /// `a[b]`.
    Index,
    /// `a[b] = c`.
    NewIndex,
    /// `a(b)`.
    Call,
    /// `tostring(a)`.
    ToString,
    /// `pairs(a)`.
    Pairs,
    /// `ipairs(a)`.
    Ipairs,
    /// `getmetatable(a)` and `setmetatable(a, b)`.
    Metatable,
}

impl Event {
    /// The key of its metamethod.
    pub fn name(self) -> &'static str
        ensures { result.now ≡ event_name self }
    {
        match self {
            Event::Add => "__add",
            Event::Sub => "__sub",
            Event::Mul => "__mul",
            Event::Div => "__div",
            Event::Mod => "__mod",
            Event::Pow => "__pow",
            Event::Unm => "__unm",
            Event::Concat => "__concat",
            Event::Len => "__len",
            Event::Eq => "__eq",
            Event::Lt => "__lt",
            Event::Le => "__le",
            Event::Index => "__index",
            Event::NewIndex => "__newindex",
            Event::Call => "__call",
            Event::ToString => "__tostring",
            Event::Pairs => "__pairs",
            Event::Ipairs => "__ipairs",
            Event::Metatable => "__metatable",
        }
    }

    /// Its place among all.
    fn place(self) -> usize
        ensures { slice_get all_events result ≡ Some self }
    {
        match self {
            Event::Add => 0,
            Event::Sub => 1,
            Event::Mul => 2,
            Event::Div => 3,
            Event::Mod => 4,
            Event::Pow => 5,
            Event::Unm => 6,
            Event::Concat => 7,
            Event::Len => 8,
            Event::Eq => 9,
            Event::Lt => 10,
            Event::Le => 11,
            Event::Index => 12,
            Event::NewIndex => 13,
            Event::Call => 14,
            Event::ToString => 15,
            Event::Pairs => 16,
            Event::Ipairs => 17,
            Event::Metatable => 18,
        }
    }
}

const ALL: [Event; 19] = [
    Event::Add,
    Event::Sub,
    Event::Mul,
    Event::Div,
    Event::Mod,
    Event::Pow,
    Event::Unm,
    Event::Concat,
    Event::Len,
    Event::Eq,
    Event::Lt,
    Event::Le,
    Event::Index,
    Event::NewIndex,
    Event::Call,
    Event::ToString,
    Event::Pairs,
    Event::Ipairs,
    Event::Metatable,
];

/// The keys of all metamethods, made once.
#[derive(Drop)]
pub struct EventKeys {
    keys: Vec<Value>,
}

impl Model for EventKeys {
    ghost use Rattle.std.specs.Prelude.{◌≡◌, List};
    ghost use Rattle.lua_meaning.specs.declared.value.Value.{Value as ValueOf};
    ghost use Rattle.lua_values.specs.Events.{event_keys};

    ghost Value = { List ValueOf };

    ghost view = { λ k. k.keys.items };

    ghost invariant = { λ k. k.keys.items ≡ event_keys };
}

impl EventKeys {
    /// The keys, made.
    pub fn new(alloc: Global) -> Result<EventKeys, AllocError>
        ensures { IfOk result (λ k. k ≡ event_keys) }
    {
        let keys = all_keys(alloc, &ALL)?;
        Ok(EventKeys { keys })
    }

    /// The key of one.
    pub fn key(&self, event: Event) -> &Value
        ensures { result.now ≡ value.Text (event_name event) }
    {
        &self.keys[event.place()]
    }
}

/// The keys of these, in order.
fn all_keys(alloc: Global, events: &[Event]) -> Result<Vec<Value>, AllocError>
    ensures { IfOk result (λ keys. keys.items ≡ keys_of_events events.now) }
{
    let mut keys = Vec::new(alloc);
    for event in events {
        let text = LuaText::from_slice(alloc, event.name().as_bytes())?;
        keys.push(Value::Text(text))?;
    }
    Ok(keys)
}
