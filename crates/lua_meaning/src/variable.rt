//! Variables (Lua 5.2 manual, 3.2 and 3.3.3).

use crate::ids::CellId;
use crate::text::LuaText;
use crate::value::Value;

/// Where a local variable lives: in its call, or among the variables that closures share.
#[derive(Drop)]
pub enum Slot {
    Held(Value),
    Cell(CellId),
}

/// Where an assignment stores a value.
#[derive(Drop)]
pub enum Target {
    /// The local of this number, which lives in its call.
    Local(u32),
    /// A shared variable.
    Cell(CellId),
    /// The global of this name.
    Global(LuaText),
    /// `object[key]`
    Entry { object: Value, key: Value },
    /// What is no variable. No text has one.
    Nowhere,
}
