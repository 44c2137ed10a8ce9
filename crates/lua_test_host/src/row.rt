//! What each of the few functions is there for.

ghost use Rattle.std.specs.Prelude.{◌≡◌};
ghost use Rattle.lua_test_host.specs.FewFunctions.{row_of};

use lua_values::Builtin;

/// What a built-in is there for.
#[derive(Clone, Copy, PartialEq, Eq, Debug, Drop)]
pub enum Row {
    /// `setmetatable(t, m)`: t, with this metatable.
    SetsMetatable,
    /// `error(v)`: raises v.
    Raises,
    /// `collectgarbage(v)`: stops, by memory where v is nil, else by instructions.
    Stops,
    /// `pairs(f, ..)`: the first three results of `f(..)`.
    CallsForThree,
    /// `tostring(f, ..)`: the first result of `f(..)`, a text.
    CallsForText,
    /// `table.unpack(..)`: its arguments, twice.
    GivesTwice,
    /// `zfs.list.children(text)`: an iterator function.
    MakesIterator,
    /// Any other raises an error.
    IsNone,
}

/// What this built-in is there for.
pub(crate) fn row_of(id: Builtin) -> Row
    ensures { result ≡ row_of id }
{
    match id {
        Builtin::SetMetatable => Row::SetsMetatable,
        Builtin::Error => Row::Raises,
        Builtin::CollectGarbage => Row::Stops,
        Builtin::Pairs => Row::CallsForThree,
        Builtin::ToString => Row::CallsForText,
        Builtin::TableUnpack => Row::GivesTwice,
        Builtin::ZfsListChildren => Row::MakesIterator,
        _ => Row::IsNone,
    }
}
