//! The functions that a program starts with.

ghost use Rattle.std.specs.Prelude.{◌≡◌};
ghost use Rattle.lua_meaning.specs.Builtins.{name_of};

/// A function that a program starts with, of the basic functions, `coroutine`, `string` and `table`
/// (Lua 5.2 manual, 6.1, 6.2, 6.4 and 6.5) and of `zfs` (zfs-program(8)), or the iterator of `ipairs`.
#[derive(Clone, Copy, PartialEq, Eq, Hash, Debug, Drop)]
pub enum Builtin {
    /// `assert(v, m)`.
    Assert,
    /// `collectgarbage()`, which changes nothing.
    CollectGarbage,
    /// `error(v, level)`.
    Error,
    /// `getmetatable(v)`.
    GetMetatable,
    /// `setmetatable(t, m)`.
    SetMetatable,
    /// `ipairs(t)`.
    Ipairs,
    /// The iterator that `ipairs` gives.
    IpairsIterator,
    /// `pairs(t)`.
    Pairs,
    /// `next(t, k)`, which is the iterator that `pairs` gives too.
    Next,
    /// `rawequal(a, b)`.
    RawEqual,
    /// `rawget(t, k)`.
    RawGet,
    /// `rawlen(v)`.
    RawLen,
    /// `rawset(t, k, v)`.
    RawSet,
    /// `select(n, ..)`.
    Select,
    /// `tonumber(v, base)`.
    ToNumber,
    /// `tostring(v)`.
    ToString,
    /// `type(v)`.
    Type,
    /// `coroutine.create(f)`.
    CoroutineCreate,
    /// `coroutine.wrap(f)`.
    CoroutineWrap,
    /// `coroutine.resume(c, ..)`.
    CoroutineResume,
    /// `coroutine.yield(..)`.
    CoroutineYield,
    /// `coroutine.running()`.
    CoroutineRunning,
    /// `coroutine.status(c)`.
    CoroutineStatus,
    /// `table.concat(t, sep, i, j)`.
    TableConcat,
    /// `table.insert(t, pos, v)`.
    TableInsert,
    /// `table.remove(t, pos)`.
    TableRemove,
    /// `table.pack(..)`.
    TablePack,
    /// `table.unpack(t, i, j)`.
    TableUnpack,
    /// `table.sort(t)`.
    TableSort,
    /// `string.byte(s, i, j)`.
    StringByte,
    /// `string.char(..)`.
    StringChar,
    /// `string.len(s)`.
    StringLen,
    /// `string.rep(s, n, sep)`.
    StringRep,
    /// `string.reverse(s)`.
    StringReverse,
    /// `string.sub(s, i, j)`.
    StringSub,
    /// `string.lower(s)`.
    StringLower,
    /// `string.upper(s)`.
    StringUpper,
    /// `string.find(s, t, i, true)`.
    StringFind,
    /// `string.format(f, ..)`.
    StringFormat,
    /// `string.match(s, pattern, i)`.
    StringMatch,
    /// `string.gmatch(s, pattern)`.
    StringGmatch,
    /// `string.gsub(s, pattern, replacement, n)`.
    StringGsub,
    /// `zfs.exists(dataset)`.
    ZfsExists,
    /// `zfs.debug(message)`.
    ZfsDebug,
    /// `zfs.get_prop(dataset, property)`.
    ZfsGetProp,
    /// `zfs.list.children(dataset)`.
    ZfsListChildren,
    /// `zfs.list.snapshots(dataset)`.
    ZfsListSnapshots,
    /// `zfs.list.bookmarks(dataset)`.
    ZfsListBookmarks,
    /// `zfs.list.clones(snapshot)`.
    ZfsListClones,
    /// `zfs.list.holds(snapshot)`.
    ZfsListHolds,
    /// `zfs.list.user_properties(dataset)`.
    ZfsListUserProperties,
    /// `zfs.list.properties(dataset)`, an older name of `user_properties`.
    ZfsListProperties,
    /// `zfs.list.system_properties(dataset)`.
    ZfsListSystemProperties,
    /// `zfs.sync.destroy(dataset)`.
    ZfsSyncDestroy,
    /// `zfs.sync.promote(dataset)`.
    ZfsSyncPromote,
    /// `zfs.sync.rollback(filesystem)`.
    ZfsSyncRollback,
    /// `zfs.sync.snapshot(dataset)`.
    ZfsSyncSnapshot,
    /// `zfs.sync.inherit(dataset, property)`.
    ZfsSyncInherit,
    /// `zfs.sync.set_prop(dataset, property, value)`.
    ZfsSyncSetProp,
    /// `zfs.sync.rename_snapshot(filesystem, old, new)`.
    ZfsSyncRenameSnapshot,
    /// `zfs.sync.bookmark(source, new)`.
    ZfsSyncBookmark,
    /// `zfs.check.destroy(dataset)`.
    ZfsCheckDestroy,
    /// `zfs.check.promote(dataset)`.
    ZfsCheckPromote,
    /// `zfs.check.rollback(filesystem)`.
    ZfsCheckRollback,
    /// `zfs.check.snapshot(dataset)`.
    ZfsCheckSnapshot,
    /// `zfs.check.inherit(dataset, property)`.
    ZfsCheckInherit,
    /// `zfs.check.set_prop(dataset, property, value)`.
    ZfsCheckSetProp,
    /// `zfs.check.rename_snapshot(filesystem, old, new)`.
    ZfsCheckRenameSnapshot,
    /// `zfs.check.bookmark(source, new)`.
    ZfsCheckBookmark,
}

impl Builtin {
    /// Its name, with the table that it stands in.
    pub fn name(self) -> &'static str
        ensures { result.now ≡ name_of self }
    {
        match self {
            Builtin::Assert => "assert",
            Builtin::CollectGarbage => "collectgarbage",
            Builtin::Error => "error",
            Builtin::GetMetatable => "getmetatable",
            Builtin::SetMetatable => "setmetatable",
            Builtin::Ipairs => "ipairs",
            Builtin::IpairsIterator => "ipairs iterator",
            Builtin::Pairs => "pairs",
            Builtin::Next => "next",
            Builtin::RawEqual => "rawequal",
            Builtin::RawGet => "rawget",
            Builtin::RawLen => "rawlen",
            Builtin::RawSet => "rawset",
            Builtin::Select => "select",
            Builtin::ToNumber => "tonumber",
            Builtin::ToString => "tostring",
            Builtin::Type => "type",
            Builtin::CoroutineCreate => "coroutine.create",
            Builtin::CoroutineWrap => "coroutine.wrap",
            Builtin::CoroutineResume => "coroutine.resume",
            Builtin::CoroutineYield => "coroutine.yield",
            Builtin::CoroutineRunning => "coroutine.running",
            Builtin::CoroutineStatus => "coroutine.status",
            Builtin::TableConcat => "table.concat",
            Builtin::TableInsert => "table.insert",
            Builtin::TableRemove => "table.remove",
            Builtin::TablePack => "table.pack",
            Builtin::TableUnpack => "table.unpack",
            Builtin::TableSort => "table.sort",
            Builtin::StringByte => "string.byte",
            Builtin::StringChar => "string.char",
            Builtin::StringLen => "string.len",
            Builtin::StringRep => "string.rep",
            Builtin::StringReverse => "string.reverse",
            Builtin::StringSub => "string.sub",
            Builtin::StringLower => "string.lower",
            Builtin::StringUpper => "string.upper",
            Builtin::StringFind => "string.find",
            Builtin::StringFormat => "string.format",
            Builtin::StringMatch => "string.match",
            Builtin::StringGmatch => "string.gmatch",
            Builtin::StringGsub => "string.gsub",
            Builtin::ZfsExists => "zfs.exists",
            Builtin::ZfsDebug => "zfs.debug",
            Builtin::ZfsGetProp => "zfs.get_prop",
            Builtin::ZfsListChildren => "zfs.list.children",
            Builtin::ZfsListSnapshots => "zfs.list.snapshots",
            Builtin::ZfsListBookmarks => "zfs.list.bookmarks",
            Builtin::ZfsListClones => "zfs.list.clones",
            Builtin::ZfsListHolds => "zfs.list.holds",
            Builtin::ZfsListUserProperties => "zfs.list.user_properties",
            Builtin::ZfsListProperties => "zfs.list.properties",
            Builtin::ZfsListSystemProperties => "zfs.list.system_properties",
            Builtin::ZfsSyncDestroy => "zfs.sync.destroy",
            Builtin::ZfsSyncPromote => "zfs.sync.promote",
            Builtin::ZfsSyncRollback => "zfs.sync.rollback",
            Builtin::ZfsSyncSnapshot => "zfs.sync.snapshot",
            Builtin::ZfsSyncInherit => "zfs.sync.inherit",
            Builtin::ZfsSyncSetProp => "zfs.sync.set_prop",
            Builtin::ZfsSyncRenameSnapshot => "zfs.sync.rename_snapshot",
            Builtin::ZfsSyncBookmark => "zfs.sync.bookmark",
            Builtin::ZfsCheckDestroy => "zfs.check.destroy",
            Builtin::ZfsCheckPromote => "zfs.check.promote",
            Builtin::ZfsCheckRollback => "zfs.check.rollback",
            Builtin::ZfsCheckSnapshot => "zfs.check.snapshot",
            Builtin::ZfsCheckInherit => "zfs.check.inherit",
            Builtin::ZfsCheckSetProp => "zfs.check.set_prop",
            Builtin::ZfsCheckRenameSnapshot => "zfs.check.rename_snapshot",
            Builtin::ZfsCheckBookmark => "zfs.check.bookmark",
        }
    }
}
