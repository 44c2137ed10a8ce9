//! The globals, and the tables that a program starts with.

ghost use Rattle.std.specs.Prelude.{◌≡◌, [], ◌∷◌, drop, length, IfOk, OnOk};
ghost use Rattle.lua_meaning.specs.Builtins.{name_of};
ghost use Rattle.lua_values.specs.Start.{functions, named_numbers, subtable, with_pairs, plain_table, zfs_pairs, globals, start_tables};

use crate::table::Table;
use lua_meaning::{Builtin, LuaText, TableId, Value};
use std::alloc::{AllocError, Global};

const BASIC: [Builtin; 16] = [
    Builtin::Assert,
    Builtin::CollectGarbage,
    Builtin::Error,
    Builtin::GetMetatable,
    Builtin::SetMetatable,
    Builtin::Ipairs,
    Builtin::Pairs,
    Builtin::Next,
    Builtin::RawEqual,
    Builtin::RawGet,
    Builtin::RawLen,
    Builtin::RawSet,
    Builtin::Select,
    Builtin::ToNumber,
    Builtin::ToString,
    Builtin::Type,
];

const COROUTINE: [Builtin; 6] = [
    Builtin::CoroutineCreate,
    Builtin::CoroutineWrap,
    Builtin::CoroutineResume,
    Builtin::CoroutineYield,
    Builtin::CoroutineRunning,
    Builtin::CoroutineStatus,
];

const STRING: [Builtin; 10] = [
    Builtin::StringByte,
    Builtin::StringChar,
    Builtin::StringLen,
    Builtin::StringRep,
    Builtin::StringReverse,
    Builtin::StringSub,
    Builtin::StringLower,
    Builtin::StringUpper,
    Builtin::StringFind,
    Builtin::StringFormat,
];

const TABLE: [Builtin; 6] = [
    Builtin::TableConcat,
    Builtin::TableInsert,
    Builtin::TableRemove,
    Builtin::TablePack,
    Builtin::TableUnpack,
    Builtin::TableSort,
];

const ZFS: [Builtin; 3] = [Builtin::ZfsExists, Builtin::ZfsDebug, Builtin::ZfsGetProp];

const LIST: [Builtin; 8] = [
    Builtin::ZfsListChildren,
    Builtin::ZfsListSnapshots,
    Builtin::ZfsListBookmarks,
    Builtin::ZfsListClones,
    Builtin::ZfsListHolds,
    Builtin::ZfsListUserProperties,
    Builtin::ZfsListProperties,
    Builtin::ZfsListSystemProperties,
];

const CHECK: [Builtin; 8] = [
    Builtin::ZfsCheckDestroy,
    Builtin::ZfsCheckPromote,
    Builtin::ZfsCheckRollback,
    Builtin::ZfsCheckSnapshot,
    Builtin::ZfsCheckInherit,
    Builtin::ZfsCheckSetProp,
    Builtin::ZfsCheckRenameSnapshot,
    Builtin::ZfsCheckBookmark,
];

const SYNC: [Builtin; 8] = [
    Builtin::ZfsSyncDestroy,
    Builtin::ZfsSyncPromote,
    Builtin::ZfsSyncRollback,
    Builtin::ZfsSyncSnapshot,
    Builtin::ZfsSyncInherit,
    Builtin::ZfsSyncSetProp,
    Builtin::ZfsSyncRenameSnapshot,
    Builtin::ZfsSyncBookmark,
];

/// The error numbers that zfs-program(8) names, as Linux has them.
const ERRORS: [(&str, i64); 35] = [
    ("EPERM", 1),
    ("ENOENT", 2),
    ("ESRCH", 3),
    ("EINTR", 4),
    ("EIO", 5),
    ("ENXIO", 6),
    ("E2BIG", 7),
    ("ENOEXEC", 8),
    ("EBADF", 9),
    ("ECHILD", 10),
    ("EAGAIN", 11),
    ("ENOMEM", 12),
    ("EACCES", 13),
    ("EFAULT", 14),
    ("ENOTBLK", 15),
    ("EBUSY", 16),
    ("EEXIST", 17),
    ("EXDEV", 18),
    ("ENODEV", 19),
    ("ENOTDIR", 20),
    ("EISDIR", 21),
    ("EINVAL", 22),
    ("ENFILE", 23),
    ("EMFILE", 24),
    ("ENOTTY", 25),
    ("ETXTBSY", 26),
    ("EFBIG", 27),
    ("ENOSPC", 28),
    ("ESPIPE", 29),
    ("EROFS", 30),
    ("EMLINK", 31),
    ("EPIPE", 32),
    ("EDOM", 33),
    ("ERANGE", 34),
    ("EDQUOT", 122),
];

/// The name of a built-in, behind that of the table that it stands in.
fn short_name(builtin: Builtin, table: &str) -> &'static [u8]
    ensures { result.now ≡ drop (length table.now) (name_of builtin) }
{
    let name = builtin.name().as_bytes();
    &name[table.len().min(name.len())..]
}

/// Puts functions of a table, in order.
fn put_functions(
    alloc: Global,
    table: &mut Table,
    name: &str,
    builtins: &[Builtin],
) -> Result<(), AllocError>
    ensures { OnOk result (table.new ≡ record table.old { pairs = with_pairs table.old.pairs (functions name.now builtins.now) }) }
{
    for builtin in builtins {
        let key = Value::Text(LuaText::from_slice(alloc, short_name(*builtin, name))?);
        table.put(key, Value::Builtin(*builtin))?;
    }
    Ok(())
}

/// Puts numbers by name.
fn put_numbers(alloc: Global, table: &mut Table, values: &[(&str, i64)]) -> Result<(), AllocError>
    ensures { OnOk result (table.new ≡ record table.old { pairs = with_pairs table.old.pairs (named_numbers values.now) }) }
{
    for (name, number) in values {
        let key = Value::Text(LuaText::from_slice(alloc, name.as_bytes())?);
        table.put(key, Value::Int(*number))?;
    }
    Ok(())
}

/// A table of functions.
fn table_of(alloc: Global, name: &str, builtins: &[Builtin]) -> Result<Table, AllocError>
    ensures { IfOk result (λ t. t ≡ plain_table (with_pairs [] (functions name.now builtins.now))) }
{
    let mut table = Table::new(alloc);
    put_functions(alloc, &mut table, name, builtins)?;
    Ok(table)
}

/// Puts a table by name.
fn put_table(alloc: Global, table: &mut Table, name: &str, number: u32) -> Result<(), AllocError>
    ensures { OnOk result (table.new ≡ record table.old { pairs = with_pairs table.old.pairs (subtable name.now number ∷ []) }) }
{
    let key = Value::Text(LuaText::from_slice(alloc, name.as_bytes())?);
    table.put(key, Value::Table(TableId::new(number)))
}

/// The table `zfs`.
#[tactic(auto, unfolding(crate::specs::Start::zfs_pairs))]
fn zfs(alloc: Global) -> Result<Table, AllocError>
    ensures { IfOk result (λ t. t ≡ plain_table zfs_pairs) }
{
    let mut table = table_of(alloc, "zfs.", &ZFS)?;
    put_table(alloc, &mut table, "list", 5)?;
    put_table(alloc, &mut table, "sync", 7)?;
    put_table(alloc, &mut table, "check", 6)?;
    Ok(table)
}

/// The table of globals.
#[tactic(auto, unfolding(crate::specs::Start::globals))]
fn globals(alloc: Global) -> Result<Table, AllocError>
    ensures { IfOk result (λ t. t ≡ plain_table globals) }
{
    let mut table = table_of(alloc, "", &BASIC)?;
    put_table(alloc, &mut table, "coroutine", 1)?;
    put_table(alloc, &mut table, "string", 2)?;
    put_table(alloc, &mut table, "table", 3)?;
    put_table(alloc, &mut table, "zfs", 4)?;
    put_numbers(alloc, &mut table, &ERRORS)?;
    Ok(table)
}

/// All tables that a program starts with, by number.
pub fn start_tables(alloc: Global) -> Result<Vec<Table>, AllocError>
    ensures { IfOk result (λ tables. tables.items ≡ start_tables) }
{
    let mut tables = Vec::new(alloc);
    tables.push(globals(alloc)?)?;
    tables.push(table_of(alloc, "coroutine.", &COROUTINE)?)?;
    tables.push(table_of(alloc, "string.", &STRING)?)?;
    tables.push(table_of(alloc, "table.", &TABLE)?)?;
    tables.push(zfs(alloc)?)?;
    tables.push(table_of(alloc, "zfs.list.", &LIST)?)?;
    tables.push(table_of(alloc, "zfs.check.", &CHECK)?)?;
    tables.push(table_of(alloc, "zfs.sync.", &SYNC)?)?;
    Ok(tables)
}
