//! Names and calls in a document.

ghost use Rattle.std.specs.Prelude.{◌≡◌, ◌-◌, ◌^◌, true, codes, IfOk};
ghost use Rattle.serde_json.specs.View.{view};
ghost use Rattle.zp_names.specs.Names.{is_valid_name};
ghost use Rattle.zp_names.specs.NameParts.{is_pool};
ghost use Rattle.zp_calls.specs.Names.{HasValidNames};
ghost use Rattle.zp_calls.specs.declared.call.Call.TheVariants as call;
ghost use Rattle.zc_doc.specs.Reading.{Gives, ok_map};
ghost use Rattle.zc_doc.specs.Calls.{any_name_at, pool_at, name_at, a_name, one, command_of, op_in, command_at, call_of, call_at};

use crate::DocError;
use crate::error::Path;
use crate::query::read_query;
use crate::reading::{Flag, NumberIn, Reader, Text, member, member_or, only_members};
use serde_json::Value;
use std::alloc::Global;
use zp_calls::Call;
use zp_names::{BadName, Command, Name};

/// Reads a valid name.
fn read_name(alloc: Global, value: &Value) -> Result<Name, DocError>
    ensures gives { Gives result (any_name_at (view value.now)) }
{
    let Some(text) = value.as_str() else {
        return Err(DocError::bad_type(alloc));
    };
    match Name::read(alloc, text.as_bytes()) {
        Ok(name) => Ok(name),
        Err(BadName::NoMemory) => Err(DocError::NoMemory),
        Err(_) => Err(DocError::bad_name(alloc)),
    }
}

/// The name of a pool.
#[derive(Drop)]
pub(crate) struct PoolName;

impl Reader for PoolName {
    type Out = Name;

    ghost reads = { λ _. pool_at };

    ghost Holds = { λ _ name. is_pool name ≡ true };

    fn read(&self, alloc: Global, value: &Value) -> Result<Name, DocError> {
        let name = read_name(alloc, value)?;
        if name.is_pool() {
            Ok(name)
        } else {
            Err(DocError::bad_name(alloc))
        }
    }
}

/// A name in a pool.
#[derive(Drop)]
pub(crate) struct NameIn<'a> {
    pub(crate) pool: &'a Name,
}

impl Reader for NameIn<'_> {
    type Out = Name;

    ghost reads = { λ r. name_at r.pool.now };

    ghost Holds = { λ _ name. is_valid_name name ≡ true };

    fn read(&self, alloc: Global, value: &Value) -> Result<Name, DocError> {
        let name = read_name(alloc, value)?;
        let _valid = name.text();
        if name.pool() == self.pool.text() {
            Ok(name)
        } else {
            Err(DocError::bad_name(alloc))
        }
    }
}

/// Reads the op that an object has.
fn read_op<'a>(alloc: Global, value: &'a Value) -> Result<&'a str, DocError>
    ensures { Gives (ok_map (λ op. op.now) result) (op_in (view value.now)) }
{
    if !value.is_object() {
        return Err(DocError::bad_type(alloc));
    }
    let path = Path::whole(alloc).behind(alloc, "op")?;
    match value.get("op") {
        Some(op) => match op.as_str() {
            Some(op) => Ok(op),
            None => Err(DocError::BadType(path)),
        },
        None => Err(DocError::Missing(path)),
    }
}

/// A command on datasets of a pool.
#[derive(Drop)]
pub(crate) struct CommandIn<'a> {
    pub(crate) pool: &'a Name,
}

impl Reader for CommandIn<'_> {
    type Out = Command;

    ghost reads = { λ r. command_at r.pool.now };

    ghost Holds = { λ _ c. HasValidNames (call.Command c) };

    fn read(&self, alloc: Global, value: &Value) -> Result<Command, DocError> {
        match read_op(alloc, value) {
            Ok(op) => read_command(alloc, self.pool, op, value),
            Err(error) => Err(error),
        }
    }
}

/// A call on datasets of a pool.
#[derive(Drop)]
pub(crate) struct CallIn<'a> {
    pub(crate) pool: &'a Name,
}

impl Reader for CallIn<'_> {
    type Out = Call;

    ghost reads = { λ r. call_at r.pool.now };

    ghost Holds = { λ _ c. HasValidNames c };

    fn read(&self, alloc: Global, value: &Value) -> Result<Call, DocError> {
        match read_op(alloc, value) {
            Ok(op) => read_call(alloc, self.pool, op, value),
            Err(error) => Err(error),
        }
    }
}

/// Reads the call of an op.
fn read_call(alloc: Global, pool: &Name, op: &str, value: &Value) -> Result<Call, DocError>
    ensures gives { Gives result (call_of pool.now op.now (view value.now)) }
    ensures names { IfOk result HasValidNames }
{
    match op {
        "exists" | "list" | "get" => Ok(Call::Query(read_query(alloc, pool, op, value)?)),
        _ => Ok(Call::Command(read_command(alloc, pool, op, value)?)),
    }
}

/// Reads the command of an op.
#[tactic(auto, unfolding(crate::specs::Calls::command_of))]
fn read_command(alloc: Global, pool: &Name, op: &str, value: &Value) -> Result<Command, DocError>
    ensures gives { Gives result (command_of pool.now op.now (view value.now)) }
    ensures names { IfOk result (λ c. HasValidNames (call.Command c)) }
{
    match op {
        "create" => Ok(Command::Create {
            name: only_name(alloc, pool, value)?,
        }),
        "create_volume" => read_create_volume(alloc, pool, value),
        "snapshot" => Ok(Command::Snapshot {
            name: only_name(alloc, pool, value)?,
        }),
        "clone" => read_clone(alloc, pool, value),
        "bookmark" => read_bookmark(alloc, pool, value),
        "mount" => Ok(Command::Mount {
            name: only_name(alloc, pool, value)?,
        }),
        "unmount" => Ok(Command::Unmount {
            name: only_name(alloc, pool, value)?,
        }),
        "rollback" => Ok(Command::Rollback {
            name: only_name(alloc, pool, value)?,
        }),
        "stamp" => read_stamp(alloc, pool, value),
        "rename_snapshot" => read_rename_snapshot(alloc, pool, value),
        "destroy" => read_destroy(alloc, pool, value),
        "promote" => Ok(Command::Promote {
            name: only_name(alloc, pool, value)?,
        }),
        "rename" => read_rename(alloc, pool, value),
        "set" => read_set(alloc, pool, value),
        "inherit" => read_inherit(alloc, pool, value),
        "hold" => read_hold(alloc, pool, value),
        "release" => read_release(alloc, pool, value),
        _ => Err(DocError::BadType(Path::whole(alloc).behind(alloc, "op")?)),
    }
}

#[tactic(auto, unfolding(crate::specs::Calls::command_of))]
fn read_create_volume(alloc: Global, pool: &Name, value: &Value) -> Result<Command, DocError>
    ensures gives { Gives result (command_of pool.now (codes "create_volume") (view value.now)) }
    ensures names { IfOk result (λ c. HasValidNames (call.Command c)) }
{
    only_members(alloc, &["op", "name", "volsize"], value)?;
    let size = NumberIn {
        low: 1,
        high: (1 << 63) - 1,
    };
    let name = member(alloc, &NameIn { pool }, "name", value)?;
    let volsize = member(alloc, &size, "volsize", value)?;
    Ok(Command::CreateVolume { name, volsize })
}

#[tactic(auto, unfolding(crate::specs::Calls::command_of))]
fn read_clone(alloc: Global, pool: &Name, value: &Value) -> Result<Command, DocError>
    ensures gives { Gives result (command_of pool.now (codes "clone") (view value.now)) }
    ensures names { IfOk result (λ c. HasValidNames (call.Command c)) }
{
    only_members(alloc, &["op", "source", "name"], value)?;
    let source = member(alloc, &NameIn { pool }, "source", value)?;
    let name = member(alloc, &NameIn { pool }, "name", value)?;
    Ok(Command::Clone { source, name })
}

#[tactic(auto, unfolding(crate::specs::Calls::command_of))]
fn read_bookmark(alloc: Global, pool: &Name, value: &Value) -> Result<Command, DocError>
    ensures gives { Gives result (command_of pool.now (codes "bookmark") (view value.now)) }
    ensures names { IfOk result (λ c. HasValidNames (call.Command c)) }
{
    only_members(alloc, &["op", "source", "name"], value)?;
    let source = member(alloc, &NameIn { pool }, "source", value)?;
    let name = member(alloc, &NameIn { pool }, "name", value)?;
    Ok(Command::Bookmark { source, name })
}

#[tactic(auto, unfolding(crate::specs::Calls::command_of))]
fn read_stamp(alloc: Global, pool: &Name, value: &Value) -> Result<Command, DocError>
    ensures gives { Gives result (command_of pool.now (codes "stamp") (view value.now)) }
    ensures names { IfOk result (λ c. HasValidNames (call.Command c)) }
{
    only_members(alloc, &["op", "name", "value"], value)?;
    let number = NumberIn {
        low: 0,
        high: (1 << 63) - 1,
    };
    let name = member(alloc, &NameIn { pool }, "name", value)?;
    let value = member(alloc, &number, "value", value)?;
    Ok(Command::Stamp { name, value })
}

#[tactic(auto, unfolding(crate::specs::Calls::command_of))]
fn read_rename_snapshot(alloc: Global, pool: &Name, value: &Value) -> Result<Command, DocError>
    ensures gives { Gives result (command_of pool.now (codes "rename_snapshot") (view value.now)) }
    ensures names { IfOk result (λ c. HasValidNames (call.Command c)) }
{
    only_members(alloc, &["op", "name", "old", "new"], value)?;
    let name = member(alloc, &NameIn { pool }, "name", value)?;
    let old = member(alloc, &Text, "old", value)?;
    let new = member(alloc, &Text, "new", value)?;
    Ok(Command::RenameSnapshot { name, old, new })
}

#[tactic(auto, unfolding(crate::specs::Calls::command_of))]
fn read_rename(alloc: Global, pool: &Name, value: &Value) -> Result<Command, DocError>
    ensures gives { Gives result (command_of pool.now (codes "rename") (view value.now)) }
    ensures names { IfOk result (λ c. HasValidNames (call.Command c)) }
{
    only_members(alloc, &["op", "name", "to"], value)?;
    let name = member(alloc, &NameIn { pool }, "name", value)?;
    let to = member(alloc, &NameIn { pool }, "to", value)?;
    Ok(Command::Rename { name, to })
}

#[tactic(auto, unfolding(crate::specs::Calls::command_of))]
fn read_set(alloc: Global, pool: &Name, value: &Value) -> Result<Command, DocError>
    ensures gives { Gives result (command_of pool.now (codes "set") (view value.now)) }
    ensures names { IfOk result (λ c. HasValidNames (call.Command c)) }
{
    only_members(alloc, &["op", "name", "prop", "value"], value)?;
    let name = member(alloc, &NameIn { pool }, "name", value)?;
    let prop = member(alloc, &Text, "prop", value)?;
    let value = member(alloc, &Text, "value", value)?;
    Ok(Command::Set { name, prop, value })
}

#[tactic(auto, unfolding(crate::specs::Calls::command_of))]
fn read_inherit(alloc: Global, pool: &Name, value: &Value) -> Result<Command, DocError>
    ensures gives { Gives result (command_of pool.now (codes "inherit") (view value.now)) }
    ensures names { IfOk result (λ c. HasValidNames (call.Command c)) }
{
    only_members(alloc, &["op", "name", "prop"], value)?;
    let name = member(alloc, &NameIn { pool }, "name", value)?;
    let prop = member(alloc, &Text, "prop", value)?;
    Ok(Command::Inherit { name, prop })
}

#[tactic(auto, unfolding(crate::specs::Calls::command_of))]
fn read_destroy(alloc: Global, pool: &Name, value: &Value) -> Result<Command, DocError>
    ensures gives { Gives result (command_of pool.now (codes "destroy") (view value.now)) }
    ensures names { IfOk result (λ c. HasValidNames (call.Command c)) }
{
    only_members(alloc, &["op", "name", "defer"], value)?;
    let name = member(alloc, &NameIn { pool }, "name", value)?;
    let defer = member_or(alloc, &Flag, false, "defer", value)?;
    Ok(Command::Destroy { name, defer })
}

#[tactic(auto, unfolding(crate::specs::Calls::command_of))]
fn read_hold(alloc: Global, pool: &Name, value: &Value) -> Result<Command, DocError>
    ensures gives { Gives result (command_of pool.now (codes "hold") (view value.now)) }
    ensures names { IfOk result (λ c. HasValidNames (call.Command c)) }
{
    only_members(alloc, &["op", "name", "tag"], value)?;
    let name = member(alloc, &NameIn { pool }, "name", value)?;
    let tag = member(alloc, &Text, "tag", value)?;
    Ok(Command::Hold { name, tag })
}

#[tactic(auto, unfolding(crate::specs::Calls::command_of))]
fn read_release(alloc: Global, pool: &Name, value: &Value) -> Result<Command, DocError>
    ensures gives { Gives result (command_of pool.now (codes "release") (view value.now)) }
    ensures names { IfOk result (λ c. HasValidNames (call.Command c)) }
{
    only_members(alloc, &["op", "name", "tag"], value)?;
    let name = member(alloc, &NameIn { pool }, "name", value)?;
    let tag = member(alloc, &Text, "tag", value)?;
    Ok(Command::Release { name, tag })
}

/// Reads the name of a call that has no other field.
pub(crate) fn only_name(alloc: Global, pool: &Name, value: &Value) -> Result<Name, DocError>
    ensures gives { Gives result (one (λ name. name) (a_name pool.now (codes "name")) (view value.now)) }
    ensures valid { IfOk result (λ name. is_valid_name name ≡ true) }
{
    only_members(alloc, &["op", "name"], value)?;
    member(alloc, &NameIn { pool }, "name", value)
}
