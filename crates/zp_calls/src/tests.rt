//! Copies succeed where there is memory; a JSON text tells its value; calls of programs cross threads.

use super::*;
use lua_scope::LoadError;
use serde_json::Value;
use std::test::Fail;
use zc_budget::GREATEST_BYTES;
use zp_names::{Command, Name, Query};

/// The name that the call names.
fn name_of(call: &Call) -> &str {
    match call {
        Call::Command(Command::Create { name }) => name.text(),
        Call::Query(Query::Exists { name }) => name.text(),
        Call::Query(Query::List { name, .. }) => name.text(),
        Call::Query(Query::Get { name, .. }) => name.text(),
        Call::Command(_) => "",
    }
}

#[test]
fn commands_are_copied(rt: HostRuntime) -> Result<(), Fail> {
    let alloc = rt.alloc();
    let name = Name::read(alloc, b"rpool/a")?;
    let copy = Call::Command(Command::Create { name }).copy(alloc)?;
    let is_same = name_of(&copy) == "rpool/a";
    drop(copy);
    assert!(rt; is_same);
    Ok(())
}

#[test]
fn queries_are_copied(rt: HostRuntime) -> Result<(), Fail> {
    let alloc = rt.alloc();
    let name = Name::read(alloc, b"rpool/b")?;
    let copy = Call::Query(Query::Exists { name }).copy(alloc)?;
    let is_same = name_of(&copy) == "rpool/b";
    drop(copy);
    assert!(rt; is_same);
    Ok(())
}

/// Lends what may be handed to another thread.
fn lent_across<X: Send + Sync>(item: &X) -> &X {
    item
}

/// The second limit of a copy of a call whose text does not load.
fn copied_limit() -> Result<u64, Fail> {
    let call = ProgramCall::new(Err(LoadError::NoLabel(3)), 1, GREATEST_BYTES, false);
    let copy = lent_across(&call).copy()?;
    Ok(copy.memory())
}

#[test]
fn calls_of_programs_are_copied(rt: HostRuntime) -> Result<(), Fail> {
    let limit = copied_limit()?;
    assert!(rt; limit == GREATEST_BYTES);
    Ok(())
}

#[test]
fn a_text_tells_its_value(rt: HostRuntime) -> Result<(), Fail> {
    let alloc = rt.alloc();
    let text = JsonText::of(alloc, &Value::Null)?;
    let told = lent_across(&text).value(alloc)?.is_null();
    let is_same = text.text() == "null";
    assert!(rt; told);
    assert!(rt; is_same);
    Ok(())
}
