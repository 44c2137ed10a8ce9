//! Names of built-ins, and texts and values where there is memory.

use crate::{Builtin, LuaText, TableId, Value};
use std::test::Fail;

#[test]
fn names_of_built_ins() {
    prove!(Builtin::Next.name() == "next");
    prove!(Builtin::StringRep.name() == "string.rep");
    prove!(Builtin::ZfsSyncRenameSnapshot.name() == "zfs.sync.rename_snapshot");
    prove!(Builtin::IpairsIterator.name() == "ipairs iterator");
}

#[test]
fn copies_of_texts(rt: HostRuntime) -> Result<(), Fail> {
    let text = LuaText::from_slice(rt.alloc(), b"a\0b")?;
    let copy = text.clone()?;
    assert!(rt; copy == text);
    assert!(rt; copy.as_slice() == b"a\0b".as_slice());
    Ok(())
}

#[test]
fn values_of_a_kind(rt: HostRuntime) -> Result<(), Fail> {
    let text = Value::Text(LuaText::from_slice(rt.alloc(), b"1")?);
    let copy = text.clone()?;
    assert!(rt; copy == text);
    assert!(rt; Value::Int(1) != text);
    assert!(rt; Value::Table(TableId::new(1)) != Value::Table(TableId::new(2)));
    assert!(rt; Value::default() == Value::Nil);
    Ok(())
}
