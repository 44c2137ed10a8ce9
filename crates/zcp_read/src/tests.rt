//! The root of a new pool, asked for what it has.

ghost use Rattle.std.specs.Prelude.{IfOk};
ghost use Rattle.zp_tree.specs.WellFormed.{IsWellFormed};

use super::*;
use std::alloc::Global;
use std::test::Fail;
use zp_calls::Reply;
use zp_names::{Bytes, ListKind, Name, Query};
use zp_props::PropValue;
use zp_tree::PlainTree;

fn new_pool(alloc: Global) -> Result<PlainTree, Fail>
    ensures { IfOk result (λ t. IsWellFormed t.tree) }
{
    let name = Name::read(alloc, b"rpool")?;
    Ok(PlainTree::new(alloc, &name)?)
}

fn get(alloc: Global, prop: &[u8]) -> Result<Query, Fail> {
    Ok(Query::Get {
        name: Name::read(alloc, b"rpool")?,
        prop: Bytes::from_bytes(alloc, prop)?,
    })
}

/// Whether the reply is this word, told without a source.
fn is_word(reply: &Reply, word: &[u8]) -> bool {
    match reply {
        Reply::Prop {
            value: Some(PropValue::Text(text)),
            source: None,
        } => text.as_slice() == word,
        _ => false,
    }
}

/// Whether the reply is this number, from this source.
fn is_number(reply: &Reply, number: u64, from: &[u8]) -> bool {
    match reply {
        Reply::Prop {
            value: Some(PropValue::Number(n)),
            source: Some(source),
        } => *n == number && source.as_slice() == from,
        _ => false,
    }
}

fn count_of_names(reply: &Reply) -> Option<usize> {
    match reply {
        Reply::Names(names) => Some(names.as_slice().len()),
        _ => None,
    }
}

#[test]
fn the_root_tells_what_it_is(rt: HostRuntime) -> Result<(), Fail> {
    let alloc = rt.alloc();
    let tree = new_pool(alloc)?;
    let reply = query(alloc, &tree, &get(alloc, b"type")?)?;
    assert!(rt; is_word(&reply, b"filesystem"));
    let reply = query(alloc, &tree, &get(alloc, b"copies")?)?;
    assert!(rt; is_number(&reply, 1, b"default"));
    Ok(())
}

#[test]
fn nothing_is_below_a_new_root(rt: HostRuntime) -> Result<(), Fail> {
    let alloc = rt.alloc();
    let tree = new_pool(alloc)?;
    let list = Query::List {
        kind: ListKind::Children,
        name: Name::read(alloc, b"rpool")?,
        after: Bytes::new(alloc),
        limit: 256,
    };
    let reply = query(alloc, &tree, &list)?;
    assert_eq!(rt; count_of_names(&reply), Some(0));
    Ok(())
}
