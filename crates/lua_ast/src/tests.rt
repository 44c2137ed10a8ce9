//! A small chunk, built and read.

use crate::{AstText, AstTexts, Chunk, ChunkBuilder, Ids, Literal, Node, NodeId};
use std::alloc::{AllocError, Global};
use std::test::Fail;

/// `local x = 1` on line 2, in a text that begins on line 1.
fn local_chunk(alloc: Global) -> Result<Chunk, AllocError> {
    let mut nodes = ChunkBuilder::new(alloc);
    let value = Literal::Int(1);
    let one = nodes.push(Node::Const { value }, 2)?;
    let mut names = AstTexts::new(alloc);
    names.push(AstText::from_bytes(alloc, b"x")?)?;
    let mut exps = Ids::new(alloc);
    exps.push(one)?;
    let local = nodes.push(Node::Local { names, exps }, 2)?;
    let mut stats = Vec::new(alloc);
    stats.push(local)?;
    let stats = Ids::from_vec(stats);
    let root = nodes.push(Node::Block { stats }, 1)?;
    Ok(nodes.finish(root))
}

#[test]
fn a_chunk_is_built_and_read(rt: HostRuntime) -> Result<(), Fail> {
    let chunk = local_chunk(rt.alloc())?;
    assert_eq!(rt; chunk.len(), 3);
    assert_eq!(rt; chunk.root().number(), 2);
    assert_eq!(rt; chunk.line(chunk.root()), 1);
    let Node::Block { stats } = chunk.node(chunk.root()) else {
        return Err(Fail::from("no block"));
    };
    assert_eq!(rt; stats.len(), 1);
    let local = stats.get(0).ok_or("no statement")?;
    assert!(rt; local.index() < chunk.len());
    assert_eq!(rt; chunk.line(local), 2);
    let Node::Local { names, exps } = chunk.node(local) else {
        return Err(Fail::from("no local"));
    };
    assert_eq!(rt; names.len(), 1);
    assert!(rt; names.as_slice()[0].as_slice() == b"x".as_slice());
    assert_eq!(rt; exps.get(0).map(NodeId::number), Some(0));
    Ok(())
}
