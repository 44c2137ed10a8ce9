//! A step of each kind, where there is memory.

use crate::{count_given, is_true, operand_given, parts, plain_start, told};
use lua_ast::{BinOp, Chunk, ChunkBuilder, Node, NodeId};
use lua_coroutines::{CountFrame, OperandFrame};
use lua_meaning::Value;
use lua_steps::{Given, Mode};
use lua_values::ValueList;
use std::alloc::Global;
use std::test::Fail;

/// The number that a mode gives alone, if it does so.
fn number_given(given: Given) -> Option<i64> {
    match given {
        Given::Goes(Mode::Give(values)) => match values.into_first() {
            Value::Int(number) => Some(number),
            _ => None,
        },
        _ => None,
    }
}

/// The next number of a numeric `for`, if there is one.
fn next_number(alloc: Global, chunk: &Chunk, at: i64) -> Option<i64> {
    let frame = CountFrame::Turn {
        node: NodeId::new(0),
        at,
        limit: 9,
        step: 2,
        outer: 0,
        before: 0,
    };
    match count_given(alloc, chunk, frame, ValueList::new(alloc)) {
        Given::Cuts(_, Mode::Count { at, .. }) => Some(at),
        _ => None,
    }
}

/// A text of one `break`.
fn one_break(alloc: Global) -> Result<Chunk, Fail> {
    let mut builder = ChunkBuilder::new(alloc);
    let root = builder.push(Node::Break, 3)?;
    Ok(builder.finish(root))
}

#[test]
fn numbers_of_a_loop_have_64_bits(rt: HostRuntime) -> Result<(), Fail> {
    let alloc = rt.alloc();
    let chunk = one_break(alloc)?;
    assert!(rt; matches!(next_number(alloc, &chunk, 3), Some(5)));
    assert!(rt; next_number(alloc, &chunk, i64::MAX).is_none());
    assert!(rt; parts::line_number(&chunk, NodeId::new(0)) == 3);
    assert!(rt; parts::line_number(&chunk, NodeId::new(7)) == 0);
    Ok(())
}

#[test]
fn parentheses_give_the_first_value(rt: HostRuntime) -> Result<(), Fail> {
    let alloc = rt.alloc();
    let chunk = one_break(alloc)?;
    let values = ValueList::of_two(alloc, Value::Int(7), Value::Int(8));
    let given = operand_given(alloc, &chunk, OperandFrame::Only, values);
    assert!(rt; matches!(number_given(given), Some(7)));
    assert!(rt; !is_true(&told(BinOp::Ne, Value::Int(7))));
    assert!(rt;
        matches!(
            plain_start(alloc, NodeId::new(0), 0, &Node::Break),
            Some(Mode::Break)
        )
    );
    Ok(())
}
