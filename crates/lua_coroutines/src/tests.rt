//! Frames on a stack, and the locals of a call, where there is memory.

use crate::{CallInProgress, Frame, Lines, OperandFrame, Stack};
use lua_meaning::{CellId, Slot, Value};
use lua_values::ValueList;
use std::test::Fail;

#[test]
fn frames_come_off_in_reverse(rt: HostRuntime) -> Result<(), Fail> {
    let mut stack = Stack::new(rt.alloc());
    stack.push(Frame::Operand(OperandFrame::Only))?;
    stack.push(Frame::Operand(OperandFrame::Metamethod {
        op: None,
        negated: true,
    }))?;
    assert!(rt;
        matches!(
            stack.pop(),
            Some(Frame::Operand(OperandFrame::Metamethod {
                op: None,
                negated: true
            }))
        )
    );
    assert!(rt; matches!(stack.pop(), Some(Frame::Operand(OperandFrame::Only))));
    assert!(rt; stack.pop().is_none());
    Ok(())
}

#[test]
fn locals_of_a_call(rt: HostRuntime) -> Result<(), Fail> {
    let alloc = rt.alloc();
    let mut call = CallInProgress::new(
        Vec::new(alloc),
        ValueList::of_one(alloc, Value::Int(7)),
        Lines::new(alloc),
        false,
    );
    call.declare(3, Slot::Held(Value::Nil))?;
    call.declare(4, Slot::Cell(CellId::new(9)))?;
    call.hold(3, Value::Bool(true));
    assert!(rt; matches!(call.slot(3), Some(Slot::Held(Value::Bool(true)))));
    call.cut(1);
    assert!(rt; call.slot(4).is_none());
    assert!(rt; call.local_count() == 1);
    call.cross();
    assert!(rt; call.is_across());
    assert!(rt; call.lines().is_empty());
    assert!(rt; call.varargs().len() == 1);
    Ok(())
}

#[test]
fn a_call_is_crossed(rt: HostRuntime) -> Result<(), Fail> {
    let alloc = rt.alloc();
    let call = CallInProgress::new(
        Vec::new(alloc),
        ValueList::new(alloc),
        Lines::new(alloc),
        false,
    );
    let crossed = call.crossed(alloc)?;
    assert!(rt; crossed.is_across());
    Ok(())
}
