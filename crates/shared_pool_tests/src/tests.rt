//! The pool on one thread, and a run on threads with its history.
use crate::counter::TOO_MUCH;
use crate::{add_on_threads, advance, ask, collect, counter_for_one, end_for_one, submit_addition};
use shared_pool::{Advanced, Refusal};
use std::test::Fail;
use txg_core::Event;
use zc_io::NoMemory;

mod replay;

use replay::Replay;

#[test]
fn a_change_on_one_thread(rt: HostRuntime) -> Result<(), Fail> {
    let alloc = rt.alloc();
    let (pool, mut pass, mut sync) = counter_for_one(alloc, 0, 1)?;
    let idle = advance(&rt, alloc, &pool, &mut sync)?;
    assert!(rt; matches!(idle, Advanced::Idle { at: 0 }));
    let Ok(ticket) = submit_addition(&rt, alloc, &pool, &mut pass, 60) else {
        panic!(rt; "refused");
    };
    assert!(rt; ticket.session == 0 && ticket.call_no == 0 && ticket.group == 1);
    let moved = advance(&rt, alloc, &pool, &mut sync)?;
    assert!(rt; matches!(moved, Advanced::Moved(Event::Quiesce)));
    let moved = advance(&rt, alloc, &pool, &mut sync)?;
    assert!(rt; matches!(moved, Advanced::Moved(Event::Begin)));
    let moved = advance(&rt, alloc, &pool, &mut sync)?;
    assert!(rt; matches!(moved, Advanced::Moved(Event::Sync(0))));
    let moved = advance(&rt, alloc, &pool, &mut sync)?;
    assert!(rt; matches!(moved, Advanced::Moved(Event::End)));
    let idle = advance(&rt, alloc, &pool, &mut sync)?;
    assert!(rt; matches!(idle, Advanced::Idle { at: 7 }));
    assert!(rt; sync.seen() == 7 && sync.turns() == 6);
    assert!(rt; collect(&rt, &pool, &mut pass, ticket)? == 60);
    let closed = end_for_one(alloc, pool, pass, sync)?;
    assert!(rt; closed.object.value == 60 && closed.synced == 1 && closed.journal.len() == 8);
    Ok(())
}

#[test]
fn what_a_pass_tells(rt: HostRuntime) -> Result<(), Fail> {
    let alloc = rt.alloc();
    let (pool, mut pass, _sync) = counter_for_one(alloc, 5, 3)?;
    assert!(rt; pass.seen() == 0 && pass.left() == 3 && !pass.busy() && pass.turns() == 0);
    assert!(rt; ask(&rt, alloc, &pool, &mut pass)? == Some(5));
    assert!(rt; pass.seen() == 1 && pass.left() == 2 && !pass.busy() && pass.turns() == 1);
    let refused = submit_addition(&rt, alloc, &pool, &mut pass, 1000);
    assert!(rt; matches!(refused, Err(Refusal::Checked { reply: 5, at: 2 })));
    assert!(rt; pass.seen() == 3 && pass.left() == 1 && !pass.busy() && pass.turns() == 2);
    assert!(rt; submit_addition(&rt, alloc, &pool, &mut pass, 1).is_ok());
    assert!(rt; pass.seen() == 6 && pass.left() == 1 && pass.busy() && pass.turns() == 3);
    Ok(())
}

/// A pool whose core found no memory waits for nothing.
#[test]
fn want_of_memory_spends_a_pool(rt: HostRuntime) -> Result<(), Fail> {
    let alloc = rt.alloc();
    let (pool, mut pass, mut sync) = counter_for_one(alloc, 0, 2)?;
    let Ok(ticket) = submit_addition(&rt, alloc, &pool, &mut pass, TOO_MUCH) else {
        panic!(rt; "refused");
    };
    let moved = advance(&rt, alloc, &pool, &mut sync)?;
    assert!(rt; matches!(moved, Advanced::Moved(Event::Quiesce)));
    let moved = advance(&rt, alloc, &pool, &mut sync)?;
    assert!(rt; matches!(moved, Advanced::Moved(Event::Begin)));
    assert!(rt; matches!(advance(&rt, alloc, &pool, &mut sync), Err(NoMemory)));
    assert!(rt; matches!(advance(&rt, alloc, &pool, &mut sync), Err(NoMemory)));
    assert!(rt; matches!(collect(&rt, &pool, &mut pass, ticket), Err(NoMemory)));
    assert!(rt; pass.seen() == 5 && pass.left() == 2 && pass.busy());
    assert!(rt; end_for_one(alloc, pool, pass, sync).is_err());
    Ok(())
}

#[test]
fn two_sessions_on_threads(rt: HostRuntime) -> Result<(), Fail> {
    let alloc = rt.alloc();
    let closed = add_on_threads(&rt, alloc, 0, 600)?;
    let mut replay = Replay::new(alloc)?;
    for event in closed.journal.as_slice() {
        assert!(rt; replay.follows(event));
    }
    assert!(rt; closed.object.value == 1000 && replay.value == 1000);
    Ok(())
}
