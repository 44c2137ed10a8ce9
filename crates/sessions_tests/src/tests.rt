//! Runs on threads.
use crate::{AllQueued, SecondFirst, additions, run_counter, session_of};
use sessions::{NoGate, Run};
use shared_pool_tests::{Counter, Request};
use std::test::Fail;
use txg_core::Event;

/// Whether the session was given these replies.
fn was_told(run: &Run<Counter>, session: usize, replies: &[u64]) -> bool {
    match run.replies.get(session) {
        Some(given) => given.as_slice() == replies,
        None => false,
    }
}

#[test]
fn one_session(rt: HostRuntime) -> Result<(), Fail> {
    let alloc = rt.alloc();
    let calls = [Request::Add(1), Request::Ask, Request::Add(1000)];
    let mut sessions = Vec::new(alloc);
    sessions.push(session_of(alloc, &calls)?)?;
    let run = run_counter(&rt, alloc, 5, sessions, &NoGate)?;
    let journal = [
        Event::Hold(0),
        Event::Check(0),
        Event::Enqueue(0),
        Event::Quiesce,
        Event::Begin,
        Event::Sync(0),
        Event::End,
        Event::Take(0),
        Event::Read(0),
        Event::Hold(0),
        Event::Check(0),
    ];
    assert!(rt; run.journal.as_slice() == &journal[..]);
    assert!(rt; run.object.value == 6 && run.synced == 1 && run.replies.len() == 1);
    assert!(rt; was_told(&run, 0, &[6, 6, 6]));
    Ok(())
}

#[test]
fn no_session(rt: HostRuntime) -> Result<(), Fail> {
    let alloc = rt.alloc();
    let run = run_counter(&rt, alloc, 5, Vec::new(alloc), &NoGate)?;
    assert!(rt; run.journal.is_empty() && run.replies.is_empty());
    assert!(rt; run.object.value == 5 && run.synced == 0);
    Ok(())
}

/// Sessions are served at the same time: one is held until the other has its reply.
#[test]
fn the_second_session_first(rt: HostRuntime) -> Result<(), Fail> {
    let alloc = rt.alloc();
    let gate = SecondFirst::new();
    let run = run_counter(&rt, alloc, 0, additions(alloc, 2, 1)?, &gate)?;
    assert!(rt; gate.was_in_time());
    assert!(rt; was_told(&run, 0, &[2]));
    assert!(rt; was_told(&run, 1, &[1]));
    assert!(rt; run.synced == 2 && run.journal.len() == 16);
    Ok(())
}

/// The groups are moved on by a thread of their own: they are held until both sessions wait.
#[test]
fn both_in_one_group(rt: HostRuntime) -> Result<(), Fail> {
    let alloc = rt.alloc();
    let gate = AllQueued::new(2);
    let run = run_counter(&rt, alloc, 0, additions(alloc, 2, 1)?, &gate)?;
    assert!(rt; gate.was_in_time());
    assert!(rt; run.synced == 1 && run.object.value == 2);
    let first_groups = run.journal.iter().position(|e| *e == Event::Quiesce);
    assert!(rt; first_groups == Some(6));
    Ok(())
}

#[test]
fn sixteen_sessions(rt: HostRuntime) -> Result<(), Fail> {
    let alloc = rt.alloc();
    let run = run_counter(&rt, alloc, 0, additions(alloc, 16, 20)?, &NoGate)?;
    assert!(rt; run.object.value == 320 && run.replies.len() == 16);
    assert!(rt;
        run.replies
            .iter()
            .all(|replies| replies.as_slice().len() == 20)
    );
    let ends = run.journal.iter().filter(|e| **e == Event::End).count();
    assert!(rt; run.synced == ends as u64);
    Ok(())
}

/// A call that finds no memory ends all.
#[test]
fn want_of_memory_ends_all(rt: HostRuntime) -> Result<(), Fail> {
    let alloc = rt.alloc();
    let mut sessions = additions(alloc, 3, 50)?;
    sessions.push(session_of(alloc, &[Request::Add(1), Request::Add(666)])?)?;
    assert!(rt; run_counter(&rt, alloc, 0, sessions, &NoGate).is_err());
    Ok(())
}
