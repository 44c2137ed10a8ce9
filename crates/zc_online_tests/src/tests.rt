//! Runs of two sessions on threads, and replays of their journals.

use crate::documents::{journal_in, two_creates};
use sessions::{Gate, NoGate};
use sessions_tests::{AllQueued, SecondFirst};
use std::alloc::Global;
use std::sync::Wait;
use std::test::Fail;
use std::thread::Threads;
use zc_io::{SureSink, SureSource};
use zc_offline::Status;
use zc_online::zcpd;

const ROOM: usize = 4096;

/// What the command writes for the document; nothing where it doesn't end well.
fn written<G: Gate + Sync, R: Threads + Wait + Sync>(
    rt: &R,
    alloc: Global,
    command: &str,
    document: &str,
    gate: &G,
) -> Result<Vec<u8>, Fail> {
    let mut words = Vec::new(alloc);
    words.push(String::from_str(alloc, command)?)?;
    let mut source = SureSource::new(document.as_bytes().to_vec(alloc)?);
    let mut sink = SureSink::new(alloc, ROOM)?;
    match zcpd(rt, alloc, words.as_slice(), &mut source, &mut sink, gate) {
        Status::Ok => Ok(sink.bytes().to_vec(alloc)?),
        _ => Ok(Vec::new(alloc)),
    }
}

/// Whether a replay of the journal in an output writes the same bytes, and each session was told
/// of success.
fn replays<R: Threads + Wait + Sync>(rt: &R, alloc: Global, output: &[u8]) -> Result<bool, Fail> {
    let Ok(text) = str::from_utf8(output) else {
        return Ok(false);
    };
    let document = two_creates(alloc, journal_in(text))?;
    let again = written(rt, alloc, "replay", document.as_str(), &NoGate)?;
    let told = text.contains(r#""replies":[[{"errno":0}],[{"errno":0}]]"#);
    Ok(again.as_slice() == output && told)
}

#[test]
fn a_run_replays_to_the_same_bytes(rt: HostRuntime) -> Result<(), Fail> {
    let alloc = rt.alloc();
    let document = two_creates(alloc, "[]")?;
    let output = written(&rt, alloc, "run", document.as_str(), &NoGate)?;
    assert!(rt; replays(&rt, alloc, output.as_slice())?);
    Ok(())
}

#[test]
fn one_session_runs_while_the_other_is_held(rt: HostRuntime) -> Result<(), Fail> {
    let alloc = rt.alloc();
    let gate = SecondFirst::new();
    let document = two_creates(alloc, "[]")?;
    let output = written(&rt, alloc, "run", document.as_str(), &gate)?;
    assert!(rt; gate.was_in_time() && replays(&rt, alloc, output.as_slice())?);
    Ok(())
}

#[test]
fn both_changes_are_queued_in_one_group(rt: HostRuntime) -> Result<(), Fail> {
    let alloc = rt.alloc();
    let gate = AllQueued::new(2);
    let document = two_creates(alloc, "[]")?;
    let output = written(&rt, alloc, "run", document.as_str(), &gate)?;
    assert!(rt; gate.was_in_time() && replays(&rt, alloc, output.as_slice())?);
    let Ok(text) = str::from_utf8(output.as_slice()) else {
        panic!(rt; "the output is no text");
    };
    assert!(rt; text.contains(r#""synced":1,"#));
    Ok(())
}
