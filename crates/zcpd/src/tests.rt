//! Runs of the whole program, on documents that were worked out by hand.

use std::alloc::Global;
use std::test::Fail;
use zc_io::{MemSink, MemSource, SureSink, SureSource};
use zc_offline::{Status, offline};

mod programs;
mod refusals;
mod setups;

const ROOM: usize = 4096;

const EMPTY: &str =
    r#"{"pool":"rpool","now":0,"setup":[],"programs":{},"sessions":[],"schedule":[]}"#;

const EMPTY_OUTPUT: &str =
    r#"{"journal":[],"replies":[],"synced":0,"tree":[{"createtxg":0,"id":1,"kind":"filesystem","mounted":false,"name":"rpool","origin":null,"settings":{},"stamp":0}]}
"#;

const CREATE: &str =
    r#"{"pool":"rpool","now":0,"setup":[],"programs":{},"sessions":[[{"name":"rpool/a","op":"create"}]],"schedule":[["hold",0],["check",0],["enqueue",0],["quiesce"],["begin"],["sync",0],["end"],["take",0]]}"#;

const CREATE_OUTPUT: &str =
    r#"{"journal":[["hold",0],["check",0],["enqueue",0],["quiesce"],["begin"],["sync",0],["end"],["take",0]],"replies":[[{"errno":0}]],"synced":1,"tree":[{"createtxg":0,"id":1,"kind":"filesystem","mounted":false,"name":"rpool","origin":null,"settings":{},"stamp":0},{"createtxg":1,"id":2,"kind":"filesystem","mounted":false,"name":"rpool/a","origin":null,"settings":{},"stamp":0}]}
"#;

/// The open check refuses: there is no parent.
const NO_PARENT: &str =
    r#"{"pool":"rpool","now":0,"setup":[],"programs":{},"sessions":[[{"name":"rpool/a/b","op":"create"}]],"schedule":[["hold",0],["check",0]]}"#;

const NO_PARENT_OUTPUT: &str =
    r#"{"journal":[["hold",0],["check",0]],"replies":[[{"errno":2}]],"synced":0,"tree":[{"createtxg":0,"id":1,"kind":"filesystem","mounted":false,"name":"rpool","origin":null,"settings":{},"stamp":0}]}
"#;

/// Two sessions create the same dataset in one group: both open checks pass, and the second check
/// of the later one finds what the earlier one made.
const RACE: [&str; 13] = [
    r#"["hold",0]"#,
    r#"["check",0]"#,
    r#"["enqueue",0]"#,
    r#"["hold",1]"#,
    r#"["check",1]"#,
    r#"["enqueue",1]"#,
    r#"["quiesce"]"#,
    r#"["begin"]"#,
    r#"["sync",0]"#,
    r#"["sync",1]"#,
    r#"["end"]"#,
    r#"["take",0]"#,
    r#"["take",1]"#,
];

const RACE_OUTPUT: &str =
    r#"{"journal":[["hold",0],["check",0],["enqueue",0],["hold",1],["check",1],["enqueue",1],["quiesce"],["begin"],["sync",0],["sync",1],["end"],["take",0],["take",1]],"replies":[[{"errno":0}],[{"errno":17}]],"synced":1,"tree":[{"createtxg":0,"id":1,"kind":"filesystem","mounted":false,"name":"rpool","origin":null,"settings":{},"stamp":0},{"createtxg":1,"id":2,"kind":"filesystem","mounted":false,"name":"rpool/a","origin":null,"settings":{},"stamp":0}]}
"#;

/// The second session holds in the second group while the first group is not yet synced.
const TWO_GROUPS: &str =
    r#"{"pool":"rpool","now":0,"setup":[],"programs":{},"sessions":[[{"name":"rpool/a","op":"create"}],[{"name":"rpool/b","op":"create"}]],"schedule":[["hold",0],["check",0],["enqueue",0],["quiesce"],["hold",1],["check",1],["enqueue",1],["begin"],["sync",0],["quiesce"],["end"],["begin"],["sync",1],["take",0],["end"],["take",1]]}"#;

const TWO_GROUPS_OUTPUT: &str =
    r#"{"journal":[["hold",0],["check",0],["enqueue",0],["quiesce"],["hold",1],["check",1],["enqueue",1],["begin"],["sync",0],["quiesce"],["end"],["begin"],["sync",1],["take",0],["end"],["take",1]],"replies":[[{"errno":0}],[{"errno":0}]],"synced":2,"tree":[{"createtxg":0,"id":1,"kind":"filesystem","mounted":false,"name":"rpool","origin":null,"settings":{},"stamp":0},{"createtxg":1,"id":2,"kind":"filesystem","mounted":false,"name":"rpool/a","origin":null,"settings":{},"stamp":0},{"createtxg":2,"id":3,"kind":"filesystem","mounted":false,"name":"rpool/b","origin":null,"settings":{},"stamp":0}]}
"#;

/// The second group may not begin while the first one syncs.
const BEGINS_TWICE: &str =
    r#"{"pool":"rpool","now":0,"setup":[],"programs":{},"sessions":[[{"name":"rpool/a","op":"create"}],[{"name":"rpool/b","op":"create"}]],"schedule":[["hold",0],["check",0],["enqueue",0],["quiesce"],["hold",1],["check",1],["enqueue",1],["begin"],["sync",0],["quiesce"],["begin"],["begin"],["sync",1],["take",0],["end"],["take",1]]}"#;

/// The second session held before its group quiesced, and enqueues into the quiescing group.
const ENQUEUES_LATE: &str =
    r#"{"pool":"rpool","now":0,"setup":[],"programs":{},"sessions":[[{"name":"rpool/a","op":"create"}],[{"name":"rpool/b","op":"create"}]],"schedule":[["hold",0],["hold",1],["check",0],["enqueue",0],["quiesce"],["check",1],["enqueue",1],["begin"],["sync",0],["sync",1],["end"],["take",1],["take",0]]}"#;

const ENQUEUES_LATE_OUTPUT: &str =
    r#"{"journal":[["hold",0],["hold",1],["check",0],["enqueue",0],["quiesce"],["check",1],["enqueue",1],["begin"],["sync",0],["sync",1],["end"],["take",1],["take",0]],"replies":[[{"errno":0}],[{"errno":0}]],"synced":1,"tree":[{"createtxg":0,"id":1,"kind":"filesystem","mounted":false,"name":"rpool","origin":null,"settings":{},"stamp":0},{"createtxg":1,"id":2,"kind":"filesystem","mounted":false,"name":"rpool/a","origin":null,"settings":{},"stamp":0},{"createtxg":1,"id":3,"kind":"filesystem","mounted":false,"name":"rpool/b","origin":null,"settings":{},"stamp":0}]}
"#;

/// The second session still holds in the group that should begin.
const HOLDS_IN_GROUP: &str =
    r#"{"pool":"rpool","now":0,"setup":[],"programs":{},"sessions":[[{"name":"rpool/a","op":"create"}],[{"name":"rpool/a","op":"create"}]],"schedule":[["hold",0],["check",0],["enqueue",0],["hold",1],["quiesce"],["begin"]]}"#;

/// The second session enqueued first, so the first session's task has to wait for it.
const OUT_OF_TURN: &str =
    r#"{"pool":"rpool","now":0,"setup":[],"programs":{},"sessions":[[{"name":"rpool/a","op":"create"}],[{"name":"rpool/b","op":"create"}]],"schedule":[["hold",0],["check",0],["hold",1],["check",1],["enqueue",1],["enqueue",0],["quiesce"],["begin"],["sync",0]]}"#;

/// As many sessions as a document may have, and the last one asks.
const SIXTEEN: &str =
    r#"{"pool":"rpool","now":0,"setup":[],"programs":{},"sessions":[[],[],[],[],[],[],[],[],[],[],[],[],[],[],[],[{"name":"rpool","op":"exists"}]],"schedule":[["read",15]]}"#;

const SIXTEEN_OUTPUT: &str =
    r#"{"journal":[["read",15]],"replies":[[],[],[],[],[],[],[],[],[],[],[],[],[],[],[],[{"errno":0,"exists":true}]],"synced":0,"tree":[{"createtxg":0,"id":1,"kind":"filesystem","mounted":false,"name":"rpool","origin":null,"settings":{},"stamp":0}]}
"#;

/// The reply is asked for before its group is synced.
const EARLY: &str =
    r#"{"pool":"rpool","now":0,"setup":[],"programs":{},"sessions":[[{"name":"rpool/a","op":"create"}]],"schedule":[["hold",0],["check",0],["enqueue",0],["take",0]]}"#;

/// No member `schedule`, which `check` doesn't need.
const NO_SCHEDULE: &str = r#"{"pool":"rpool","now":0,"setup":[],"programs":{},"sessions":[]}"#;

/// The bytes of a program don't matter to a replay.
const WITH_PROGRAMS: &str =
    r#"{"pool":"rpool","now":0,"setup":[],"programs":{"q":"\u0000\u00e9","p":"return 1.5"},"sessions":[],"schedule":[]}"#;

const NO_PROGRAMS_OUTPUT: &str = "{\"programs\":{},\"records\":1}\n";

/// Texts of one kind of refusal each, and one that loads.
const PROGRAMS: &str =
    r#"{"pool":"rpool","now":0,"setup":[],"programs":{"a":"return 1.5","b":"return 9223372036854775808","c":"return return","d":"do local x","e":"goto l","f":"break","g":"function f() return ... end","h":"goto l local x ::l::","i":"goto l local x ::l:: x = 1"},"sessions":[]}"#;

const PROGRAMS_OUTPUT: &str =
    r#"{"programs":{"a":"the text does not load: NotWhole at 7","b":"the text does not load: TooBig at 7","c":"the text does not load: Unexpected at 7","d":"the text does not load: EndOfText at 10","e":"the text does not load: NoLabel at 1","f":"the text does not load: BreakOutside at 1","g":"the text does not load: VarargOutside at 1","h":null,"i":"the text does not load: JumpsIntoLocal at 1"},"records":1}
"#;

fn words(alloc: Global, words: &[&str]) -> Result<Vec<String>, Fail> {
    let mut owned = Vec::new(alloc);
    for word in words {
        owned.push(String::from_str(alloc, word)?)?;
    }
    Ok(owned)
}

/// How the command ends on the document, and what it wrote.
fn run(alloc: Global, command: &str, document: &str) -> Result<(Status, Vec<u8>), Fail> {
    let words = words(alloc, &[command])?;
    let mut source = SureSource::new(document.as_bytes().to_vec(alloc)?);
    let mut sink = SureSink::new(alloc, ROOM)?;
    let status = offline(alloc, words.as_slice(), &mut source, &mut sink);
    Ok((status, sink.bytes().to_vec(alloc)?))
}

#[test]
fn replays(rt: HostRuntime) -> Result<(), Fail> {
    let alloc = rt.alloc();
    for (document, output) in [
        (EMPTY, EMPTY_OUTPUT),
        (WITH_PROGRAMS, EMPTY_OUTPUT),
        (CREATE, CREATE_OUTPUT),
        (NO_PARENT, NO_PARENT_OUTPUT),
        (TWO_GROUPS, TWO_GROUPS_OUTPUT),
        (ENQUEUES_LATE, ENQUEUES_LATE_OUTPUT),
        (SIXTEEN, SIXTEEN_OUTPUT),
    ] {
        let (status, written) = run(alloc, "replay", document)?;
        assert!(rt; matches!(status, Status::Ok));
        assert!(rt; written.as_slice() == output.as_bytes(), "{document}");
    }
    Ok(())
}

/// Each first part of the schedule is done, and is the journal.
#[test]
fn stops_anywhere(rt: HostRuntime) -> Result<(), Fail> {
    let alloc = rt.alloc();
    for done in 0..RACE.len() + 1 {
        let schedule = RACE[..done].join(alloc, ",")?;
        let document = format!(in alloc;
            r#"{{"pool":"rpool","now":0,"setup":[],"programs":{{}},"sessions":[[{{"name":"rpool/a","op":"create"}}],[{{"name":"rpool/a","op":"create"}}]],"schedule":[{schedule}]}}"#
        )?;
        let journal = format!(in alloc; r#"{{"journal":[{schedule}],"replies":"#)?;
        let (status, written) = run(alloc, "replay", document.as_str())?;
        assert!(rt; matches!(status, Status::Ok));
        assert!(rt; written.starts_with(journal.as_bytes()), "{document}");
        if done == RACE.len() {
            assert!(rt; written.as_slice() == RACE_OUTPUT.as_bytes());
        }
    }
    Ok(())
}

#[test]
fn finds_the_first_event_that_is_not_enabled(rt: HostRuntime) -> Result<(), Fail> {
    let alloc = rt.alloc();
    for (document, wanted) in [
        (EARLY, 3),
        (HOLDS_IN_GROUP, 5),
        (OUT_OF_TURN, 8),
        (BEGINS_TWICE, 10),
    ] {
        let (status, written) = run(alloc, "replay", document)?;
        assert!(rt;
            matches!(status, Status::NotEnabled(event) if event == wanted),
            "{document}"
        );
        assert!(rt; written.is_empty(), "{document}");
    }
    Ok(())
}

/// The texts of the programs are loaded, and the schedule may be missing.
#[test]
fn checks(rt: HostRuntime) -> Result<(), Fail> {
    let alloc = rt.alloc();
    for (document, output) in [
        (PROGRAMS, PROGRAMS_OUTPUT),
        (NO_SCHEDULE, NO_PROGRAMS_OUTPUT),
        (CREATE, NO_PROGRAMS_OUTPUT),
    ] {
        let (status, written) = run(alloc, "check", document)?;
        assert!(rt; matches!(status, Status::Ok));
        assert!(rt; written.as_slice() == output.as_bytes(), "{document}");
    }
    Ok(())
}

/// Other words are refused, and the source keeps its bytes.
#[test]
fn knows_its_words(rt: HostRuntime) -> Result<(), Fail> {
    let alloc = rt.alloc();
    let unknown = words(alloc, &["replay", "now"])?;
    let known = words(alloc, &["replay"])?;
    let mut source = SureSource::new(EMPTY.as_bytes().to_vec(alloc)?);
    let mut sink = SureSink::new(alloc, ROOM)?;
    let status = offline(alloc, unknown.as_slice(), &mut source, &mut sink);
    assert!(rt; matches!(status, Status::Usage));
    assert!(rt; sink.bytes().is_empty());
    let status = offline(alloc, &[], &mut source, &mut sink);
    assert!(rt; matches!(status, Status::Usage));
    let status = offline(alloc, known.as_slice(), &mut source, &mut sink);
    assert!(rt; matches!(status, Status::Ok));
    Ok(())
}

/// How a replay of the document ends where these calls of its source and sink fail, each moving
/// ten bytes, and what it wrote.
fn faulty(
    alloc: Global,
    document: &str,
    reads: &[u64],
    writes: &[u64],
) -> Result<(Status, Vec<u8>), Fail> {
    let words = words(alloc, &["replay"])?;
    let document = document.as_bytes().to_vec(alloc)?;
    let mut source = MemSource::new(document, 10, reads.to_vec(alloc)?);
    let mut sink = MemSink::new(alloc, 10, writes.to_vec(alloc)?, ROOM)?;
    let status = offline(alloc, words.as_slice(), &mut source, &mut sink);
    Ok((status, sink.bytes().to_vec(alloc)?))
}

/// Each read fails in turn, also the one that finds the end.
#[test]
fn tells_failing_reads(rt: HostRuntime) -> Result<(), Fail> {
    let alloc = rt.alloc();
    for document in [EMPTY, CREATE] {
        let reads = document.len().div_ceil(10) as u64 + 1;
        for read in 1..reads + 1 {
            let (status, written) = faulty(alloc, document, &[read], &[])?;
            assert!(rt; matches!(status, Status::ReadFault));
            assert!(rt; written.is_empty());
        }
        let (status, _) = faulty(alloc, document, &[reads + 1], &[])?;
        assert!(rt; matches!(status, Status::Ok));
    }
    Ok(())
}

/// Each write fails in turn: what the writes before it took was written.
#[test]
fn tells_failing_writes(rt: HostRuntime) -> Result<(), Fail> {
    let alloc = rt.alloc();
    for (document, output) in [(EMPTY, EMPTY_OUTPUT), (CREATE, CREATE_OUTPUT)] {
        let output = output.as_bytes();
        let writes = output.len().div_ceil(10);
        for done in 0..writes {
            let (status, written) = faulty(alloc, document, &[], &[done as u64 + 1])?;
            assert!(rt; matches!(status, Status::WriteFault));
            assert!(rt; written.len() == 10 * done && output.starts_with(written.as_slice()));
        }
        let (status, written) = faulty(alloc, document, &[], &[writes as u64 + 1])?;
        assert!(rt; matches!(status, Status::Ok));
        assert!(rt; written.as_slice() == output);
    }
    Ok(())
}

#[test]
fn fault_lines(rt: HostRuntime) -> Result<(), Fail> {
    let alloc = rt.alloc();
    for (status, line) in [
        (
            Status::Usage,
            "usage: zcpd run, replay, check, gen SEED N, or program [-jn] [-t N] [-m N] POOL SCRIPT [ARG...]",
        ),
        (Status::NotEnabled(7), "event 7 is not enabled"),
        (Status::ReadFault, "cannot read the input"),
        (Status::WriteFault, "cannot write the output"),
        (Status::NoMemory, "out of memory"),
    ] {
        let text = status.to_string(alloc)?;
        assert_eq!(rt; text.as_str(), line);
    }
    Ok(())
}
