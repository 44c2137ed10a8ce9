//! Setups: the tree that a document begins with, and the first command that is refused.

use super::run;
use std::alloc::Global;
use std::test::Fail;
use zc_doc::DocError;
use zc_offline::Status;

/// A file system whose stamp a snapshot keeps, and a session that takes it back.
const SET_UP: &str = r#"{
  "pool": "rpool",
  "now": 0,
  "setup": [
    {"op": "create", "name": "rpool/a"},
    {"op": "stamp", "name": "rpool/a", "value": 5},
    {"op": "snapshot", "name": "rpool/a@s"},
    {"op": "stamp", "name": "rpool/a", "value": 9}
  ],
  "programs": {},
  "sessions": [[{"op": "rollback", "name": "rpool/a"}]],
  "schedule": [["hold", 0], ["check", 0], ["enqueue", 0], ["quiesce"], ["begin"], ["sync", 0], ["end"], ["take", 0]]
}"#;

const SET_UP_OUTPUT: &str =
    r#"{"journal":[["hold",0],["check",0],["enqueue",0],["quiesce"],["begin"],["sync",0],["end"],["take",0]],"replies":[[{"errno":0}]],"synced":1,"tree":[{"createtxg":0,"id":1,"kind":"filesystem","mounted":false,"name":"rpool","origin":null,"settings":{},"stamp":0},{"createtxg":0,"id":2,"kind":"filesystem","mounted":false,"name":"rpool/a","origin":null,"settings":{},"stamp":5},{"createtxg":0,"deferred":false,"holds":[],"id":3,"kind":"snapshot","name":"rpool/a@s","settings":{},"stamp":5}]}
"#;

/// The records of the tree after the setup, as a check counts them.
const SET_UP_CHECKED: &str = "{\"programs\":{},\"records\":3}\n";

/// The second command finds what the first one made, and the third has no parent.
const SECOND_REFUSED: &str =
    r#"{"pool":"rpool","now":0,"setup":[{"op":"create","name":"rpool/a"},{"op":"create","name":"rpool/a"},{"op":"create","name":"rpool/b/c"}],"programs":{},"sessions":[]}"#;

/// Setups with a command that can't be read: one that would be refused doesn't count before it, and
/// a setup has no queries.
const UNREADABLE: [(&str, &str); 2] = [
    (
        r#"{"op":"create","name":"rpool"},{"op":"create"}"#,
        "Missing at /setup/1/name",
    ),
    (
        r#"{"op":"exists","name":"rpool","zz":0}"#,
        "BadType at /setup/0/op",
    ),
];

#[test]
fn setups_are_done(rt: HostRuntime) -> Result<(), Fail> {
    let alloc = rt.alloc();
    for (command, output) in [("replay", SET_UP_OUTPUT), ("check", SET_UP_CHECKED)] {
        let (status, written) = run(alloc, command, SET_UP)?;
        assert!(rt; matches!(status, Status::Ok));
        assert!(rt; written.as_slice() == output.as_bytes(), "{command}");
    }
    Ok(())
}

#[test]
fn setups_are_refused(rt: HostRuntime) -> Result<(), Fail> {
    let alloc = rt.alloc();
    let (status, written) = run(alloc, "check", SECOND_REFUSED)?;
    assert!(rt; matches!(&status, Status::BadDocument(DocError::SetupRefused(1, 17))));
    assert!(rt; written.is_empty());
    let line = status.to_string(alloc)?;
    assert_eq!(rt; line.as_str(), "bad document: SetupRefused");
    Ok(())
}

#[test]
fn setups_are_read_first(rt: HostRuntime) -> Result<(), Fail> {
    let alloc = rt.alloc();
    for (setup, refusal) in UNREADABLE {
        let document = format!(in alloc;
            r#"{{"pool":"rpool","now":0,"setup":[{setup}],"programs":{{}},"sessions":[]}}"#
        )?;
        let (status, written) = run(alloc, "check", document.as_str())?;
        let line = status.to_string(alloc)?;
        let wanted = format!(in alloc; "bad document: {refusal}")?;
        assert_eq!(rt; line.as_str(), wanted.as_str());
        assert!(rt; written.is_empty());
    }
    Ok(())
}
