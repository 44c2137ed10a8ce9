//! Documents that are refused: each refusal with its place, and which of several comes first.

use super::{CREATE, run};
use std::alloc::Global;
use std::test::Fail;

/// The fault line of a replay of the document, which writes nothing.
fn fault_line(alloc: Global, document: &str) -> Result<String, Fail> {
    let (status, written) = run(alloc, "replay", document)?;
    if status.code() == 3 && written.is_empty() {
        Ok(status.to_string(alloc)?)
    } else {
        Ok(String::new(alloc))
    }
}

/// A document with these members, which are empty where no text is given.
fn document(alloc: Global, setup: &str, sessions: &str, schedule: &str) -> Result<String, Fail> {
    Ok(format!(in alloc;
        r#"{{"pool":"rpool","now":0,"setup":[{setup}],"programs":{{}},"sessions":[{sessions}],"schedule":[{schedule}]}}"#
    )?)
}

/// Whole documents, each with the path of its first refusal.
const DOCUMENTS: [(&str, &str); 26] = [
    ("", "NotJson"),
    ("{} {}", "NotJson"),
    ("[]", "BadType at "),
    ("{}", "Missing at /pool"),
    (r#"{"zz":0,"pools":0,"now":-1}"#, "Unknown at /pools"),
    (r#"{"pool":null,"now":-1}"#, "BadType at /pool"),
    (r#"{"pool":"","now":-1}"#, "BadName at /pool"),
    (r#"{"pool":"rpool/a"}"#, "BadName at /pool"),
    (r#"{"pool":"rpool@a"}"#, "BadName at /pool"),
    (r#"{"pool":"rpool"}"#, "Missing at /now"),
    (r#"{"pool":"rpool","now":"0"}"#, "BadType at /now"),
    (r#"{"pool":"rpool","now":1.0}"#, "BadType at /now"),
    (r#"{"pool":"rpool","now":1e3}"#, "BadType at /now"),
    (
        r#"{"pool":"rpool","now":18446744073709551616}"#,
        "BadType at /now",
    ),
    (r#"{"pool":"rpool","now":-1}"#, "BadLimit at /now"),
    (
        r#"{"pool":"rpool","now":9223372036854775808}"#,
        "BadLimit at /now",
    ),
    (
        r#"{"pool":"rpool","now":9223372036854775807}"#,
        "Missing at /setup",
    ),
    (
        r#"{"pool":"rpool","now":0,"setup":{}}"#,
        "BadType at /setup",
    ),
    (
        r#"{"pool":"rpool","now":0,"setup":[]}"#,
        "Missing at /programs",
    ),
    (
        r#"{"pool":"rpool","now":0,"setup":[],"programs":[]}"#,
        "BadType at /programs",
    ),
    (
        r#"{"pool":"rpool","now":0,"setup":[],"programs":{"z":0,"a/b":1}}"#,
        "BadType at /programs/a/b",
    ),
    (
        r#"{"pool":"rpool","now":0,"setup":[],"programs":{"p":1,"p":""}}"#,
        "Missing at /sessions",
    ),
    (
        r#"{"pool":"rpool","now":0,"setup":[],"programs":{},"sessions":{}}"#,
        "BadType at /sessions",
    ),
    (
        r#"{"pool":"rpool","now":0,"setup":[],"programs":{},"sessions":[[],{}]}"#,
        "BadType at /sessions/1",
    ),
    (
        r#"{"pool":"rpool","now":0,"setup":[],"programs":{},"sessions":[]}"#,
        "Missing at /schedule",
    ),
    (
        r#"{"pool":"rpool","now":0,"setup":[],"programs":{},"sessions":[],"schedule":null}"#,
        "BadType at /schedule",
    ),
];

/// Calls of a second session's third place, each with the path behind it.
const CALLS: [(&str, &str); 22] = [
    ("7", "BadType at /sessions/1/2"),
    ("{}", "Missing at /sessions/1/2/op"),
    (r#"{"op":7,"zz":0}"#, "BadType at /sessions/1/2/op"),
    (r#"{"op":"creat","zz":0}"#, "BadType at /sessions/1/2/op"),
    (r#"{"op":"create"}"#, "Missing at /sessions/1/2/name"),
    (
        r#"{"op":"create","source":0,"b":0}"#,
        "Unknown at /sessions/1/2/b",
    ),
    (
        r#"{"op":"create","name":7}"#,
        "BadType at /sessions/1/2/name",
    ),
    (
        r#"{"op":"create","name":"rpool/"}"#,
        "BadName at /sessions/1/2/name",
    ),
    (
        r#"{"op":"create","name":"tank/a"}"#,
        "BadName at /sessions/1/2/name",
    ),
    (
        r#"{"op":"create","name":"rpoole"}"#,
        "BadName at /sessions/1/2/name",
    ),
    (
        r#"{"op":"create","name":7,"name":"tank"}"#,
        "BadName at /sessions/1/2/name",
    ),
    (
        r#"{"op":"clone","name":"/"}"#,
        "Missing at /sessions/1/2/source",
    ),
    (
        r#"{"op":"clone","name":"/","source":0}"#,
        "BadType at /sessions/1/2/source",
    ),
    (
        r#"{"op":"clone","source":"rpool@s","name":"/"}"#,
        "BadName at /sessions/1/2/name",
    ),
    (
        r#"{"op":"stamp","value":-1}"#,
        "Missing at /sessions/1/2/name",
    ),
    (
        r#"{"op":"stamp","name":"rpool"}"#,
        "Missing at /sessions/1/2/value",
    ),
    (
        r#"{"op":"stamp","name":"rpool","value":-0}"#,
        "BadType at /sessions/1/2/value",
    ),
    (
        r#"{"op":"stamp","name":"rpool","value":-1}"#,
        "BadLimit at /sessions/1/2/value",
    ),
    (
        r#"{"op":"stamp","name":"rpool","value":9223372036854775808}"#,
        "BadLimit at /sessions/1/2/value",
    ),
    (
        r#"{"op":"rename_snapshot","name":"rpool"}"#,
        "Missing at /sessions/1/2/old",
    ),
    (
        r#"{"op":"rename_snapshot","name":"rpool","old":"","new":0}"#,
        "BadType at /sessions/1/2/new",
    ),
    (
        r#"{"op":"exists","name":"rpool","after":""}"#,
        "Unknown at /sessions/1/2/after",
    ),
];

/// Events of two sessions behind one that is right.
const EVENTS: [(&str, &str); 14] = [
    ("0", "BadType at /schedule/1"),
    ("[]", "BadType at /schedule/1"),
    ("[7]", "BadType at /schedule/1"),
    (r#"["quiesced"]"#, "BadType at /schedule/1"),
    (r#"["quiesce",0]"#, "BadType at /schedule/1"),
    (r#"["hold"]"#, "BadType at /schedule/1"),
    (r#"["hold","0"]"#, "BadType at /schedule/1"),
    (r#"["hold",0.0]"#, "BadType at /schedule/1"),
    (r#"["hold",0,0]"#, "BadType at /schedule/1"),
    (r#"["nope",99]"#, "BadType at /schedule/1"),
    (r#"["hold",2]"#, "BadLimit at /schedule/1"),
    (r#"["hold",-1]"#, "BadLimit at /schedule/1"),
    (
        r#"["hold",18446744073709551615]"#,
        "BadLimit at /schedule/1",
    ),
    (r#"["hold",2],["hold"]"#, "BadLimit at /schedule/1"),
];

fn check_lines(alloc: Global, document: &str, refusal: &str) -> Result<bool, Fail> {
    let line = fault_line(alloc, document)?;
    let wanted = format!(in alloc; "bad document: {refusal}")?;
    Ok(line.as_str() == wanted.as_str())
}

#[test]
fn documents_are_refused_in_order(rt: HostRuntime) -> Result<(), Fail> {
    let alloc = rt.alloc();
    for (document, refusal) in DOCUMENTS {
        assert!(rt; check_lines(alloc, document, refusal)?, "{document}");
    }
    Ok(())
}

#[test]
fn calls_are_refused_in_order(rt: HostRuntime) -> Result<(), Fail> {
    let alloc = rt.alloc();
    let right = r#"{"op":"exists","name":"rpool"}"#;
    for (call, refusal) in CALLS {
        let sessions = format!(in alloc; "[],[{right},{right},{call},0]")?;
        let document = document(alloc, "", sessions.as_str(), "0")?;
        assert!(rt; check_lines(alloc, document.as_str(), refusal)?, "{call}");
    }
    Ok(())
}

#[test]
fn events_are_refused_in_order(rt: HostRuntime) -> Result<(), Fail> {
    let alloc = rt.alloc();
    for (event, refusal) in EVENTS {
        let schedule = format!(in alloc; r#"["hold",1],{event}"#)?;
        let document = document(alloc, "", "[],[]", schedule.as_str())?;
        assert!(rt; check_lines(alloc, document.as_str(), refusal)?, "{event}");
    }
    Ok(())
}

/// An array with too many items is refused before any of its items.
#[test]
fn arrays_are_counted_first(rt: HostRuntime) -> Result<(), Fail> {
    let alloc = rt.alloc();
    let many = "0,".repeat(alloc, 1000)?;
    let sessions = format!(in alloc; "[{many}0]")?;
    let called = document(alloc, "", sessions.as_str(), "0")?;
    let refusal = "TooMany at /sessions/0";
    assert!(rt; check_lines(alloc, called.as_str(), refusal)?);

    let sessions = format!(in alloc; "{}0", &many[..32])?;
    let opened = document(alloc, "", sessions.as_str(), "0")?;
    let refusal = "TooMany at /sessions";
    assert!(rt; check_lines(alloc, opened.as_str(), refusal)?);
    Ok(())
}

/// A document that ends too early is no JSON text, and neither is one that nests too deep.
#[test]
fn parts_of_a_document_are_no_json(rt: HostRuntime) -> Result<(), Fail> {
    let alloc = rt.alloc();
    let mut part = String::new(alloc);
    for next in CREATE.chars() {
        assert!(rt; check_lines(alloc, part.as_str(), "NotJson")?, "{part}");
        part.push(next)?;
    }
    let deep = "[".repeat(alloc, 1000)?;
    assert!(rt; check_lines(alloc, deep.as_str(), "NotJson")?);
    Ok(())
}
