//! The document itself, and reading it.

ghost use Rattle.std.specs.Prelude.{◌≡◌, ◌≤◌, ◌-◌, ◌^◌, All, length, IfOk};
ghost use Rattle.zp_tree.specs.WellFormed.{IsWellFormed};
ghost use Rattle.zp_calls.specs.Names.{HasValidNames};
ghost use Rattle.serde_json.specs.View.{view};
ghost use Rattle.zc_doc.specs.Reading.{Gives};
ghost use Rattle.zc_doc.specs.Programs.{AreNamed};
ghost use Rattle.zc_doc.specs.Document.{schedule_in, document_at, document_of, GivesContents, most_calls, most_sessions};

use crate::call::{CallIn, CommandIn, PoolName};
use crate::event::EventOf;
use crate::program::Programs;
use crate::reading::{ArrayOf, NumberIn, Reader, member, member_or, only_members};
use crate::setup::set_up;
use crate::{DocError, Program};
use serde_json::Value;
use std::alloc::Global;
use txg_core::Event;
use zp_calls::Call;
use zp_names::{Name, Sequence};
use zp_tree::PlainTree;

/// The greatest number of bytes of a document.
pub const MOST_BYTES: u64 = 16_777_216;

const MOST_SETUP: u64 = 100_000;

const MOST_SESSIONS: u64 = 16;

const MOST_CALLS: u64 = 1_000;

const MOST_EVENTS: u64 = 128_000;

/// A document, as it was read.
#[derive(Drop)]
pub struct Document {
    /// The name of the pool.
    pub pool: Name,
    /// The moment of the run, in seconds.
    pub now: u64,
    /// The tree that the run begins with: after the setup.
    pub tree: PlainTree,
    /// The channel programs, in byte order of their names.
    pub programs: Sequence<Program>,
    /// The calls of each session, in their order.
    pub sessions: Sequence<Sequence<Call>>,
    /// The events to be done, in their order.
    pub schedule: Sequence<Event>,
}

/// Which members a document has to have.
#[derive(Clone, Copy, Debug, PartialEq, Eq, Drop)]
pub enum Need {
    /// The schedule may be missing.
    Any,
    /// The schedule is there.
    Schedule,
}

/// Reads a document from its bytes, and does its setup. Where its schedule is missing, it has no
/// events. The refusal is the first: of the length, of the JSON text (RFC 8259), of the members in
/// their order, of the setup.
#[tactic(auto, unfolding(crate::specs::Document::document_of))]
pub fn read_document(alloc: Global, bytes: &[u8], need: Need) -> Result<Document, DocError>
    ensures document { GivesContents result (document_of need bytes.now) }
    // What is so of every document.
    ensures well { IfOk result (λ document. IsWellFormed document.tree.tree) }
    ensures programs { IfOk result (λ document. AreNamed document.programs) }
    ensures few { IfOk result (λ document. length document.sessions ≤ most_sessions) }
    ensures calls { IfOk result (λ document. All (λ calls. length calls ≤ most_calls) document.sessions) }
    ensures names { IfOk result (λ document. All (All HasValidNames) document.sessions) }
{
    let count = bytes.len() as u64;
    if MOST_BYTES < count {
        return Err(DocError::TooLong(count));
    }
    match Value::from_slice(alloc, bytes) {
        Ok(value) => read_members(alloc, &value, need),
        Err(error) if error.is_memory() => Err(DocError::NoMemory),
        Err(_) => Err(DocError::NotJson),
    }
}

/// Reads the schedule of a document with so many sessions.
#[tactic(auto, unfolding(crate::specs::Document::schedule_in))]
fn read_schedule(
    alloc: Global,
    value: &Value,
    need: Need,
    sessions: u32,
) -> Result<Sequence<Event>, DocError>
    ensures { Gives result (schedule_in need sessions (view value.now)) }
{
    let events = ArrayOf {
        limit: MOST_EVENTS,
        item: EventOf { sessions },
    };
    match need {
        Need::Any => member_or(alloc, &events, Sequence::new(alloc), "schedule", value),
        Need::Schedule => member(alloc, &events, "schedule", value),
    }
}

/// Reads the members in their order, and does the setup.
#[tactic(auto, unfolding(crate::specs::Document::document_at))]
fn read_members(alloc: Global, value: &Value, need: Need) -> Result<Document, DocError>
    ensures document { GivesContents result (document_at need (view value.now)) }
    ensures well { IfOk result (λ document. IsWellFormed document.tree.tree) }
    ensures programs { IfOk result (λ document. AreNamed document.programs) }
    ensures few { IfOk result (λ document. length document.sessions ≤ most_sessions) }
    ensures calls { IfOk result (λ document. All (λ calls. length calls ≤ most_calls) document.sessions) }
    ensures names { IfOk result (λ document. All (All HasValidNames) document.sessions) }
{
    let known = ["pool", "now", "setup", "programs", "sessions", "schedule"];
    only_members(alloc, &known, value)?;
    let pool = member(alloc, &PoolName, "pool", value)?;
    let moment = NumberIn {
        low: 0,
        high: (1 << 63) - 1,
    };
    let now = member(alloc, &moment, "now", value)?;
    let commands = ArrayOf {
        limit: MOST_SETUP,
        item: CommandIn { pool: &pool },
    };
    let setup = member(alloc, &commands, "setup", value)?;
    let programs = member(alloc, &Programs, "programs", value)?;
    let calls = ArrayOf {
        limit: MOST_CALLS,
        item: CallIn { pool: &pool },
    };
    let sessions = ArrayOf {
        limit: MOST_SESSIONS,
        item: calls,
    };
    let sessions = member(alloc, &sessions, "sessions", value)?;
    let schedule = read_schedule(alloc, value, need, sessions.as_slice().len() as u32)?;
    let tree = set_up(alloc, PlainTree::new(alloc, &pool)?, setup.as_slice(), now)?;
    Ok(Document {
        pool,
        now,
        tree,
        programs,
        sessions,
        schedule,
    })
}
