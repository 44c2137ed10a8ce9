//! Events in a document.

ghost use Rattle.std.specs.Prelude.{◌<◌, ⊤, IfOk};
ghost use Rattle.serde_json.specs.View.{view};
ghost use Rattle.zc_doc.specs.Reading.{Gives};
ghost use Rattle.zc_doc.specs.Document.{session_number_at, group_event, session_event, event_at};

use crate::DocError;
use crate::reading::{NumberIn, Reader};
use serde_json::Value;
use std::alloc::Global;
use txg_core::{Event, Step, Transition};

/// An event, where there are so many sessions.
#[derive(Drop)]
pub(crate) struct EventOf {
    pub(crate) sessions: u32,
}

impl Reader for EventOf {
    type Out = Event;

    ghost reads = { λ r. event_at r.sessions };

    ghost Holds = { λ _ _. ⊤ };

    fn read(&self, alloc: Global, value: &Value) -> Result<Event, DocError> {
        let Some(list) = value.as_array() else {
            return Err(DocError::bad_type(alloc));
        };
        match list.as_slice() {
            [] => Err(DocError::bad_type(alloc)),
            [word] => match word.as_str() {
                Some(word) => read_group_event(alloc, word),
                None => Err(DocError::bad_type(alloc)),
            },
            [word, session] => match word.as_str() {
                Some(word) => read_session_event(alloc, self.sessions, word, session),
                None => Err(DocError::bad_type(alloc)),
            },
            _ => Err(DocError::bad_type(alloc)),
        }
    }
}

/// Reads the move of a group.
#[tactic(auto, unfolding(crate::specs::Document::group_event))]
fn read_group_event(alloc: Global, word: &str) -> Result<Event, DocError>
    ensures { Gives result (group_event word.now) }
{
    match Transition::named(word) {
        Some(transition) => Ok(transition.event()),
        None => Err(DocError::bad_type(alloc)),
    }
}

/// Reads the step of a session.
#[tactic(auto, unfolding(crate::specs::Document::session_event))]
fn read_session_event(
    alloc: Global,
    sessions: u32,
    word: &str,
    session: &Value,
) -> Result<Event, DocError>
    ensures { Gives result (session_event sessions word.now (view session.now)) }
{
    let Some(step) = Step::named(word) else {
        return Err(DocError::bad_type(alloc));
    };
    let session = read_session(alloc, sessions, session)?;
    Ok(step.event(session))
}

/// Reads the number of a session.
fn read_session(alloc: Global, sessions: u32, value: &Value) -> Result<u32, DocError>
    ensures { Gives result (session_number_at sessions (view value.now)) }
{
    let whole = NumberIn {
        low: 0,
        high: u64::MAX,
    };
    let session = whole.read(alloc, value)?;
    if session < sessions as u64 {
        Ok(session as u32)
    } else {
        Err(DocError::bad_limit(alloc))
    }
}
