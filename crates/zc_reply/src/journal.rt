//! Events as JSON.

ghost use Rattle.std.specs.Prelude.{◌≡◌, IfOk};
ghost use Rattle.serde_json.specs.View.{view};
ghost use Rattle.zc_reply.specs.Journal.{event_data, session_event, group_event};

use crate::json::ToJson;
use serde_json::{Value, json};
use std::alloc::{AllocError, Global};
use txg_core::{Event, EventParts};

fn session_event(alloc: Global, word: &str, session: u32) -> Result<Value, AllocError>
    ensures { IfOk result (λ v. view v ≡ session_event word.now session) }
{
    json!(in alloc; [word, session])
}

fn group_event(alloc: Global, word: &str) -> Result<Value, AllocError>
    ensures { IfOk result (λ v. view v ≡ group_event word.now) }
{
    json!(in alloc; [word])
}

impl ToJson for Event {
    ghost as_data = { event_data };

    ghost can_print = { λ _. Unit {0} };

    fn to_json(&self, alloc: Global) -> Result<Value, AllocError> {
        match self.parts() {
            EventParts::Step(step, session) => session_event(alloc, step.word(), session),
            EventParts::Transition(transition) => group_event(alloc, transition.word()),
        }
    }
}
