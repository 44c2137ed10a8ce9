//! Histories that grow with a core, which contracts alone see.
ghost use Rattle.std.specs.Prelude.{◌≡◌, ◌∷◌, []};
ghost use Rattle.txg_core.specs.History.{enqueues};
ghost use Rattle.txg_core.specs.declared.event.Entry.TheVariants.{Call as CallOf, Group as GroupOf};
ghost use Rattle.shared_pool.specs.Recordings.{with_first_sync, with_take};

use crate::recorded_core::History;
use known::Known;
use txg_core::{Core, Opening, Stated, Step, Task, Transition};

/// Where the histories of a core begin that is made of these.
pub(crate) fn opening_of<O>(object: &O, counts: &[u32]) -> Known<Opening<O>>
    ensures { result.value ≡ record { object = object.now; counts = counts.now } }
{
    Known::from_pair(object, &counts)
}

/// No entries.
pub(crate) fn nothing<O: Stated>(object: &O) -> History<O>
    ensures { result.value ≡ [] }
{
    Known::from_pair(object, &())
}

/// The history after a session's step.
pub(crate) fn with_step<O: Stated>(
    history: &History<O>,
    step: Step,
    session: u32,
    call: &O::Call,
) -> History<O>
    ensures { result.value ≡ CallOf step session call.now ∷ history.now.value }
{
    Known::from_four(history, &step, &session, call)
}

/// The history after a move of the groups.
pub(crate) fn with_move<O: Stated>(history: &History<O>, transition: Transition) -> History<O>
    ensures { result.value ≡ GroupOf transition ∷ history.now.value }
{
    Known::from_pair(history, &transition)
}

/// The history after the enqueue of a task.
pub(crate) fn with_task<O: Stated>(history: &History<O>, task: &Task<O>) -> History<O>
    ensures { result.value ≡ enqueues task.now.session task.now.call ∷ history.now.value }
{
    Known::from_pair(history, task)
}

/// The history after the take of the session's queued call.
pub(crate) fn after_take<O: Stated>(
    opening: &Known<Opening<O>>,
    history: &History<O>,
    session: u32,
) -> History<O>
    ensures { result.value ≡ with_take O.means opening.now.value session history.now.value }
{
    Known::from_four(opening, history, &session, &())
}

/// The history after the sync of the first task of the syncing group.
pub(crate) fn after_sync<O: Stated + Drop>(core: &Core<O>, history: &History<O>) -> History<O>
    ensures { result.value ≡ with_first_sync core.now.syncing_queue history.now.value }
{
    Known::from_pair(core, history)
}
