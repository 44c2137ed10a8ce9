//! Doing a schedule on any object: its events one by one, each where it is enabled.

ghost use Rattle.std.specs.Prelude.{◌≡◌, ◌<◌, ◌^◌, ◌++◌, ◌∷◌, [], ℕ, IsSome, IsTrue, false, Some, List, All, length, map, IfOk, IfErr, OnOk, slice_index_or, slice_set};
ghost use Rattle.txg_core.specs.Rules.{origin_of};
ghost use Rattle.txg_core.specs.declared.event.Entry.{Entry};
ghost use Rattle.txg_core.specs.Calls.{IsHistoryOf};
ghost use Rattle.txg_core.specs.Events.{event_of_step, event_of_transition};
ghost use Rattle.zc_offline.specs.Replay.{call_in, number_in, Follows, IsFollowing, IsReady, IsBarred, HasNext, NextIs, Does, StopsAt};

use std::alloc::Global;
use std::sync::Arc;
use txg_core::{Checked, Core, Event, EventParts, Kind, SerialObject, Step, Task, Transition};
use zc_io::NoMemory;
use zp_calls::Call;
use zp_names::Sequence;

/// A call that can be copied, for the task in the queue of its group.
pub(crate) trait CopyCall: Drop {
    fn copy_call(&self, alloc: Global) -> Result<Self, NoMemory>
        ensures { IfOk result (λ copy. copy ≡ self.now) };
}

impl CopyCall for Call {
    fn copy_call(&self, alloc: Global) -> Result<Call, NoMemory> {
        self.copy(alloc)
    }
}

/// Why an event was not done.
#[derive(Clone, Copy, Debug, PartialEq, Eq, Drop)]
pub(crate) enum Stop {
    /// It is not enabled after the events before it.
    NotEnabled,
    /// There was no memory left.
    NoMemory,
}

impl From<NoMemory> for Stop {
    ghost use Rattle.std.specs.Prelude.{◌≡◌};
    ghost use Rattle.zc_offline.specs.declared.replay.Stop.TheVariants as stop;

    ghost from_gives = { λ _ e. e ≡ stop.NoMemory };

    fn from(_error: NoMemory) -> Stop {
        Stop::NoMemory
    }
}

/// Why a schedule was not done to its end.
#[derive(Clone, Copy, Debug, PartialEq, Eq, Drop)]
pub(crate) enum Halt {
    /// The event of this number, from 0, is not enabled after those before it.
    NotEnabled(u64),
    /// There was no memory left.
    NoMemory,
}

impl From<NoMemory> for Halt {
    ghost use Rattle.std.specs.Prelude.{◌≡◌};
    ghost use Rattle.zc_offline.specs.declared.replay.Halt.TheVariants as halt;

    ghost from_gives = { λ _ e. e ≡ halt.NoMemory };

    fn from(_error: NoMemory) -> Halt {
        Halt::NoMemory
    }
}

/// A core at work, and the replies that each session was given.
#[derive(Drop)]
pub(crate) struct Run<O: SerialObject + Drop> {
    pub(crate) core: Core<O>,
    pub(crate) replies: Vec<Sequence<O::Reply>>,
}

/// How many replies the session was given.
fn given_count<R: Drop>(replies: &[Sequence<R>], session: u32) -> usize
    requires { session < length replies.now }
    ensures { result ≡ number_in replies.now session }
{
    replies[session as usize].as_slice().len()
}

/// The call of this number of the session.
fn call_at<C: Drop>(sessions: &[Sequence<C>], session: u32, number: usize) -> &C
    requires { IsSome (call_in sessions.now session number) }
    ensures { call_in sessions.now session number ≡ Some result.now }
{
    &sessions[session as usize].as_slice()[number]
}

/// Gives the session a reply.
fn give<R: Drop>(replies: &mut Vec<Sequence<R>>, session: u32, reply: R) -> Result<(), NoMemory>
    requires { session < length replies.old.items }
    ensures { OnOk result (replies.new.items ≡ slice_set replies.old.items session (slice_index_or replies.old.items session [] ++ reply ∷ [])) }
{
    let given = &mut replies[session as usize];
    given.push(reply)
}

/// The task of a call, for the queue of its group.
fn new_task<O: SerialObject + Drop>(
    alloc: Global,
    session: u32,
    call_no: u32,
    call: &O::Call,
) -> Result<Arc<Task<O>>, NoMemory>
where
    O::Call: CopyCall,
    ensures { IfOk result (λ task. task.value ≡ record { session = session; call_no = call_no; call = call.now }) }
{
    let task = Task {
        session,
        call_no,
        call: call.copy_call(alloc)?,
    };
    Ok(Arc::new(alloc, task)?)
}

/// How many calls each session has.
fn counts_of<C: Drop>(alloc: Global, sessions: &[Sequence<C>]) -> Result<Vec<u32>, NoMemory>
    requires { All (λ calls. length calls < 2 ^ 32) sessions.now }
    ensures { IfOk result (λ counts. counts.items ≡ map length sessions.now) }
{
    let mut counts = Vec::new(alloc);
    for calls in sessions {
        counts.push(calls.as_slice().len() as u32)?;
    }
    Ok(counts)
}

/// An empty list of replies for each session.
fn no_replies<C: Drop, R: Drop>(
    alloc: Global,
    sessions: &[Sequence<C>],
) -> Result<Vec<Sequence<R>>, NoMemory>
    ensures { IfOk result (λ replies. replies.items ≡ map (λ _. []) sessions.now) }
{
    let mut replies = Vec::new(alloc);
    for _session in sessions {
        replies.push(Sequence::new(alloc))?;
    }
    Ok(replies)
}

/// Does the events of a schedule in turn, on an object whose sessions have these calls.
pub(crate) fn replay<O: SerialObject + Drop>(
    alloc: Global,
    object: O,
    sessions: &[Sequence<O::Call>],
    schedule: &[Event],
) -> Result<Run<O>, Halt>
where
    O::Call: CopyCall,
    requires { All (λ calls. length calls < 2 ^ 32) sessions.now }
    ensures ok { IfOk result (λ run. let o = origin_of (O.means object) (map length sessions.now) in
        (h : List (Entry O.Call)) × IsHistoryOf o (call_in sessions.now) schedule.now h × Follows O.means o sessions.now run h) }
    ensures event { IfErr result (λ e. (i : ℕ) → e ≡ Halt.NotEnabled i →
        StopsAt (origin_of (O.means object) (map length sessions.now)) sessions.now schedule.now i) }
{
    let mut run = Run::new(alloc, object, sessions)?;
    for (place, event) in schedule.iter().enumerate() {
        match run.step(alloc, sessions, *event) {
            Ok(()) => {}
            Err(Stop::NotEnabled) => return Err(Halt::NotEnabled(place as u64)),
            Err(Stop::NoMemory) => return Err(Halt::NoMemory),
        }
    }
    Ok(run)
}

impl<O: SerialObject + Drop> Run<O>
where
    O::Call: CopyCall,
{
    /// A run at its begin: nobody has called yet.
    fn new(alloc: Global, object: O, sessions: &[Sequence<O::Call>]) -> Result<Run<O>, NoMemory>
        requires { All (λ calls. length calls < 2 ^ 32) sessions.now }
        ensures { IfOk result (λ run. Follows O.means (origin_of (O.means object) (map length sessions.now)) sessions.now run []) }
    {
        let counts = counts_of(alloc, sessions)?;
        let replies = no_replies(alloc, sessions)?;
        let core = Core::new(alloc, object, counts.as_slice())?;
        Ok(Run { core, replies })
    }

    /// Whether the event may come next, but for the kind of its call.
    fn is_enabled(&self, sessions: &[Sequence<O::Call>], event: &Event) -> bool
        requires { IsFollowing O.means sessions.now self.now }
        ensures yes { IsTrue result → IsReady O.means sessions.now self.now event.now }
        ensures no { result ≡ false → IsBarred O.means sessions.now self.now event.now }
    {
        self.core.enabled(event)
    }

    /// The session's next call: as many were ended as replies were given.
    fn next_call<'a>(&self, sessions: &'a [Sequence<O::Call>], session: u32) -> &'a O::Call
        requires following { IsFollowing O.means sessions.now self.now }
        requires there { HasNext O.means sessions.now self.now session }
        ensures { NextIs O.means sessions.now self.now session result.now }
    {
        let number = given_count(self.replies.as_slice(), session);
        call_at(sessions, session, number)
    }

    fn kind(&self, sessions: &[Sequence<O::Call>], call: &O::Call) -> Kind
        requires { IsFollowing O.means sessions.now self.now }
        ensures { result ≡ O.kind_of call.now }
    {
        self.core.object().kind(call)
    }

    /// Does the event where it is enabled after those before it.
    fn step(
        &mut self,
        alloc: Global,
        sessions: &[Sequence<O::Call>],
        event: Event,
    ) -> Result<(), Stop>
        requires { IsFollowing O.means sessions.now self.old }
        ensures { Does O.means sessions.now self.old self.new result event }
    {
        if !self.is_enabled(sessions, &event) {
            return Err(Stop::NotEnabled);
        }
        match event.parts() {
            EventParts::Step(step, session) => self.take_step(alloc, sessions, step, session),
            EventParts::Transition(transition) => self.move_group(sessions, transition),
        }
    }

    fn take_step(
        &mut self,
        alloc: Global,
        sessions: &[Sequence<O::Call>],
        step: Step,
        session: u32,
    ) -> Result<(), Stop>
        requires ready { IsReady O.means sessions.now self.old (event_of_step step session) }
        ensures { Does O.means sessions.now self.old self.new result (event_of_step step session) }
    {
        let call = self.next_call(sessions, session);
        match step {
            Step::Hold => self.hold(sessions, session, call),
            Step::Check => self.check(alloc, sessions, session, call),
            Step::Enqueue => self.enqueue(alloc, sessions, session, call),
            Step::Read => self.read(alloc, sessions, session, call),
            Step::Sync => self.sync(alloc, sessions, session, call),
            Step::Take => self.take(sessions, session, call),
        }
    }

    fn move_group(
        &mut self,
        sessions: &[Sequence<O::Call>],
        transition: Transition,
    ) -> Result<(), Stop>
        requires ready { IsReady O.means sessions.now self.old (event_of_transition transition) }
        ensures { Does O.means sessions.now self.old self.new result (event_of_transition transition) }
    {
        match transition {
            Transition::Quiesce => self.core.quiesce(),
            Transition::Begin => self.core.begin(),
            Transition::End => self.core.end(),
        }
        Ok(())
    }

    fn hold(
        &mut self,
        sessions: &[Sequence<O::Call>],
        session: u32,
        call: &O::Call,
    ) -> Result<(), Stop>
        requires ready { IsReady O.means sessions.now self.old (Event.Hold session) }
        requires next { NextIs O.means sessions.now self.old session call.now }
        ensures { Does O.means sessions.now self.old self.new result (Event.Hold session) }
    {
        match self.kind(sessions, call) {
            Kind::Change => {
                self.core.hold(session);
                Ok(())
            }
            Kind::Query => Err(Stop::NotEnabled),
        }
    }

    fn check(
        &mut self,
        alloc: Global,
        sessions: &[Sequence<O::Call>],
        session: u32,
        call: &O::Call,
    ) -> Result<(), Stop>
        requires ready { IsReady O.means sessions.now self.old (Event.Check session) }
        requires next { NextIs O.means sessions.now self.old session call.now }
        ensures { Does O.means sessions.now self.old self.new result (Event.Check session) }
    {
        if let Checked::Refused(reply) = self.core.check(alloc, session, call)? {
            give(&mut self.replies, session, reply)?;
        }
        Ok(())
    }

    fn enqueue(
        &mut self,
        alloc: Global,
        sessions: &[Sequence<O::Call>],
        session: u32,
        call: &O::Call,
    ) -> Result<(), Stop>
        requires ready { IsReady O.means sessions.now self.old (Event.Enqueue session) }
        requires next { NextIs O.means sessions.now self.old session call.now }
        ensures { Does O.means sessions.now self.old self.new result (Event.Enqueue session) }
    {
        let call_no = given_count(self.replies.as_slice(), session) as u32;
        let task = new_task(alloc, session, call_no, call)?;
        self.core.enqueue(task);
        Ok(())
    }

    fn read(
        &mut self,
        alloc: Global,
        sessions: &[Sequence<O::Call>],
        session: u32,
        call: &O::Call,
    ) -> Result<(), Stop>
        requires ready { IsReady O.means sessions.now self.old (Event.Read session) }
        requires next { NextIs O.means sessions.now self.old session call.now }
        ensures { Does O.means sessions.now self.old self.new result (Event.Read session) }
    {
        match self.kind(sessions, call) {
            Kind::Query => {
                let reply = self.core.read(alloc, session, call)?;
                give(&mut self.replies, session, reply)?;
                Ok(())
            }
            Kind::Change => Err(Stop::NotEnabled),
        }
    }

    fn sync(
        &mut self,
        alloc: Global,
        sessions: &[Sequence<O::Call>],
        session: u32,
        call: &O::Call,
    ) -> Result<(), Stop>
        requires ready { IsReady O.means sessions.now self.old (Event.Sync session) }
        requires next { NextIs O.means sessions.now self.old session call.now }
        ensures { Does O.means sessions.now self.old self.new result (Event.Sync session) }
    {
        self.core.sync_next(alloc)?;
        Ok(())
    }

    fn take(
        &mut self,
        sessions: &[Sequence<O::Call>],
        session: u32,
        call: &O::Call,
    ) -> Result<(), Stop>
        requires ready { IsReady O.means sessions.now self.old (Event.Take session) }
        requires next { NextIs O.means sessions.now self.old session call.now }
        ensures { Does O.means sessions.now self.old self.new result (Event.Take session) }
    {
        let Ok(done) = self.core.take(session) else {
            unreachable!()
        };
        give(&mut self.replies, session, done.reply)?;
        Ok(())
    }
}
