//! The journal of a run of additions of 1, replayed plainly.
use std::alloc::{AllocError, Global};
use txg_core::Event;

#[derive(Clone, Copy, Debug, PartialEq, Eq, Drop)]
enum Phase {
    Idle,
    Holding,
    Checked,
    Waiting,
    Decided,
}

#[derive(Clone, Copy, Debug, Drop)]
struct Session {
    phase: Phase,
    group: u64,
}

/// What the events so far come to.
#[derive(Drop)]
pub(crate) struct Replay {
    pub(crate) value: u64,
    quiesced: u64,
    begun: u64,
    ended: u64,
    sessions: Vec<Session>,
}

impl Replay {
    /// No event of two sessions.
    pub(crate) fn new(alloc: Global) -> Result<Replay, AllocError> {
        let idle = Session {
            phase: Phase::Idle,
            group: 0,
        };
        Ok(Replay {
            value: 0,
            quiesced: 0,
            begun: 0,
            ended: 0,
            sessions: vec![in alloc; idle, idle]?,
        })
    }

    fn is_any(&self, group: u64, phase: Phase) -> bool {
        self.sessions
            .iter()
            .any(|it| it.group == group && it.phase == phase)
    }

    fn steps(&mut self, session: u32, from: Phase, to: Phase) -> bool {
        let Some(it) = self.sessions.get_mut(session as usize) else {
            return false;
        };
        let may = it.phase == from;
        it.phase = to;
        may
    }

    fn group(&self, session: u32) -> u64 {
        match self.sessions.get(session as usize) {
            Some(it) => it.group,
            None => 0,
        }
    }

    fn hold(&mut self, session: u32) -> bool {
        let may = self.steps(session, Phase::Idle, Phase::Holding);
        if let Some(it) = self.sessions.get_mut(session as usize) {
            it.group = self.quiesced.wrapping_add(1);
        }
        may
    }

    fn sync(&mut self, session: u32) -> bool {
        let may = self.ended < self.begun && self.group(session) == self.begun;
        if self.value < 1000 {
            self.value = self.value.wrapping_add(1);
        }
        self.steps(session, Phase::Waiting, Phase::Decided) && may
    }

    fn quiesce(&mut self) -> bool {
        let may = self.quiesced == self.begun;
        self.quiesced = self.quiesced.wrapping_add(1);
        may && self.is_any(self.quiesced, Phase::Waiting)
    }

    fn begin(&mut self) -> bool {
        let may = self.begun < self.quiesced && self.ended == self.begun;
        self.begun = self.begun.wrapping_add(1);
        may && !self.is_any(self.begun, Phase::Holding) && !self.is_any(self.begun, Phase::Checked)
    }

    fn end(&mut self) -> bool {
        let may = self.ended < self.begun && !self.is_any(self.begun, Phase::Waiting);
        self.ended = self.ended.wrapping_add(1);
        may
    }

    /// Whether the event may come next. Where it may, it has come.
    pub(crate) fn follows(&mut self, event: &Event) -> bool {
        match *event {
            Event::Hold(s) => self.hold(s),
            Event::Check(s) if self.value < 1000 => self.steps(s, Phase::Holding, Phase::Checked),
            Event::Check(s) => self.steps(s, Phase::Holding, Phase::Idle),
            Event::Enqueue(s) => self.steps(s, Phase::Checked, Phase::Waiting),
            Event::Read(_) => false,
            Event::Quiesce => self.quiesce(),
            Event::Begin => self.begin(),
            Event::Sync(s) => self.sync(s),
            Event::End => self.end(),
            Event::Take(s) => {
                self.group(s) <= self.ended && self.steps(s, Phase::Decided, Phase::Idle)
            }
        }
    }
}
