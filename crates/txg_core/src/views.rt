//! What a core shows.
ghost use Rattle.std.specs.Prelude.{◌≡◌, ◌<◌, false, List, length};
ghost use Rattle.txg_core.specs.Rules.{Origin};
ghost use Rattle.txg_core.specs.History.{journal_of, synced, open_group};
ghost use Rattle.txg_core.specs.Serial.{world, next};
ghost use Rattle.txg_core.specs.Sessions.{phase, is_busy};
ghost use Rattle.txg_core.specs.Stands.{Stands, IsStanding};

use crate::session::Progress;
use crate::{Core, Entry, Event, Stated};

impl<O: Stated + Drop> Core<O> {
    /// All events so far, the oldest first.
    pub fn journal(&self) -> &[Event]
        ensures { (o : Origin O.World O.Call O.Reply) (h : List (Entry O.Call)) →
            Stands O.means o self.now h → result.now ≡ journal_of h }
    {
        self.journal.as_slice()
    }

    /// How many events there were so far.
    pub fn len(&self) -> u64
        ensures { (o : Origin O.World O.Call O.Reply) (h : List (Entry O.Call)) →
            Stands O.means o self.now h → result ≡ length h }
    {
        self.journal.as_slice().len() as u64
    }

    /// The last transaction group that is synced, 0 at first.
    pub fn synced(&self) -> u64
        ensures { (o : Origin O.World O.Call O.Reply) (h : List (Entry O.Call)) →
            Stands O.means o self.now h → result ≡ synced h }
    {
        self.ended
    }

    /// The transaction group that sessions join now, 1 at first.
    pub fn open_group(&self) -> u64
        requires standing { IsStanding O.means self.now }
        ensures { (o : Origin O.World O.Call O.Reply) (h : List (Entry O.Call)) →
            Stands O.means o self.now h → result ≡ open_group h }
    {
        self.quiesced + 1
    }

    /// The number of the session's next call, from 0.
    pub fn next_call(&self, session: u32) -> u32
        requires { session < length self.now.sessions }
        ensures { (o : Origin O.World O.Call O.Reply) (h : List (Entry O.Call)) →
            Stands O.means o self.now h → result ≡ next o h session }
    {
        self.sessions[session as usize].next
    }

    /// Whether a call of the session is under way, from its hold to its take.
    pub fn is_busy(&self, session: u32) -> bool
        requires { session < length self.now.sessions }
        ensures { (o : Origin O.World O.Call O.Reply) (h : List (Entry O.Call)) →
            Stands O.means o self.now h → result ≡ is_busy (phase o h session) }
    {
        !matches!(self.sessions[session as usize].progress, Progress::Idle)
    }

    /// The object, as the calls that were done left it.
    pub fn object(&self) -> &O
        requires { self.now.spent ≡ false }
        ensures rules { (o : Origin O.World O.Call O.Reply) (h : List (Entry O.Call)) →
            Stands O.means o self.now h → (O.means result.now).rules ≡ o.rules }
        ensures world { (o : Origin O.World O.Call O.Reply) (h : List (Entry O.Call)) →
            Stands O.means o self.now h → (O.means result.now).world ≡ world o h }
    {
        &self.object
    }

    /// Whether a call of this core answered `NoMemory`. A spent core gives the replies that it
    /// keeps, and does nothing else.
    pub fn spent(&self) -> bool
        ensures { result ≡ self.now.spent }
    {
        self.spent
    }
}
