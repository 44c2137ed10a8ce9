//! What the calls of a pool answer.
ghost use Rattle.std.specs.Prelude.{◌≡◌, IfOk};

use std::marker::Model;
use txg_core::{Event, Stated};
use zc_io::NoMemory;

/// A change that is queued, by which its reply is collected.
#[derive(Debug, Drop)]
pub struct Ticket {
    pub session: u32,
    /// The call's number among those of its session, from 0.
    pub call_no: u32,
    /// The transaction group in which it is queued.
    pub group: u64,
}

/// Why a change isn't queued.
#[derive(Drop)]
pub enum Refusal<R> {
    /// The check in open context, on the object after so many events, gave this reply.
    Checked { reply: R, at: u64 },
    NoMemory,
}

/// What `advance` did.
#[derive(Debug, Drop)]
pub enum Advanced {
    /// This event.
    Moved(Event),
    /// Nothing: after so many events none of its four could come next.
    Idle { at: u64 },
}

/// What is left of a pool that was closed.
#[derive(Drop)]
pub struct Closed<O> {
    /// The object, as the calls that were done left it.
    pub object: O,
    /// All events, the oldest first.
    pub journal: Vec<Event>,
    /// The last transaction group that is synced.
    pub synced: u64,
}

/// The object as a query was to see it. Contracts see the reply that it will give.
#[derive(Drop)]
pub struct View<O: Stated> {
    pub(crate) reply: O::Reply,
}

impl<O: Stated> Model for View<O> {
    ghost Value = { O.Reply };

    ghost view = { λ v. v.reply };
}

impl<O: Stated> View<O> {
    /// The reply to the query. It waits for nobody.
    pub fn answer(self) -> Result<O::Reply, NoMemory>
        ensures { IfOk result (λ reply. reply ≡ self) }
    {
        Ok(self.reply)
    }
}
