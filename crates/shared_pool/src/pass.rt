//! What a session's thread holds, and what the thread holds that moves the groups on.
ghost use Rattle.std.specs.Prelude.{◌≡◌, ◌%◌, ◌^◌, length};
ghost use Rattle.shared_pool.specs.Passes.{calls_left, is_pass_busy};

use crate::progress::Progress;
use crate::recorded_core::CoreSeat;
use std::marker::Model;
use txg_core::Stated;

/// A session's place at a pool.
///
/// Contracts see the pool, where its histories begin, the session, the history that the pass has
/// seen, and how many turns it had.
#[derive(Drop)]
pub struct Pass<O: Stated + Drop> {
    pub(crate) seat: CoreSeat<O>,
    pub(crate) session: u32,
    /// How many calls the session has.
    pub(crate) count: u32,
    pub(crate) progress: Progress,
}

impl<O: Stated + Drop> Model for Pass<O> {
    ghost use Rattle.shared_pool.specs.Passes.{PassView, IsPass};

    ghost Value = { PassView O O.Call };

    ghost view = { λ p. record { pool = p.seat.lock; opening = p.seat.origin; session = p.session; front = p.seat.seen; turns = p.seat.turns } };

    ghost invariant = { λ p. IsPass O.means p.seat p.session p.count p.progress };
}

/// The place at a pool of the thread that moves its groups on.
///
/// Contracts see the pool, where its histories begin, the history that the pass has seen, and how
/// many turns it had.
#[derive(Drop)]
pub struct SyncPass<O: Stated + Drop> {
    pub(crate) seat: CoreSeat<O>,
    /// How many entries it has seen.
    pub(crate) entries: u64,
}

impl<O: Stated + Drop> Model for SyncPass<O> {
    ghost use Rattle.shared_pool.specs.Passes.{SyncPassView, IsSyncPass};

    ghost Value = { SyncPassView O O.Call };

    ghost view = { λ p. record { pool = p.seat.lock; opening = p.seat.origin; front = p.seat.seen; turns = p.seat.turns } };

    ghost invariant = { λ p. IsSyncPass O.means p.seat p.entries };
}

impl<O: Stated + Drop> Pass<O> {
    /// How many entries of the history it has seen.
    pub fn seen(&self) -> u64
        ensures { result ≡ length self.now.front }
    {
        self.progress.seen
    }

    /// How many calls of the session are not ended.
    pub fn left(&self) -> u32
        ensures { result ≡ calls_left O.means self.now }
    {
        self.count.saturating_sub(self.progress.next)
    }

    /// Whether a call of the session is under way.
    pub fn busy(&self) -> bool
        ensures { result ≡ is_pass_busy O.means self.now }
    {
        self.progress.busy
    }

    /// How many turns it had, modulo 2^64.
    pub fn turns(&self) -> u64
        ensures { result ≡ self.now.turns % 2 ^ 64 }
    {
        self.seat.turns()
    }
}

impl<O: Stated + Drop> SyncPass<O> {
    /// How many entries of the history it has seen.
    pub fn seen(&self) -> u64
        ensures { result ≡ length self.now.front }
    {
        self.entries
    }

    /// How many turns it had, modulo 2^64.
    pub fn turns(&self) -> u64
        ensures { result ≡ self.now.turns % 2 ^ 64 }
    {
        self.seat.turns()
    }
}
