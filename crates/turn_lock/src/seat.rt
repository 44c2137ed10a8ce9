//! Seats.
ghost use Rattle.std.specs.Prelude.{◌≡◌, ◌%◌, ◌^◌};

use crate::Recorded;
use crate::view::{Stored, View};
use known::Known;
use std::collections::LinkedList;
use std::marker::Model;

/// A thread's seat at one lock.
///
/// Contracts see its lock, where the lock's lists begin, the list that it has seen, its numbers,
/// whether it has the turn, and how many turns it had. It carries no bound, so that a struct above
/// can hold it.
#[derive(Drop)]
pub struct Seat<T, O, E> {
    pub(crate) place: atomic_table::Seat<Stored<T, E>, View<O, E>>,
    pub(crate) origin: Known<O>,
    pub(crate) turns: u64,
}

impl<T, O, E> Model for Seat<T, O, E> {
    ghost use Rattle.turn_lock.specs.Seats.{SeatView, seat_of, IsSeat};

    ghost Value = { SeatView O E };

    ghost view = { λ s. seat_of s.place s.origin.value };

    ghost invariant = { λ s. IsSeat s.place s.origin.value s.turns };
}

/// A seat at a lock round a `T`.
pub type SeatOf<T> = Seat<T, <T as Recorded>::Origin, <T as Recorded>::Entry>;

/// Its place at the table.
pub(crate) type Place<T> = atomic_table::Seat<
    Stored<T, <T as Recorded>::Entry>,
    View<<T as Recorded>::Origin, <T as Recorded>::Entry>,
>;

impl<T, O, E> Seat<T, O, E> {
    /// How many turns it had, modulo 2^64.
    pub fn turns(&self) -> u64
        ensures { result ≡ self.now.turns % 2 ^ 64 }
    {
        self.turns
    }

    /// The list that it has seen.
    pub fn seen(&self) -> Known<LinkedList<E>>
        ensures { result.value ≡ self.now.seen }
    {
        Known::from_pair(&self.place, &())
    }
}
