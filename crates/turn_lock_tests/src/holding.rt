//! A struct that holds a seat.
ghost use Rattle.std.specs.Prelude.{◌≡◌, ◌∷◌, [], ◌+◌, false};
ghost use Rattle.turn_lock.specs.Entries.{GoesOnByOthers};

use std::marker::Model;
use std::sync::Wait;
use turn_lock::{Recorded, Seat, SeatOf, TurnLock};

/// A seat without the turn that has one number.
#[derive(Drop)]
pub struct Holder<T, O, E> {
    pub(crate) seat: Seat<T, O, E>,
    number: u32,
}

impl<T, O, E> Model for Holder<T, O, E> {
    ghost use Rattle.std.specs.Prelude.{◌≡◌, ◌∷◌, [], false};
    ghost use Rattle.turn_lock_tests.specs.Holding.{HolderView};

    ghost Value = { HolderView O E };

    ghost view = { λ h. record { lock = h.seat.lock; origin = h.seat.origin; seen = h.seat.seen; number = h.number; turns = h.seat.turns } };

    ghost invariant = { λ h. (h.seat.has_turn ≡ false) × (h.seat.numbers ≡ h.number ∷ []) };
}

/// Holds the seat.
pub fn holder_of<T: Recorded + Drop>(seat: SeatOf<T>, number: u32) -> Holder<T, T::Origin, T::Entry>
    requires free { seat.has_turn ≡ false }
    requires number { seat.numbers ≡ number ∷ [] }
    ensures { result ≡ record { lock = seat.lock; origin = seat.origin; seen = seat.seen; number = number; turns = seat.turns } }
{
    Holder { seat, number }
}

/// A turn in which nothing is added.
pub fn look_in<T: Recorded + Drop, R: Wait>(
    rt: &R,
    lock: &TurnLock<T>,
    holder: &mut Holder<T, T::Origin, T::Entry>,
)
    requires { holder.old.lock ≡ lock.now.id }
    ensures same { holder.new ≡ record holder.old { seen = holder.new.seen; turns = holder.old.turns + 1 } }
    ensures seen { GoesOnByOthers T.maker (holder.old.number ∷ []) holder.old.seen holder.new.seen }
{
    let value = lock.take(rt, &mut holder.seat);
    let list = holder.seat.seen();
    lock.give(&mut holder.seat, value, list);
}
