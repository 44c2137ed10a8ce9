//! The lock, and its turns.
ghost use Rattle.std.specs.Prelude.{◌≡◌, ◌+◌, List, true, false, length};
ghost use Rattle.turn_lock.specs.Entries.{GoesOnByOthers, GoesOnByOwn};

use crate::Recorded;
use crate::seat::SeatOf;
use crate::steps::Count;
use crate::turns::{put_back, wait_for_turn};
use crate::view::{Opening, Stored, View};
use atomic_table::{Shared, Table, TableRule};
use known::Known;
use std::alloc::Global;
use std::collections::LinkedList;
use std::marker::{Model, PhantomData};
use std::sync::Wait;

/// The rule of the table.
pub(crate) struct Turns<T> {
    marker: PhantomData<T>,
}

impl<T: Recorded> TableRule<
    Stored<T, T::Entry>,
    View<T::Origin, T::Entry>,
    Opening<T::Origin, T::Entry>,
> for Turns<T> {
    ghost use Rattle.turn_lock.specs.Rule.{KeepsTurns, plain_view};
    ghost use Rattle.turn_lock.specs.Entries.{below};
    ghost use Rattle.turn_lock.specs.declared.view.Stage.TheVariants.{Idle};
    ghost use Rattle.std.specs.Prelude.{Some};

    ghost holds = { λ k. KeepsTurns T.stands T.maker k.origin.value k.numbers };

    ghost first = { λ k. plain_view (Some k.origin.value) k.list.value (below k.numbers) Idle 0 };
}

/// What threads share of a table.
pub(crate) type SharedTable<T> = Shared<
    Stored<T, <T as Recorded>::Entry>,
    View<<T as Recorded>::Origin, <T as Recorded>::Entry>,
    Opening<<T as Recorded>::Origin, <T as Recorded>::Entry>,
    Turns<T>,
>;

/// A value behind turns.
///
/// Contracts see which lock it is, and how many numbers its seats hold. A call takes seats of this
/// lock alone. Only `new` takes memory, and only `take` waits.
#[derive(Drop)]
pub struct TurnLock<T: Recorded> {
    pub(crate) table: Table<
        Stored<T, T::Entry>,
        View<T::Origin, T::Entry>,
        Opening<T::Origin, T::Entry>,
        Turns<T>,
        Global,
    >,
}

impl<T: Recorded> Model for TurnLock<T> {
    ghost use Rattle.turn_lock.specs.Seats.{LockView};
    ghost use Rattle.turn_lock.specs.Places.{IsShaped};

    ghost Value = { LockView };

    ghost view = { λ l. record { id = l.table.shared.table_id; numbers = l.table.shared.key.numbers } };

    ghost invariant = { λ l. IsShaped l.table.shared.table_id };
}

impl<T: Recorded + Drop> TurnLock<T> {
    /// Waits for the turn, and takes the value.
    ///
    /// It stands for a list that begins with what the seat has seen, and goes on by entries of
    /// others. The seat then has that list and the turn.
    pub fn take<R: Wait>(&self, rt: &R, seat: &mut SeatOf<T>) -> T
        requires own { seat.old.lock ≡ self.now.id }
        requires free { seat.old.has_turn ≡ false }
        ensures seat { seat.new ≡ record seat.old { seen = seat.new.seen; has_turn = true; turns = seat.old.turns + 1 } }
        ensures stands { T.stands result seat.new.origin seat.new.seen }
        ensures seen { GoesOnByOthers T.maker seat.old.numbers seat.old.seen seat.new.seen }
    {
        let value = wait_for_turn(rt, &self.table.shared, &mut seat.place);
        seat.turns = seat.turns.wrapping_add(1);
        value
    }

    /// Gives the value and the turn back.
    ///
    /// The value stands for the list, which begins with the one that was taken. Each entry more is
    /// of a maker whose number the seat holds.
    pub fn give(&self, seat: &mut SeatOf<T>, value: T, list: Known<LinkedList<T::Entry>>)
        requires own { seat.old.lock ≡ self.now.id }
        requires turn { seat.old.has_turn ≡ true }
        requires stands { T.stands value seat.old.origin list.value }
        requires made { GoesOnByOwn T.maker seat.old.numbers seat.old.seen list.value }
        ensures { seat.new ≡ record seat.old { seen = list.value; has_turn = false } }
    {
        put_back(&self.table.shared, &mut seat.place, value, list);
    }

    /// How many entries there are, at least as many as the seat has seen. It waits for nobody.
    pub fn count(&self, seat: &mut SeatOf<T>) -> u64
        requires own { seat.old.lock ≡ self.now.id }
        ensures same { seat.new ≡ seat.old }
        ensures count { (list : List T.Entry) × GoesOnByOthers T.maker seat.old.numbers seat.old.seen list × (result ≡ length list) }
    {
        self.table.shared.load::<Count<T>>(&mut seat.place, 0)
    }
}
