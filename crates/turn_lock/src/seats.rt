//! Seats of a lock that are split and joined.
ghost use Rattle.std.specs.Prelude.{◌≡◌, ◌<◌, ◌∷◌, [], false, length};
ghost use Rattle.turn_lock.specs.Entries.{Holds, without_first};
ghost use Rattle.turn_lock.specs.Places.{IsAtTable, IsSamePlace, TookIn};
ghost use Rattle.turn_lock.specs.Rule.{plain_view};
ghost use Rattle.turn_lock.specs.Seats.{IsFree, fresh_seat, Joined};
ghost use Rattle.turn_lock.specs.Steps.{with_numbers};
ghost use Rattle.turn_lock.specs.declared.view.Stage.TheVariants.{Idle};

use crate::Recorded;
use crate::lock::{SharedTable, TurnLock};
use crate::seat::{Place, Seat, SeatOf};
use crate::steps::{Both, Bring, LookBack, Part};

fn part<T: Recorded>(table: &SharedTable<T>, place: &mut Place<T>, number: u64) -> Place<T>
    requires own { IsAtTable place.old table.now.table_id }
    requires free { IsFree place.old }
    requires holds { Holds place.old.me.0.numbers number }
    ensures own { IsSamePlace place.old place.new × IsFree place.new }
    ensures kept { place.new.me.0 ≡ with_numbers place.old.me.0 (without_first number place.old.me.0.numbers) }
    ensures given { (result.table_id ≡ place.old.table_id) × IsFree result
        × (result.me.0 ≡ plain_view place.old.me.0.origin place.old.me.0.list (number ∷ []) Idle 0) }
{
    table.compare_exchange::<Bring>(place, 0, number, number);
    table.split_seat::<Part>(place)
}

fn take_in<T: Recorded>(table: &SharedTable<T>, place: &mut Place<T>, other: Place<T>)
    requires own { IsAtTable place.old table.now.table_id × (other.table_id ≡ table.now.table_id) }
    requires free { IsFree place.old × IsFree other }
    requires some { (0 < length place.old.me.0.numbers) × (0 < length other.me.0.numbers) }
    ensures { TookIn T.maker place.old other place.new }
{
    table.join_seat::<Both>(place, other);
    table.load::<LookBack<T>>(place, 0);
}

impl<T: Recorded + Drop> TurnLock<T> {
    /// Moves a number to a new seat.
    ///
    /// The seat holds it and one more. The new seat has seen the same list, and had no turn yet.
    pub fn split(&self, seat: &mut SeatOf<T>, number: u32) -> SeatOf<T>
        requires own { seat.old.lock ≡ self.now.id }
        requires free { seat.old.has_turn ≡ false }
        requires holds { Holds seat.old.numbers number }
        requires more { 1 < length seat.old.numbers }
        ensures kept { seat.new ≡ record seat.old { numbers = without_first number seat.old.numbers } }
        ensures given { result ≡ fresh_seat seat.old.lock seat.old.origin seat.old.seen (number ∷ []) }
    {
        let place = part(&self.table.shared, &mut seat.place, u64::from(number));
        Seat {
            place,
            origin: seat.origin.again(),
            turns: 0,
        }
    }

    /// Gives the seat the other's numbers, and the longer of the two lists.
    pub fn join(&self, seat: &mut SeatOf<T>, other: SeatOf<T>)
        requires own { (seat.old.lock ≡ self.now.id) × (other.lock ≡ self.now.id) }
        requires free { (seat.old.has_turn ≡ false) × (other.has_turn ≡ false) }
        ensures { Joined T.maker seat.old other seat.new }
    {
        let Seat {
            place,
            origin: _,
            turns: _,
        } = other;
        take_in(&self.table.shared, &mut seat.place, place);
    }
}
