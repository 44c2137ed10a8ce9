//! The steps of one turn, at the table.
ghost use Rattle.std.specs.Prelude.{◌≡◌, ℕ, ◌%◌, ◌^◌, ◌<◌, Some, length, MatchBool};
ghost use Rattle.turn_lock.specs.Entries.{GoesOnByOwn};
ghost use Rattle.turn_lock.specs.Rule.{plain_view};
ghost use Rattle.turn_lock.specs.Seats.{IsFree, HasSlot, HasTurn};
ghost use Rattle.turn_lock.specs.Steps.{staged, Comes};
ghost use Rattle.turn_lock.specs.Places.{IsAtTable, IsSamePlace, HasValue, GivesValue, Took};
ghost use Rattle.turn_lock.specs.declared.view.Stage.TheVariants.{Idle, Waiting};

use crate::Recorded;
use crate::lock::SharedTable;
use crate::seat::Place;
use crate::steps::{Draw, Look, Raise, Serve};
use crate::view::Stored;
use known::Known;
use std::collections::LinkedList;
use std::sync::Wait;
use std::thread;

fn draw<T: Recorded>(table: &SharedTable<T>, place: &mut Place<T>) -> u64
    requires own { IsAtTable place.old table.now.table_id }
    requires idle { place.old.me.0.stage ≡ Idle }
    requires some { 0 < length place.old.me.0.numbers }
    ensures { IsSamePlace place.old place.new × (place.new.me.1 ≡ place.old.me.1) × ((t : ℕ) × (place.new.me.0 ≡ staged place.old.me.0 (Waiting t)) × (result ≡ t % 2 ^ 64)) }
{
    table.fetch_add::<Draw>(place, 1, 1)
}

fn look<T: Recorded>(table: &SharedTable<T>, place: &mut Place<T>, ticket: u64) -> bool
    requires own { IsAtTable place.old table.now.table_id }
    requires waits { (t : ℕ) × (place.old.me.0.stage ≡ Waiting t) × (ticket ≡ t % 2 ^ 64) }
    ensures { IsSamePlace place.old place.new × MatchBool result ((t : ℕ) × Comes T.stands T.maker place.old.me t place.new.me) (place.new.me ≡ place.old.me) }
{
    table.load::<Look<T>>(place, 2) == ticket
}

/// Takes the value out of the slot.
fn lift<T: Recorded + Drop>(table: &SharedTable<T>, place: &mut Place<T>) -> T
    requires own { IsAtTable place.old table.now.table_id }
    requires value { HasValue place.old }
    ensures { IsSamePlace place.old place.new × (place.new.me.0 ≡ place.old.me.0) × HasSlot place.new × GivesValue place.old result }
{
    let Stored { value, list: _ } = table.exchange(
        place,
        0,
        Stored {
            value: None,
            list: Known::of(),
        },
    );
    match value {
        Some(value) => value,
        None => unreachable!(),
    }
}

/// Draws a ticket, and waits until it is served.
pub(crate) fn wait_for_turn<T: Recorded + Drop, R: Wait>(
    rt: &R,
    table: &SharedTable<T>,
    place: &mut Place<T>,
) -> T
    requires own { IsAtTable place.old table.now.table_id }
    requires free { IsFree place.old }
    requires some { 0 < length place.old.me.0.numbers }
    ensures own { IsSamePlace place.old place.new }
    ensures turn { HasTurn place.new }
    ensures took { Took T.stands T.maker place.old.me.0 result place.new.me.0 }
{
    let ticket = draw(table, place);
    for _ in rt.forever() {
        if look(table, place, ticket) {
            return lift(table, place);
        }
        thread::yield_now();
    }
    unreachable!()
}

/// Puts the value back, raises the count, and serves the next.
pub(crate) fn put_back<T: Recorded + Drop>(
    table: &SharedTable<T>,
    place: &mut Place<T>,
    value: T,
    list: Known<LinkedList<T::Entry>>,
)
    requires own { IsAtTable place.old table.now.table_id }
    requires turn { HasTurn place.old }
    requires stands { (o : T.Origin) × (place.old.me.0.origin ≡ Some o) × T.stands value o list.value }
    requires grows { GoesOnByOwn T.maker place.old.me.0.numbers place.old.me.0.list list.value }
    ensures own { IsSamePlace place.old place.new × IsFree place.new }
    ensures view { place.new.me.0 ≡ plain_view place.old.me.0.origin list.value place.old.me.0.numbers Idle place.old.me.0.turns }
{
    let count = value.len();
    let empty = table.exchange(
        place,
        0,
        Stored {
            value: Some(value),
            list,
        },
    );
    drop(empty);
    table.store::<Raise>(place, 0, count);
    table.fetch_add::<Serve>(place, 2, 1);
}
