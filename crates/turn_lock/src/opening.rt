//! The first and the last call of a lock.
ghost use Rattle.std.specs.Prelude.{◌≡◌, ℕ, ◌<◌, ◌∷◌, [], false, IfOk};
ghost use Rattle.turn_lock.specs.Entries.{Holds, below};
ghost use Rattle.turn_lock.specs.Seats.{fresh_seat, StandsBeyond};

use crate::Recorded;
use crate::lock::TurnLock;
use crate::seat::{Seat, SeatOf};
use crate::view::{Opening, Stored};
use atomic_table::{Refused, Table};
use known::Known;
use std::alloc::Global;
use std::collections::LinkedList;
use zc_io::NoMemory;

fn one_slot<S: Drop>(alloc: Global, x: S) -> Result<Vec<S>, NoMemory>
    ensures { IfOk result (λ v. v.items ≡ x ∷ []) }
{
    let mut slots = Vec::new(alloc);
    match slots.push(x) {
        Ok(()) => Ok(slots),
        Err(_) => Err(NoMemory),
    }
}

impl<T: Recorded + Drop> TurnLock<T> {
    /// A lock round the value, and its one seat, which holds every number.
    ///
    /// The value stands for the list with the origin, and the seat has both.
    pub fn new(
        alloc: Global,
        value: T,
        numbers: u32,
        origin: Known<T::Origin>,
        list: Known<LinkedList<T::Entry>>,
    ) -> Result<(TurnLock<T>, SeatOf<T>), NoMemory>
        requires stands { T.stands value origin.value list.value }
        requires some { 0 < numbers }
        ensures numbers { IfOk result (λ made. made.0.numbers ≡ numbers) }
        ensures seat { IfOk result (λ made. made.1 ≡ fresh_seat made.0.id origin.value list.value (below numbers)) }
    {
        let count = value.len();
        let about = Opening {
            origin: origin.again(),
            list: list.again(),
            numbers,
        };
        let slots = one_slot(
            alloc,
            Stored {
                value: Some(value),
                list,
            },
        )?;
        match Table::new(alloc, &[count, 0, 0], slots, &about) {
            Ok((table, place)) => Ok((
                TurnLock { table },
                Seat {
                    place,
                    origin,
                    turns: 0,
                },
            )),
            Err(Refused { slots: _ }) => Err(NoMemory),
        }
    }

    /// Ends the lock, with the seat that holds every number.
    ///
    /// The value stands for a list that begins with what the seat has seen.
    pub fn close(self, seat: SeatOf<T>) -> T
        requires own { seat.lock ≡ self.id }
        requires free { seat.has_turn ≡ false }
        requires every { (k : ℕ) → k < self.numbers → Holds seat.numbers k }
        ensures { StandsBeyond T.stands T.maker seat result }
    {
        let TurnLock { table } = self;
        let Seat {
            place,
            origin: _,
            turns: _,
        } = seat;
        let mut closed = table.close_with(place);
        let Stored { value, list: _ } = closed.take(0);
        closed.free();
        match value {
            Some(value) => value,
            None => unreachable!(),
        }
    }
}
