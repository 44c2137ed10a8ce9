//! Threads that take turns, and the calls on one thread.
use crate::{Numbers, add, holder_of, look_in, numbers_of_threads};
use known::Known;
use std::test::Fail;
use turn_lock::TurnLock;

fn count_of(items: &[u32], number: u32) -> usize {
    let mut count = 0usize;
    for &item in items {
        if item == number {
            count = count.wrapping_add(1);
        }
    }
    count
}

#[test]
fn two_threads_take_a_thousand_turns_each(rt: HostRuntime) -> Result<(), Fail> {
    let Ok(items) = numbers_of_threads(&rt, rt.alloc(), 2, 1000) else {
        panic!(&rt; "no memory");
    };
    assert!(rt; items.len() == 2000);
    assert!(rt; count_of(&items, 0) == 1000);
    assert!(rt; count_of(&items, 1) == 1000);
    Ok(())
}

#[test]
fn eight_threads_take_a_thousand_turns_each(rt: HostRuntime) -> Result<(), Fail> {
    let Ok(items) = numbers_of_threads(&rt, rt.alloc(), 8, 1000) else {
        panic!(&rt; "no memory");
    };
    assert!(rt; items.len() == 8000);
    for number in 0..8 {
        assert!(rt; count_of(&items, number) == 1000);
    }
    Ok(())
}

#[test]
fn two_seats_on_one_thread(rt: HostRuntime) -> Result<(), Fail> {
    let numbers = Numbers::new(rt.alloc());
    let list = numbers.list();
    let made = TurnLock::new(rt.alloc(), numbers, 2, Known::of(), list);
    let Ok((lock, mut seat)) = made else {
        panic!(&rt; "no memory");
    };
    let mut other = lock.split(&mut seat, 1);
    assert!(rt; add(&rt, &lock, &mut other, 1).is_ok());
    assert!(rt; add(&rt, &lock, &mut seat, 0).is_ok());
    assert!(rt; add(&rt, &lock, &mut other, 1).is_ok());
    assert!(rt; seat.turns() == 1 && other.turns() == 2);
    assert!(rt; lock.count(&mut seat) == 3);
    lock.join(&mut seat, other);
    assert!(rt; seat.turns() == 1);
    let _seen = seat.seen();
    let numbers = lock.close(seat);
    assert!(rt; numbers.items.as_slice() == [1, 0, 1].as_slice());
    Ok(())
}

#[test]
fn a_held_seat_takes_a_turn(rt: HostRuntime) -> Result<(), Fail> {
    let numbers = Numbers::new(rt.alloc());
    let list = numbers.list();
    let made = TurnLock::new(rt.alloc(), numbers, 1, Known::of(), list);
    let Ok((lock, seat)) = made else {
        panic!(&rt; "no memory");
    };
    let mut holder = holder_of::<Numbers>(seat, 0);
    look_in(&rt, &lock, &mut holder);
    assert!(rt; holder.seat.turns() == 1);
    Ok(())
}
