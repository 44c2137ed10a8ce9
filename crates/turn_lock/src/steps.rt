//! The kinds of step, each with what it tells.
ghost use Rattle.turn_lock.specs.Steps.{DrewTicket, LookedAtServing, RaisedCount, ServedNext, LookedAtCount, BroughtNumber, LookedBack, left_part, right_part, both_parts, spent_part};

use crate::Recorded;
use crate::view::{Stored, View};
use atomic_table::{Join, Play, Split};
use std::marker::PhantomData;

pub(crate) struct Draw;

impl<T, O, E> Play<Stored<T, E>, View<O, E>> for Draw {
    ghost then = { DrewTicket };
}

pub(crate) struct Look<T>(PhantomData<T>);

impl<T: Recorded> Play<Stored<T, T::Entry>, View<T::Origin, T::Entry>> for Look<T> {
    ghost then = { LookedAtServing T.stands T.maker };
}

pub(crate) struct Raise;

impl<T, O, E> Play<Stored<T, E>, View<O, E>> for Raise {
    ghost then = { RaisedCount };
}

pub(crate) struct Serve;

impl<T, O, E> Play<Stored<T, E>, View<O, E>> for Serve {
    ghost then = { ServedNext };
}

pub(crate) struct Count<T>(PhantomData<T>);

impl<T: Recorded> Play<Stored<T, T::Entry>, View<T::Origin, T::Entry>> for Count<T> {
    ghost then = { LookedAtCount T.maker };
}

pub(crate) struct Bring;

impl<T, O, E> Play<Stored<T, E>, View<O, E>> for Bring {
    ghost then = { BroughtNumber };
}

pub(crate) struct LookBack<T>(PhantomData<T>);

impl<T: Recorded> Play<Stored<T, T::Entry>, View<T::Origin, T::Entry>> for LookBack<T> {
    ghost then = { LookedBack T.maker };
}

pub(crate) struct Part;

impl<O, E> Split<View<O, E>> for Part {
    ghost left = { left_part };

    ghost right = { right_part };
}

pub(crate) struct Both;

impl<O, E> Join<View<O, E>> for Both {
    ghost both = { both_parts };

    ghost spent = { spent_part };
}
