//! A value that only contracts read. It takes no bytes.
#![tactic(auto)]

ghost use Rattle.std.specs.Prelude.{◌≡◌};
ghost use base.Fml.{ftrue};

use std::marker::{Model, PhantomData};

/// An `X` that contracts read and no code does.
///
/// A struct with such a field can say what it stands for, a history say, without keeping it.
pub struct Known<X> {
    marker: PhantomData<X>,
    pub ghost value: { X },
}

impl<X> Model for Known<X> {
    ghost also_owns = { λ _. ftrue };
}

impl<X> Known<X> {
    /// A value that the caller picks.
    pub fn of() -> Known<X>
        ghost value: { X }
        ensures { result.value ≡ value }
    {
        Known {
            marker: PhantomData,
        }
    }

    /// A value that the caller picks, from these two if it likes.
    pub fn from_pair<A, B>(one: &A, other: &B) -> Known<X>
        ghost value: { X }
        ensures { result.value ≡ value }
    {
        let _ = one;
        let _ = other;
        Known::of()
    }

    /// A value that the caller picks, from these four if it likes.
    pub fn from_four<A, B, C, D>(first: &A, second: &B, third: &C, fourth: &D) -> Known<X>
        ghost value: { X }
        ensures { result.value ≡ value }
    {
        let _ = first;
        let _ = second;
        let _ = third;
        let _ = fourth;
        Known::of()
    }

    /// The same value once more.
    pub fn again(&self) -> Known<X>
        ensures { result.value ≡ self.now.value }
    {
        Known::from_pair(self, &())
    }
}

unsafe impl<X> Send for Known<X> {}

unsafe impl<X> Sync for Known<X> {}

impl<X> Drop for Known<X> {
    fn drop(self) {
        let Self { marker: _ } = self;
    }
}

#[cfg(test)]
mod tests;
