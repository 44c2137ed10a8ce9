//! What may lie under a lock.
ghost use Rattle.std.specs.Prelude.{◌≡◌, ℕ, List, length};

/// A value that stands for a list of entries, the newest first.
pub trait Recorded {
    /// Where its lists begin. No value of it is made.
    type Origin;

    /// An entry. No value of it is made.
    type Entry;

    /// The value stands for this list, which began at this origin.
    ghost stands: { Self → Self.Origin → List Self.Entry → Type 0 };

    /// The number of an entry's maker.
    ghost maker: { Self.Entry → ℕ };

    /// How many entries the list has.
    fn len(&self) -> u64
        ensures { (origin : Self.Origin) (list : List Self.Entry) → stands self.now origin list → result ≡ length list };
}
