//! A list of numbers that can lie under a turn lock.
ghost use Rattle.std.specs.Prelude.{◌≡◌, ◌++◌, ◌∷◌, [], OnOk, OnErr};
ghost use Rattle.turn_lock_tests.specs.Numbers.{newest_first};

use known::Known;
use std::alloc::Global;
use std::collections::LinkedList;
use turn_lock::Recorded;
use zc_io::NoMemory;

/// Numbers, the oldest first. Each is that of the seat that added it.
#[derive(Drop)]
pub struct Numbers {
    /// The numbers themselves.
    pub items: Vec<u32>,
}

impl Recorded for Numbers {
    ghost use Rattle.turn_lock_tests.specs.Numbers.{StandsFor, itself};

    type Origin = ();

    type Entry = u32;

    ghost stands = { StandsFor };

    ghost maker = { itself };

    fn len(&self) -> u64 {
        self.items.len() as u64
    }
}

impl Numbers {
    /// No numbers.
    pub fn new(alloc: Global) -> Numbers
        ensures { result.items.items ≡ [] }
    {
        Numbers {
            items: Vec::new(alloc),
        }
    }

    /// The list for which they stand.
    pub fn list(&self) -> Known<LinkedList<u32>>
        ensures { result.value ≡ newest_first self.now }
    {
        Known::from_pair(self, &())
    }

    /// Adds a number.
    pub fn add(&mut self, number: u32) -> Result<(), NoMemory>
        ensures added { OnOk result (self.new.items.items ≡ self.old.items.items ++ number ∷ []) }
        ensures same { OnErr result (self.new.items.items ≡ self.old.items.items) }
    {
        match self.items.push(number) {
            Ok(()) => Ok(()),
            Err(_) => Err(NoMemory),
        }
    }
}
