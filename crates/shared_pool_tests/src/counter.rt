//! A counter that sessions share.
ghost use Rattle.std.specs.Prelude.{◌≡◌};
ghost use Rattle.shared_pool_tests.specs.Requests.{has_room};

use std::alloc::Global;
use txg_core::{Kind, SerialObject, Stated};
use zc_io::NoMemory;

/// An addition of this number finds no memory when it is done.
pub(crate) const TOO_MUCH: u64 = 666;

/// What is asked of a counter.
#[derive(Clone, Copy, Debug, PartialEq, Eq, Drop)]
pub enum Request {
    /// Adds the number, unless the sum is above 1,000.
    Add(u64),
    Ask,
}

/// A number up to 1,000. It replies to each request with the number afterwards.
#[derive(Debug, Drop)]
pub struct Counter {
    /// The number.
    pub value: u64,
}

impl Counter {
    fn has_room(&self, n: u64) -> bool
        ensures { result ≡ has_room self.now.value n }
    {
        match self.value.checked_add(n) {
            Some(sum) => sum <= 1000,
            None => false,
        }
    }
}

impl Stated for Counter {
    ghost use Rattle.std.specs.Prelude.{ℕ, refl};
    ghost use Rattle.shared_pool_tests.specs.Requests.{request_rules, request_kind};
    ghost use Rattle.shared_pool_tests.specs.RequestLaws.{request_lawful};

    type Call = Request;

    type Reply = u64;

    ghost World = { ℕ };

    ghost means = { λ c. record { rules = request_rules; world = c.value } };

    ghost kind_of = { request_kind };

    ghost lawful = { λ _. request_lawful };

    ghost kind_is = { λ _ _. refl };

    fn kind(&self, call: &Request) -> Kind {
        match *call {
            Request::Add(_) => Kind::Change,
            Request::Ask => Kind::Query,
        }
    }

    fn copy(&self, _alloc: Global) -> Result<Self, NoMemory> {
        Ok(Counter { value: self.value })
    }
}

impl SerialObject for Counter {
    fn check(&self, _alloc: Global, call: &Request) -> Result<Option<u64>, NoMemory> {
        let Request::Add(n) = *call else {
            return Ok(None);
        };
        if self.has_room(n) {
            return Ok(None);
        }
        Ok(Some(self.value))
    }

    fn apply(&mut self, _alloc: Global, call: &Request, _txg: u64) -> Result<u64, NoMemory> {
        let Request::Add(n) = *call else {
            return Ok(self.value);
        };
        if n == TOO_MUCH {
            return Err(NoMemory);
        }
        if self.has_room(n) {
            self.value += n;
        }
        Ok(self.value)
    }

    fn read(&self, _alloc: Global, _call: &Request) -> Result<u64, NoMemory> {
        Ok(self.value)
    }
}
