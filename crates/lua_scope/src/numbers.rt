//! Rising lists of numbers.

ghost use Rattle.std.specs.Prelude.{◌≡◌, [], IfOk};
ghost use Rattle.lua_scope.specs.Variables.{with_number};

use lua_ast::Sequence;
use std::alloc::{AllocError, Global};
use std::collections::BTreeSet;
use std::marker::Model;

/// Numbers of variables, rising.
#[derive(Debug, Drop)]
pub(crate) struct Numbers {
    numbers: BTreeSet<u32>,
}

impl Model for Numbers {
    ghost use Rattle.std.specs.Prelude.{List, ℕ};
    ghost use Rattle.std.specs.List.Sorted.{IsStrictlySortedBy};
    ghost use Rattle.std.specs.Ordering.{nat_cmp};

    ghost Value = { List ℕ };

    ghost view = { λ numbers. numbers.numbers.keys };

    ghost invariant = { λ numbers. IsStrictlySortedBy nat_cmp numbers.numbers.keys };
}

impl Numbers {
    /// No number, which takes no memory.
    pub(crate) fn new(alloc: Global) -> Numbers
        ensures { result ≡ [] }
    {
        Numbers {
            numbers: BTreeSet::new(alloc),
        }
    }

    /// Puts a number at its place, unless it is there.
    pub(crate) fn put(&mut self, number: u32) -> Result<(), AllocError>
        ensures { IfOk result (λ _. self.new ≡ with_number number self.old) }
    {
        self.numbers.insert(number)?;
        Ok(())
    }

    /// The numbers as a vector.
    pub(crate) fn into_sequence(self, alloc: Global) -> Result<Sequence<u32>, AllocError>
        ensures { IfOk result (λ sequence. sequence ≡ self) }
    {
        let items: Vec<u32> = self.numbers.into_iter().collect(alloc)?;
        Ok(Sequence::from_vec(items))
    }
}
