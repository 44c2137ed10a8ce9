//! The variables in scope, found by name.

ghost use Rattle.std.specs.Prelude.{◌≡◌, ◌-◌, ◌∷◌, ◌++◌, [], ℕ, List, length, take, bytes_eq, if◌then◌else◌, Some, IsSome, IfOk};
ghost use Rattle.lua_scope.specs.ByName.{at_name};
ghost use Rattle.lua_scope.specs.Variables.{variable_named};

use crate::frame::{Entered, Variable};
use crate::task::copy_name;
use lua_ast::AstText;
use std::alloc::{AllocError, Global};
use std::collections::BTreeMap;
use std::marker::Model;

/// The variables in scope. What a name means is found in a time that grows with the logarithm of
/// their number.
#[derive(Debug, Drop)]
pub(crate) struct VisibleVariables {
    /// In the order in which they came into scope.
    entered: Vec<Entered>,
    /// For each name that has come into scope the number of the variable that it means, if it
    /// means one.
    meanings: BTreeMap<Vec<u8>, Option<u32>>,
}

impl Model for VisibleVariables {
    ghost use Rattle.std.specs.Prelude.{List, reverse};
    ghost use Rattle.lua_scope.specs.declared.frame.Variable.{Variable as VariableOf};
    ghost use Rattle.lua_scope.specs.Visible.{variables_of, IsIndexed};

    ghost Value = { List VariableOf };

    ghost view = { λ visible. variables_of visible.entered.items };

    ghost invariant = { λ visible. IsIndexed (reverse visible.entered.items) visible.meanings };
}

impl VisibleVariables {
    /// No variable, which takes no memory.
    pub(crate) fn new(alloc: Global) -> VisibleVariables
        ensures { result ≡ [] }
    {
        VisibleVariables {
            entered: Vec::new(alloc),
            meanings: BTreeMap::new(alloc),
        }
    }

    pub(crate) fn len(&self) -> usize
        ensures { result ≡ length self.now }
    {
        self.entered.len()
    }

    /// A variable comes into scope.
    pub(crate) fn enter(
        &mut self,
        alloc: Global,
        name: &AstText,
        number: u32,
    ) -> Result<(), AllocError>
        ensures { IfOk result (λ _. self.new
            ≡ self.old ++ record { name = name.now; number = number } ∷ []) }
    {
        let key = Vec::from_slice(alloc, name.as_slice())?;
        let name = copy_name(alloc, name)?;
        self.entered.reserve(1)?;
        let hidden = self.meanings.insert(key, Some(number))?.flatten();
        let variable = Variable { name, number };
        self.entered.push_reserved(Entered { variable, hidden });
        Ok(())
    }

    /// The last variable goes out of scope, and its name means again what it meant before.
    fn leave(&mut self)
        ensures { self.new ≡ take (length self.old - 1) self.old }
    {
        if let Some(entered) = self.entered.pop() {
            let Entered { variable, hidden } = entered;
            restore(&mut self.meanings, variable.name.as_slice(), hidden);
        }
    }

    /// Only the first `len` variables stay in scope.
    pub(crate) fn truncate(&mut self, len: usize)
        ensures { self.new ≡ take len self.old }
    {
        while self.len() > len {
            self.leave();
        }
    }

    /// The number of the variable that a name means.
    pub(crate) fn meaning(&self, name: &AstText) -> Option<u32>
        ensures { result ≡ variable_named name.now self.now }
    {
        self.meanings.get(name.as_slice()).copied().flatten()
    }
}

/// Gives a name that has a meaning another one.
fn restore(meanings: &mut BTreeMap<Vec<u8>, Option<u32>>, name: &[u8], meaning: Option<u32>)
    requires { IsSome (at_name name.now meanings.old) }
    ensures { (x : List ℕ) → at_name x meanings.new
        ≡ (if bytes_eq name.now x then Some meaning else at_name x meanings.old) }
{
    if let Some(found) = meanings.get_mut(name) {
        *found = meaning;
    }
}
