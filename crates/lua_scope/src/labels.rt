//! The labels of a block, found by name.

ghost use Rattle.std.specs.Prelude.{◌≡◌, ◌∷◌, ◌++◌, [], ℕ, List, length, bytes_eq, if◌then◌else◌, Some, None, IfOk, OnOk, OnErr};
ghost use Rattle.std.specs.Option.{option_or};
ghost use Rattle.std.specs.List.{list_any};
ghost use Rattle.lua_scope.specs.ByName.{at_name};
ghost use Rattle.lua_scope.specs.Labels.{has_name};
ghost use Rattle.lua_scope.specs.Refusals.{target};

use crate::occurrence::Label;
use crate::task::copy_name;
use lua_ast::AstText;
use std::alloc::{AllocError, Global};
use std::collections::BTreeMap;
use std::marker::Model;

/// The first label of a name.
#[derive(Clone, Copy, Debug)]
struct FirstLabel {
    /// How many labels of its block come before it.
    place: usize,
    /// How many locals its block has declared before it.
    locals: usize,
}

/// The labels of a block, in order. A label is found in a time that grows with the logarithm of
/// their number.
#[derive(Debug, Drop)]
pub(crate) struct BlockLabels {
    labels: Vec<Label>,
    /// For each name its first label.
    first: BTreeMap<Vec<u8>, FirstLabel>,
}

impl Model for BlockLabels {
    ghost use Rattle.std.specs.Prelude.{List};
    ghost use Rattle.lua_scope.specs.declared.occurrence.Label.{Label as LabelOf};
    ghost use Rattle.lua_scope.specs.FirstLabels.{HasFirstLabels};

    ghost Value = { List LabelOf };

    ghost view = { λ labels. labels.labels.items };

    ghost invariant = { λ labels. HasFirstLabels labels.labels.items labels.first };
}

impl BlockLabels {
    /// No label, which takes no memory.
    pub(crate) fn new(alloc: Global) -> BlockLabels
        ensures { result ≡ [] }
    {
        BlockLabels {
            labels: Vec::new(alloc),
            first: BTreeMap::new(alloc),
        }
    }

    pub(crate) fn len(&self) -> usize
        ensures { result ≡ length self.now }
    {
        self.labels.len()
    }

    /// Whether one of the labels has this name.
    pub(crate) fn contains(&self, name: &AstText) -> bool
        ensures { result ≡ list_any (has_name name.now) self.now }
    {
        self.first.contains_key(name.as_slice())
    }

    /// Adds a label with the locals that its block declares before it.
    pub(crate) fn push(
        &mut self,
        alloc: Global,
        name: &AstText,
        locals: usize,
    ) -> Result<(), AllocError>
        ensures { IfOk result (λ _. self.new
            ≡ self.old ++ record { name = name.now; locals = locals } ∷ []) }
    {
        let key = Vec::from_slice(alloc, name.as_slice())?;
        let name = copy_name(alloc, name)?;
        let place = self.len();
        self.labels.reserve(1)?;
        note(&mut self.first, key, FirstLabel { place, locals })?;
        self.labels.push_reserved(Label { name, locals });
        Ok(())
    }

    /// How many of the block's locals are in scope at the first label of this name. The first
    /// `inside` labels lie inside the block's locals.
    pub(crate) fn target(&self, inside: usize, name: &AstText) -> Option<usize>
        ensures { result ≡ target name.now inside self.now }
    {
        let first = self.first.get(name.as_slice()).copied()?;
        if first.place < inside {
            Some(first.locals)
        } else {
            Some(0)
        }
    }
}

/// Notes a label of this name, unless an earlier one is noted.
fn note(
    first: &mut BTreeMap<Vec<u8>, FirstLabel>,
    name: Vec<u8>,
    label: FirstLabel,
) -> Result<(), AllocError>
    ensures ok { OnOk result ((x : List ℕ) → at_name x first.new
        ≡ option_or (at_name x first.old) (if bytes_eq name.items x then Some label else None)) }
    ensures err { OnErr result (first.new.entries ≡ first.old.entries) }
{
    if !first.contains_key(name.as_slice()) {
        first.insert(name, label)?;
    }
    Ok(())
}
