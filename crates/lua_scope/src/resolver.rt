//! The variables of a text.

ghost use Rattle.std.specs.Prelude.{◌≡◌, ◌<◌, ◌+◌, ◌^◌, ◌||◌, ◌∷◌, [], ℕ, List, Some, false, length, slice_set, slice_index_or, ◌==◌, IfOk};
ghost use Rattle.lua_scope.specs.declared.occurrence.Occurrence.{Occurrence as OccurrenceOf};
ghost use Rattle.lua_scope.specs.Scope.{entered};
ghost use Rattle.lua_scope.specs.Variables.{variable_named, captured_in, also, with_use, with_meaning};
ghost use Rattle.lua_scope.specs.Walking.{OccurrenceBelow};
ghost use Rattle.lua_scope.specs.Resolved.{Resolved};

use crate::capture::capture;
use crate::numbers::Numbers;
use crate::occurrence::Occurrence;
use crate::scope::Scope;
use lua_ast::{AstText, AstTexts, NodeId};
use std::alloc::{AllocError, Global};

/// What is known of a text's variables behind a part of it.
#[derive(Debug, Drop)]
pub(crate) struct Resolver {
    pub(crate) scope: Scope,
    /// How many variables the text has named.
    pub(crate) declared: u32,
    /// For each node the number of the first variable that it names. A function without
    /// parameters has the number at which its own variables begin, a node that declares nothing 0.
    pub(crate) first: Vec<u32>,
    /// For each node the variable that it means, if it is a Name and means one.
    pub(crate) meanings: Vec<Option<u32>>,
    /// For each node the variables that it captures, if it is a Function.
    pub(crate) captured: Vec<Numbers>,
    /// For each variable whether some function captures it. Those past the end are not captured.
    pub(crate) is_captured: Vec<bool>,
}

impl Resolver {
    /// Goes on by an occurrence. The only refusal is want of memory, and it comes too where 32 bits
    /// can't number a variable more.
    pub(crate) fn take(&mut self, alloc: Global, occurrence: Occurrence) -> Result<(), AllocError>
        requires below { OccurrenceBelow (length self.old.first.items) occurrence }
        requires even { length self.old.meanings.items ≡ length self.old.first.items }
        ensures { IfOk result (λ _. (n : ℕ) (seen : List OccurrenceOf) →
            Resolved n self.old seen → Resolved n self.new (occurrence ∷ seen)) }
    {
        match occurrence {
            Occurrence::Open { kind } => {
                self.scope.open(kind)?;
                Ok(())
            }
            Occurrence::Close => {
                self.scope.close();
                Ok(())
            }
            Occurrence::Declare { node, count } => {
                self.declare(node, count)?;
                Ok(())
            }
            Occurrence::Enter { node, names } => {
                self.enter(alloc, node, &names)?;
                Ok(())
            }
            Occurrence::Use { node, name } => {
                self.use_name(node, &name)?;
                Ok(())
            }
            Occurrence::Goto { .. } => Ok(()),
            Occurrence::SecondLabel { .. } => Ok(()),
            Occurrence::Break { .. } => Ok(()),
            Occurrence::Vararg { .. } => Ok(()),
        }
    }

    /// A node names new variables.
    fn declare(&mut self, node: NodeId, count: usize) -> Result<(), AllocError>
        requires { node < length self.old.first.items }
        ensures scope { self.new.scope ≡ self.old.scope }
        ensures meanings { self.new.meanings ≡ self.old.meanings }
        ensures captured { self.new.captured ≡ self.old.captured }
        ensures is_captured { self.new.is_captured ≡ self.old.is_captured }
        ensures declared { IfOk result (λ _. self.new.declared ≡ self.old.declared + count) }
        ensures first { IfOk result (λ _.
            self.new.first.items ≡ slice_set self.old.first.items node self.old.declared) }
    {
        if count > (u32::MAX - self.declared) as usize {
            return Err(AllocError);
        }
        self.first[node.index()] = self.declared;
        self.declared += count as u32;
        Ok(())
    }

    /// The variables that a node has named come into scope.
    fn enter(&mut self, alloc: Global, node: NodeId, names: &AstTexts) -> Result<(), AllocError>
        requires { node < length self.old.first.items }
        ensures scope { IfOk result (λ _. self.new.scope
            ≡ entered (slice_index_or self.old.first.items node 0) names.now self.old.scope) }
        ensures declared { self.new.declared ≡ self.old.declared }
        ensures first { self.new.first ≡ self.old.first }
        ensures meanings { self.new.meanings ≡ self.old.meanings }
        ensures captured { self.new.captured ≡ self.old.captured }
        ensures is_captured { self.new.is_captured ≡ self.old.is_captured }
    {
        let first = self.first[node.index()];
        if names.len() > (u32::MAX - first) as usize {
            return Err(AllocError);
        }
        self.scope.enter(alloc, first, names)?;
        Ok(())
    }

    /// A Name node.
    fn use_name(&mut self, node: NodeId, name: &AstText) -> Result<(), AllocError>
        requires { node < length self.old.meanings.items }
        ensures scope { self.new.scope ≡ self.old.scope }
        ensures declared { self.new.declared ≡ self.old.declared }
        ensures first { self.new.first ≡ self.old.first }
        ensures meanings { IfOk result (λ _. self.new.meanings.items
            ≡ slice_set self.old.meanings.items node
            (variable_named name.now self.old.scope.variables)) }
        ensures functions { length self.new.captured.items ≡ length self.old.captured.items }
        ensures captured { IfOk result (λ _. (f : ℕ) → f < length self.old.captured.items →
            slice_index_or self.new.captured.items f []
            ≡ with_meaning (λ (i : ℕ). slice_index_or self.old.first.items i 0) f
            (variable_named name.now self.old.scope.variables)
            (slice_index_or self.old.captured.items f []) self.old.scope.frames) }
        ensures is_captured { IfOk result (λ _. (v : ℕ) →
            slice_index_or self.new.is_captured.items v false
            ≡ (also
            (captured_in (λ (i : ℕ). slice_index_or self.old.first.items i 0) v
            self.old.scope.frames)
            (variable_named name.now self.old.scope.variables) v
            || slice_index_or self.old.is_captured.items v false)) }
    {
        let meaning = self.scope.variable(name);
        self.meanings[node.index()] = meaning;
        if let Some(variable) = meaning {
            self.use_variable(variable)?;
        }
        Ok(())
    }

    /// A use of a variable.
    fn use_variable(&mut self, variable: u32) -> Result<(), AllocError>
        ensures scope { self.new.scope ≡ self.old.scope }
        ensures declared { self.new.declared ≡ self.old.declared }
        ensures first { self.new.first ≡ self.old.first }
        ensures meanings { self.new.meanings ≡ self.old.meanings }
        ensures functions { length self.new.captured.items ≡ length self.old.captured.items }
        ensures captured { IfOk result (λ _. (f : ℕ) → f < length self.old.captured.items →
            slice_index_or self.new.captured.items f []
            ≡ with_use (λ (i : ℕ). slice_index_or self.old.first.items i 0) f variable
            (slice_index_or self.old.captured.items f []) self.old.scope.frames) }
        ensures is_captured { IfOk result (λ _. (v : ℕ) →
            slice_index_or self.new.is_captured.items v false
            ≡ (also
            (captured_in (λ (i : ℕ). slice_index_or self.old.first.items i 0) v
            self.old.scope.frames)
            (Some variable) v
            || slice_index_or self.old.is_captured.items v false)) }
    {
        let first = self.first.as_slice();
        let any = capture(self.scope.frames(), first, variable, &mut self.captured)?;
        if any {
            mark(&mut self.is_captured, variable as usize)?;
        }
        Ok(())
    }
}

/// Marks the variable. A variable past the end has no mark.
fn mark(marks: &mut Vec<bool>, variable: usize) -> Result<(), AllocError>
    requires { variable < 2 ^ 32 }
    ensures { IfOk result (λ _. (v : ℕ) →
        slice_index_or marks.new.items v false
        ≡ (variable == v || slice_index_or marks.old.items v false)) }
{
    while marks.len() <= variable {
        marks.push(false)?;
    }
    marks[variable] = true;
    Ok(())
}
