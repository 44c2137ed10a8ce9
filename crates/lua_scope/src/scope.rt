//! What is in scope and what is open at a place of a text.

ghost use Rattle.std.specs.Prelude.{◌≡◌, ◌+◌, ◌<◌, ◌^◌, [], length, reverse, IfOk};
ghost use Rattle.lua_scope.specs.Scope.{scope_opened, scope_closed, entered};
ghost use Rattle.lua_scope.specs.Variables.{variable_named};
ghost use Rattle.lua_scope.specs.Refusals.{jump as jump_of, in_loop as in_loop_of, has_varargs as has_varargs_of, refusal_in};

use crate::frame::Frame;
use crate::load_error::LoadError;
use crate::occurrence::{Occurrence, ScopeKind};
use crate::visible::VisibleVariables;
use lua_ast::{AstText, AstTexts};
use std::alloc::{AllocError, Global};
use std::marker::Model;

/// The variables in scope and what is open, each in the order of the text.
#[derive(Debug, Drop)]
pub(crate) struct Scope {
    variables: VisibleVariables,
    frames: Vec<Frame>,
}

impl Model for Scope {
    ghost use Rattle.lua_scope.specs.Scope.{ScopeState};

    ghost Value = { ScopeState };

    ghost view = { λ scope. record { variables = scope.variables; frames = scope.frames.items } };
}

impl Scope {
    /// Nothing is in scope or open, which takes no memory.
    pub(crate) fn new(alloc: Global) -> Scope
        ensures variables { result.variables ≡ [] }
        ensures frames { result.frames ≡ [] }
    {
        Scope {
            variables: VisibleVariables::new(alloc),
            frames: Vec::new(alloc),
        }
    }

    pub(crate) fn open(&mut self, kind: ScopeKind) -> Result<(), AllocError>
        ensures { IfOk result (λ _. self.new ≡ scope_opened kind self.old) }
    {
        let begins = self.variables.len();
        self.frames.push(Frame { kind, begins })?;
        Ok(())
    }

    pub(crate) fn close(&mut self)
        ensures { self.new ≡ scope_closed self.old }
    {
        if let Some(frame) = self.frames.pop() {
            self.variables.truncate(frame.begins);
        }
    }

    /// Variables of these names come into scope, numbered from `first`.
    pub(crate) fn enter(
        &mut self,
        alloc: Global,
        first: u32,
        names: &AstTexts,
    ) -> Result<(), AllocError>
        requires { first + length names.now < 2 ^ 32 }
        ensures { IfOk result (λ _. self.new ≡ entered first names.now self.old) }
    {
        let mut number = first;
        for name in names.as_slice() {
            self.variables.enter(alloc, name, number)?;
            number += 1;
        }
        Ok(())
    }

    /// What is open, the innermost last.
    pub(crate) fn frames(&self) -> &[Frame]
        ensures { result.now ≡ self.now.frames }
    {
        self.frames.as_slice()
    }

    /// The variable that a name means.
    pub(crate) fn variable(&self, name: &AstText) -> Option<u32>
        ensures { result ≡ variable_named name.now self.now.variables }
    {
        self.variables.meaning(name)
    }

    /// What the occurrence is refused for at this place, if it is.
    pub(crate) fn refusal(&self, occurrence: &Occurrence) -> Option<LoadError>
        ensures { result ≡ refusal_in self.now occurrence.now }
    {
        match occurrence {
            Occurrence::Goto { line, label } => self.jump(*line, label),
            Occurrence::SecondLabel { line } => Some(LoadError::TwoLabels(*line)),
            Occurrence::Break { line } => {
                if self.in_loop() {
                    None
                } else {
                    Some(LoadError::BreakOutside(*line))
                }
            }
            Occurrence::Vararg { line } => {
                if self.has_varargs() {
                    None
                } else {
                    Some(LoadError::VarargOutside(*line))
                }
            }
            _ => None,
        }
    }

    /// What a goto on this line to this label is refused for: the innermost block of the function
    /// that has the label decides.
    #[tactic(auto, using(crate::proofs::Reversed::reverse_push))]
    fn jump(&self, line: u32, label: &AstText) -> Option<LoadError>
        ensures { result ≡ jump_of line label.now (length self.now.variables) (reverse self.now.frames) }
    {
        let mut here = self.variables.len();
        for frame in self.frames.iter().rev() {
            match &frame.kind {
                ScopeKind::Block { labels, inside } => {
                    if let Some(there) = labels.target(*inside, label) {
                        let into_local = here.saturating_sub(frame.begins) < there;
                        return into_local.then_some(LoadError::JumpsIntoLocal(line));
                    }
                }
                ScopeKind::Loop => {}
                ScopeKind::Function { .. } => return Some(LoadError::NoLabel(line)),
            }
            here = frame.begins;
        }
        Some(LoadError::NoLabel(line))
    }

    /// Whether a loop of the function is open.
    #[tactic(auto, using(crate::proofs::Reversed::reverse_push))]
    fn in_loop(&self) -> bool
        ensures { result ≡ in_loop_of (reverse self.now.frames) }
    {
        for frame in self.frames.iter().rev() {
            match &frame.kind {
                ScopeKind::Block { .. } => {}
                ScopeKind::Loop => return true,
                ScopeKind::Function { .. } => return false,
            }
        }
        false
    }

    /// Whether the function is a vararg function. The chunk is one.
    #[tactic(auto, using(crate::proofs::Reversed::reverse_push))]
    fn has_varargs(&self) -> bool
        ensures { result ≡ has_varargs_of (reverse self.now.frames) }
    {
        for frame in self.frames.iter().rev() {
            if let ScopeKind::Function { vararg, .. } = &frame.kind {
                return *vararg;
            }
        }
        true
    }
}
