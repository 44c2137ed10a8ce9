//! What is still to be walked through.

ghost use Rattle.std.specs.Prelude.{◌≡◌, ◌∷◌, ◌++◌, [], IfOk};
ghost use Rattle.lua_scope.specs.declared.task.Task.TheVariants as task;
ghost use Rattle.lua_scope.specs.declared.occurrence.Occurrence.TheVariants as occurrence;
ghost use Rattle.lua_scope.specs.declared.occurrence.ScopeKind.TheVariants as kind;
ghost use Rattle.lua_scope.specs.Tasks.{visits, field_tasks, case_tasks, maybe_task};

use crate::occurrence::{Occurrence, ScopeKind};
use lua_ast::{AstText, AstTexts, Field, Fields, Ids, NodeId};
use std::alloc::{AllocError, Global};
use std::marker::Model;

/// A piece of the walk that is still to be done.
#[derive(Debug, Drop)]
pub(crate) enum Task {
    /// A node with its parts.
    Visit(NodeId),
    /// A block up to its end, which stays open. `repeats` tells whether it is the body of a repeat.
    Body { node: NodeId, repeats: bool },
    Emit(Occurrence),
}

/// Tasks in text order.
#[derive(Debug, Drop)]
pub(crate) struct Tasks {
    tasks: Vec<Task>,
}

impl Model for Tasks {
    ghost use Rattle.std.specs.Prelude.{List};
    ghost use Rattle.lua_scope.specs.declared.task.Task.{Task as TaskOf};

    ghost Value = { List TaskOf };

    ghost view = { λ tasks. tasks.tasks.items };
}

impl Tasks {
    pub(crate) fn new(alloc: Global) -> Tasks
        ensures { result ≡ [] }
    {
        Tasks {
            tasks: Vec::new(alloc),
        }
    }

    pub(crate) fn into_vec(self) -> Vec<Task>
        ensures { result.items ≡ self }
    {
        self.tasks
    }

    pub(crate) fn push(&mut self, task: Task) -> Result<(), AllocError>
        ensures { IfOk result (λ _. self.new ≡ self.old ++ task ∷ []) }
    {
        self.tasks.push(task)?;
        Ok(())
    }

    pub(crate) fn visit(&mut self, node: NodeId) -> Result<(), AllocError>
        ensures { IfOk result (λ _. self.new ≡ self.old ++ task.Visit node ∷ []) }
    {
        self.push(Task::Visit(node))
    }

    pub(crate) fn emit(&mut self, occurrence: Occurrence) -> Result<(), AllocError>
        ensures { IfOk result (λ _. self.new ≡ self.old ++ task.Emit occurrence ∷ []) }
    {
        self.push(Task::Emit(occurrence))
    }

    /// The turns of a loop begin.
    pub(crate) fn open_loop(&mut self) -> Result<(), AllocError>
        ensures { IfOk result (λ _. self.new ≡ self.old ++ task.Emit (occurrence.Open kind.Loop) ∷ []) }
    {
        let kind = ScopeKind::Loop;
        self.emit(Occurrence::Open { kind })
    }

    /// The variables of these names come into scope.
    pub(crate) fn enter(
        &mut self,
        alloc: Global,
        node: NodeId,
        names: &AstTexts,
    ) -> Result<(), AllocError>
        ensures { IfOk result (λ _.
            self.new ≡ self.old ++ task.Emit (occurrence.Enter node names.now) ∷ []) }
    {
        let names = copy_names(alloc, names)?;
        self.emit(Occurrence::Enter { node, names })
    }

    /// The variable of this name comes into scope.
    pub(crate) fn enter_one(
        &mut self,
        alloc: Global,
        node: NodeId,
        name: &AstText,
    ) -> Result<(), AllocError>
        ensures { IfOk result (λ _.
            self.new ≡ self.old ++ task.Emit (occurrence.Enter node (name.now ∷ [])) ∷ []) }
    {
        let mut names = AstTexts::new(alloc);
        names.push(copy_name(alloc, name)?)?;
        self.emit(Occurrence::Enter { node, names })
    }

    pub(crate) fn visit_all(&mut self, nodes: &Ids) -> Result<(), AllocError>
        ensures { IfOk result (λ _. self.new ≡ self.old ++ visits nodes.now) }
    {
        for node in nodes.as_slice() {
            self.visit(*node)?;
        }
        Ok(())
    }

    pub(crate) fn visit_any(&mut self, node: &Option<NodeId>) -> Result<(), AllocError>
        ensures { IfOk result (λ _. self.new ≡ self.old ++ maybe_task node.now) }
    {
        match node {
            Some(node) => self.visit(*node),
            None => Ok(()),
        }
    }

    /// Each test with its block. A test without a block, and a block without a test, is left out.
    pub(crate) fn visit_cases(&mut self, tests: &Ids, blocks: &Ids) -> Result<(), AllocError>
        ensures { IfOk result (λ _. self.new ≡ self.old ++ case_tasks tests.now blocks.now) }
    {
        let tests = tests.as_slice();
        let blocks = blocks.as_slice();
        for i in 0..tests.len().min(blocks.len()) {
            self.visit(tests[i])?;
            self.visit(blocks[i])?;
        }
        Ok(())
    }

    pub(crate) fn visit_fields(&mut self, fields: &Fields) -> Result<(), AllocError>
        ensures { IfOk result (λ _. self.new ≡ self.old ++ field_tasks fields.now) }
    {
        for field in fields.as_slice() {
            self.visit_field(field)?;
        }
        Ok(())
    }

    fn visit_field(&mut self, field: &Field) -> Result<(), AllocError>
        ensures { IfOk result (λ _. self.new ≡ self.old ++ field_tasks (field.now ∷ [])) }
    {
        match field {
            Field::Item { value } => self.visit(*value),
            Field::Named { value, .. } => self.visit(*value),
            Field::Keyed { key, value } => {
                self.visit(*key)?;
                self.visit(*value)
            }
        }
    }
}

/// A copy of a name.
pub(crate) fn copy_name(alloc: Global, name: &AstText) -> Result<AstText, AllocError>
    ensures { IfOk result (λ copy. copy ≡ name.now) }
{
    AstText::from_bytes(alloc, name.as_slice())
}

/// A copy of a list of names.
pub(crate) fn copy_names(alloc: Global, names: &AstTexts) -> Result<AstTexts, AllocError>
    ensures { IfOk result (λ copy. copy ≡ names.now) }
{
    let mut copies = AstTexts::new(alloc);
    for name in names.as_slice() {
        copies.push(copy_name(alloc, name)?)?;
    }
    Ok(copies)
}
